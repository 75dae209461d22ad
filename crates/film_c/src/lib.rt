// Film for C and Rust: the public calls from a film's file to its runs and its report, as C functions on numbers and lent slices; crate
// `film_c_steps` has those for a cell or a line, `film_c_form` the one that forms coefficients, `film_c_coefficients` those on coefficient films.
// include/film.h documents them for their caller. Each returns 0 if the call answered, else the number of its refusal. A refusal writes its place and
// changes nothing else; an answer leaves the place as it was.
//
// A film's shape and ceiling travel as one head, lent as an array of numbers: what every later film has beside them joins the array, and no call gets
// another parameter. A gauged film's grid steps, which the calls on coefficients do not take, travel as an array of their own.
//
// Proved: the returned number, and what each lent number, array and slice holds at exit, are those that crate `model` gives the call
// (run_call, Loads, ..), told as specs/ of crates `tell`, `tell_files`, `archive` and `told` say. As the calls themselves, they ask nothing of
// their caller.
#![tactic(auto)]

mod files; // files.rt: the calls on gauged films' files, and the report
mod runs; // runs.rt: the run
