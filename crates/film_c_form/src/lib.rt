// Film for C and Rust: the public call that forms coefficients, as a C function. As in crate `film_c`, which has runs and the calls on gauged films' files:
// the returned number is 0 or the refusal's, and a film's shape and ceiling travel as one head. A crate of its own, since it is lent eight
// slices and takes as long to prove as the other calls together.
//
// Proved: the returned number, and what each lent number and slice holds at exit, are those that crate `model` gives the call (Forms), told as
// specs/ of crates `tell_files`, `archive` and `told` say. As the call itself, it asks nothing of its caller.
#![tactic(auto)]

ghost use Rattle.model.specs.FileCalls.{gauge_of};
ghost use Rattle.archive.specs.Lent.{lent_head, lent_steps, FormTold};

use model::Gauged;

// Forms the coefficients of a film.
#[unsafe(no_mangle)]
pub extern "C" fn film_form(
    head: &[u32; 3],
    weights: &[u16],
    thicknesses: &[u8],
    wedge: i32,
    steps: &[u32; 3],
    diagonals: &mut [u32],
    rights: &mut [u32],
    ups: &mut [u32],
    sources: &mut [i64],
    place: &mut usize,
) -> u32
    ensures { FormTold (gauge_of (lent_head head.now) weights.now thicknesses.now wedge (lent_steps steps.now)) diagonals.old rights.old ups.old sources.old place.old result diagonals.new rights.new ups.new sources.new place.new }
{
    let film = Gauged {
        head: archive::head_of(head),
        weights,
        thicknesses,
        wedge,
        steps: archive::steps_of(steps),
    };
    told::answer(
        coefficients::form(&film, diagonals, rights, ups, sources),
        place,
    )
}
