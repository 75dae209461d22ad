// What a caller in C is told of the calls on film files and on a film's own numbers: as crate `tell`, with a function for each call that answers
// numbers. Bytes, weights, thicknesses and coefficients are in the caller's slices already; what is told here are the numbers beside them: a
// report's length, and the head, wedge and grid steps of a film that was read.
//
// Internal: crates `film_c` and `film_c_coefficients` call it, and include/film.h says for C what the numbers mean.
//
// Proved: the number returned is 0 or the refusal's, and each lent number and array holds what specs/ says of the answer. A refusal
// writes its place and nothing else; an answer leaves the place as it was.
#![tactic(auto)]

ghost use Rattle.std.specs.Prelude.{◌≡◌};
ghost use Rattle.model.specs.Result.{answer_of, answer_as};
ghost use Rattle.model.specs.FileCalls.{loaded_of};
ghost use Rattle.tell_files.specs.Files.{ReportTold, steps_numbers, LoadTold, HeadTold};

use model::{Factors, Head, Numbers, Refusal};

// A report, which is in its own slice: its length.
pub fn report(answer: Result<usize, Refusal>, length: &mut usize, place: &mut usize) -> u32
    ensures { ReportTold (answer_of answer) length.old place.old result length.new place.new }
{
    match answer {
        Ok(n) => {
            *length = n;
            0
        }
        Err(r) => told::refused(r, place),
    }
}

// A film's grid steps: whether it has a field for them, 1 or 0, and the two. Where it has none, the two stay as they were.
fn steps_told(grid: Option<Factors>, steps: &mut [u32; 3])
    ensures { steps.new ≡ steps_numbers grid steps.old }
{
    match grid {
        None => {
            steps[0] = 0;
        }
        Some(factors) => {
            *steps = [1, factors.along, factors.across];
        }
    }
}

// A film that was read, whose weights and thicknesses are in their own slices: its shape, ceiling, wedge and grid steps.
pub fn read(
    answer: Result<Numbers, Refusal>,
    head: &mut [u32; 3],
    wedge: &mut i32,
    steps: &mut [u32; 3],
    place: &mut usize,
) -> u32
    ensures { LoadTold (answer_as loaded_of answer) head.old wedge.old steps.old place.old result head.new wedge.new steps.new place.new }
{
    match answer {
        Ok(film) => {
            let h = film.head;
            *head = [h.rows, h.columns, h.ceiling];
            *wedge = film.wedge;
            steps_told(film.steps, steps);
            0
        }
        Err(r) => told::refused(r, place),
    }
}

// A coefficient film that was read, whose weights and coefficients are in their own slices: its shape and ceiling.
pub fn read_coefficients(
    answer: Result<Head, Refusal>,
    head: &mut [u32; 3],
    place: &mut usize,
) -> u32
    ensures { HeadTold (answer_of answer) head.old place.old result head.new place.new }
{
    match answer {
        Ok(film) => {
            *head = [film.rows, film.columns, film.ceiling];
            0
        }
        Err(r) => told::refused(r, place),
    }
}
