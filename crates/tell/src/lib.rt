// What a caller in C is told of the calls on a film as coefficients. C has no enums that hold values, so `film_c` hands the answer of a public
// call to the function here that bears the call's name: the number that C gets is returned, and results go into the numbers and arrays that the
// caller lent. The film's slices are not seen here, nor is the field: the call itself writes those. Crate `tell_files` does the same for the calls
// on film files, and `told` tells a refusal for both, and the answer of a call that has no numbers to tell.
//
// Internal: crates `film_c` and `film_c_steps` call it, and include/film.h says for C what the numbers mean.
//
// Proved: the number returned is 0 or the refusal's, and each lent number and array holds what specs/ says of the answer. A refusal
// writes its place and nothing else; an answer leaves the place as it was.
#![tactic(auto)]

ghost use Rattle.model.specs.Result.{answer_of, answer_as};
ghost use Rattle.model.specs.Relaxation.{relaxed_of};
ghost use Rattle.model.specs.Proposal.{proposed_of};
ghost use Rattle.model.specs.Run.{ran_of};
ghost use Rattle.tell.specs.Numbers.{SlackTold, MarginTold, RelaxTold, ProposeTold, RunTold};

use model::{Ran, Refusal, Relaxed};

// A cell's slack.
pub fn slack(answer: Result<i64, Refusal>, value: &mut i64, place: &mut usize) -> u32
    ensures { SlackTold (answer_of answer) value.old place.old result value.new place.new }
{
    match answer {
        Ok(z) => {
            *value = z;
            0
        }
        Err(r) => told::refused(r, place),
    }
}

// A film's margin.
pub fn margin(answer: Result<u32, Refusal>, value: &mut u32, place: &mut usize) -> u32
    ensures { MarginTold (answer_of answer) value.old place.old result value.new place.new }
{
    match answer {
        Ok(k) => {
            *value = k;
            0
        }
        Err(r) => told::refused(r, place),
    }
}

// A run: how it ended and its counts, and the cell of Over.
pub fn run(
    answer: Result<Ran, Refusal>,
    res: &mut [u32; 4],
    cell: &mut usize,
    place: &mut usize,
) -> u32
    ensures { RunTold (answer_as ran_of answer) res.old cell.old place.old result res.new cell.new place.new }
{
    match answer {
        Ok(Ran::Done(c)) => {
            *res = [0, c.visits, c.raises, c.accepted];
            0
        }
        Ok(Ran::Stopped(c)) => {
            *res = [1, c.visits, c.raises, c.accepted];
            0
        }
        Ok(Ran::Over(at, c)) => {
            *res = [2, c.visits, c.raises, c.accepted];
            *cell = at;
            0
        }
        Err(r) => told::refused(r, place),
    }
}

// A relaxation: what it found, and the pressure that the cell was raised to.
pub fn relax(answer: Result<Relaxed, Refusal>, res: &mut [u32; 2], place: &mut usize) -> u32
    ensures { RelaxTold (answer_as relaxed_of answer) res.old place.old result res.new place.new }
{
    match answer {
        Ok(Relaxed::Quiet) => {
            *res = [0, 0];
            0
        }
        Ok(Relaxed::Raised(pressure)) => {
            *res = [1, pressure];
            0
        }
        Ok(Relaxed::Over(_)) => {
            *res = [2, 0];
            0
        }
        Err(r) => told::refused(r, place),
    }
}

// A line proposal: whether it was accepted, and how many cells it raised.
pub fn propose(answer: Result<Option<u32>, Refusal>, res: &mut [u32; 2], place: &mut usize) -> u32
    ensures { ProposeTold (answer_as proposed_of answer) res.old place.old result res.new place.new }
{
    match answer {
        Ok(Some(cells)) => {
            *res = [1, cells];
            0
        }
        Ok(None) => {
            *res = [0, 0];
            0
        }
        Err(r) => told::refused(r, place),
    }
}
