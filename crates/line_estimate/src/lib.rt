// The program's own estimate of a line, and the film's margin, which it keeps to, as public calls. They ask nothing of their caller: each tests
// its input first, in document 01's order, and a refused call changes nothing.
//
// Proved: the whole answer, and the lent slice, are those of crate `model` (margin_call, estimate_call).
#![tactic(auto)]

ghost use Rattle.std.specs.Prelude.{◌≡◌};
ghost use Rattle.model.specs.Result.{answer_of, Gives};
ghost use Rattle.model.specs.Margin.{margin_call};
ghost use Rattle.model.specs.Estimate.{estimate_call};

use model::{Film, Refusal};

// Tells the film's margin (document 01: K).
pub fn margin(film: &Film) -> Result<u32, Refusal>
    ensures { answer_of result ≡ margin_call film.now }
{
    checks::film_tests(film, true)?;
    Ok(margin::margin(film))
}

// Writes the program's own proposal for a line into a slice of as many numbers as the line has cells.
pub fn estimate(film: &Film, field: &[u32], line: u32, proposal: &mut [u32]) -> Result<(), Refusal>
    ensures { Gives (estimate_call film.now line field.now proposal.old) (answer_of result) proposal.new }
{
    line_checks::line_tests(film, field, proposal.len(), line)?;
    let start = proposal::line_start(film.head.columns, line);
    estimate::estimate(film, field, start, margin::margin(film), proposal);
    Ok(())
}
