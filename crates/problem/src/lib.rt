// Public calls on a film as coefficients in lent slices: relax one cell, and tell a cell's slack.
// They ask nothing of their caller: each tests its input first, in document 01's order, and a refused call changes nothing.
//
// Proved: the whole answer, and the field, are those of crate `model` (relax_call, slack_call).
#![tactic(auto)]

ghost use Rattle.std.specs.Prelude.{◌≡◌, ◌<◌, length};
ghost use Rattle.model.specs.Film.{size_of};
ghost use Rattle.model.specs.Accepted.{Limited};
ghost use Rattle.model.specs.Result.{answer_of, answer_as, Gives};
ghost use Rattle.model.specs.Relaxation.{relaxed_of, relax as relax_of, relax_call, slack_call};

use model::{Film, Refusal, Relaxed};
use pointwise::Found;

// The relaxation of a cell of a film that has passed its tests.
fn relax_cell(film: &Film, field: &mut [u32], at: usize) -> Relaxed
    requires limited { Limited film.now }
    requires field { (length field.old ≡ size_of film.now) × (at < size_of film.now) }
    ensures { Gives (relax_of film.now field.old at) (relaxed_of result) field.new }
{
    let pressure = field[at];
    let target = grid::cell_at(film, &field[..], at).raise(pressure);
    match pointwise::relax_at(field, at, target, film.head.ceiling) {
        Found::Quiet => Relaxed::Quiet,
        Found::Raised => Relaxed::Raised(target as u32),
        Found::Over => Relaxed::Over(at),
    }
}

// Relaxes one cell of the field (document 01: a visit).
pub fn relax(film: &Film, field: &mut [u32], at: usize) -> Result<Relaxed, Refusal>
    ensures { Gives (relax_call film.now field.old at) (answer_as relaxed_of result) field.new }
{
    let place = list_tests::cell_test(film.head, at);
    checks::field_tests(film, &field[..], true, Ok(()), place)?;
    Ok(relax_cell(film, field, at))
}

// Tells the slack of one cell of the field (document 01: its spare).
pub fn slack(film: &Film, field: &[u32], at: usize) -> Result<i64, Refusal>
    ensures { answer_of result ≡ slack_call film.now field.now at }
{
    let place = list_tests::cell_test(film.head, at);
    checks::field_tests(film, field, true, Ok(()), place)?;
    Ok(grid::slack_of(film, field, at))
}
