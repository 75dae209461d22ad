// The tests of the calls for one line of the grid: those of the film and the field, that as many numbers are lent as the line has cells, and that
// there is such a line. Internal: crates `line` and `line_estimate` call it before they do anything else.
//
// Proved: what is found, read as the model's check by `check_of`, equals `row_check` of a list of `length` numbers, for all values that the
// types can hold.
#![tactic(auto)]

ghost use Rattle.std.specs.Prelude.{◌≡◌};
ghost use Rattle.model.specs.Refusals.{check_of};
ghost use Rattle.line_checks.specs.Line.{row_check_by};

use model::{Film, Refusal};

pub fn line_tests(film: &Film, field: &[u32], length: usize, line: u32) -> Result<(), Refusal>
    ensures { check_of result ≡ row_check_by film.now field.now length line }
{
    let place = refusals::line_test(film.head, line);
    let fits = length == film.head.columns as usize;
    checks::field_tests(film, field, fits, Ok(()), place)
}
