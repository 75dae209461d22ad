// The tests of the calls that take coefficients, in document 01's order: refusals 4, 5, 10, 14, 6, 9, 11, 12 and 13. The tests themselves
// are in crates `refusals`, `list_tests`, `limits` and `dominance`. Internal: other crates of Film call it before they do anything else,
// so that a refused call changes nothing.
//
// Proved: what each test finds, read as the model's check by `check_of`, equals the check that crate `model` defines, for all values
// that the types can hold: no public function asks anything of its caller. So the first test that fails wins, at its lowest place.
// Only the tests of values ask that those before them have passed, and no other crate calls these.
#![tactic(auto)]

ghost use Rattle.std.specs.Prelude.{◌≡◌};
ghost use Rattle.model.specs.Refusals.{check_of};
ghost use Rattle.model.specs.Checks.{film_fits, field_check};
ghost use Rattle.model.specs.Accepted.{Sized};
ghost use Rattle.checks.specs.Own.{value_check, own_check};

use model::{Film, Refusal};

// Refusals 14, 6 and 9, of a film whose shape, ceiling and lengths have passed.
fn value_tests(film: &Film) -> Result<(), Refusal>
    requires { Sized film.now }
    ensures { check_of result ≡ value_check film.now }
{
    limits::coefficient_test(film)?;
    list_tests::weight_test(film.weights, 0, 1)?;
    dominance::dominance_test(film)
}

// Whether the film's slices have a number for each cell.
pub fn film_fits(film: &Film) -> bool
    ensures { result ≡ film_fits film.now }
{
    let n = shape::area(film.head.rows, film.head.columns);
    (film.weights.len() == n)
        & (film.diagonals.len() == n)
        & (film.rights.len() == n)
        & (film.ups.len() == n)
        & (film.sources.len() == n)
}

// The tests of a film as it is lent; `fits` says whether the call's other slices have their lengths.
pub fn film_tests(film: &Film, fits: bool) -> Result<(), Refusal>
    ensures { check_of result ≡ own_check film.now fits }
{
    refusals::size_test(film.head, film_fits(film) & fits)?;
    value_tests(film)
}

// The tests of a call that is lent a field too; `order` and `place` are its tests 11 and 13, Ok if it has no such input.
pub fn field_tests(
    film: &Film,
    field: &[u32],
    fits: bool,
    order: Result<(), Refusal>,
    place: Result<(), Refusal>,
) -> Result<(), Refusal>
    ensures { check_of result ≡ field_check film.now field.now fits (check_of order) (check_of place) }
{
    let whole = field.len() == shape::area(film.head.rows, film.head.columns);
    film_tests(film, whole & fits)?;
    order?;
    list_tests::start_test(field, film.head.ceiling)?;
    place
}
