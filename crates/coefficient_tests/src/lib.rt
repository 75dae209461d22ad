// The tests of a film that comes as coefficients, as its file's reader and writer make them (document 02, W1): 14 and 9 of numbers that
// were read, and 4, 10, 5, 6, 14 and 9 of a film that is to be written. Internal: the two call it before they write anything.
//
// Proved: what each test finds, read as the model's check by `check_of`, equals the check that crate `model` defines. `writer_tests` asks
// nothing of its caller. The places of 4, 5 and 6 are offsets in the file, those of 14 and 9 cells; that of 10 is 0.
#![tactic(auto)]

ghost use Rattle.std.specs.Prelude.{◌≡◌, ◌&&◌};
ghost use Rattle.model.specs.Refusals.{check_of};
ghost use Rattle.model.specs.Checks.{film_fits};
ghost use Rattle.model.specs.Accepted.{Sized};
ghost use Rattle.model.specs.CoefficientFile.{writer_check};
ghost use Rattle.coefficient_tests.specs.Tests.{matrix_check, values_check};

use fault::Fault;
use model::{Film, Refusal};

// Refusals 14 and 9, of a film whose shape, ceiling and lengths have passed.
pub fn matrix_tests(film: &Film) -> Result<(), Refusal>
    requires { Sized film.now }
    ensures { check_of result ≡ matrix_check film.now }
{
    limits::coefficient_test(film)?;
    dominance::dominance_test(film)
}

// Refusals 6, 14 and 9, of such a film.
fn value_tests(film: &Film) -> Result<(), Refusal>
    requires { Sized film.now }
    ensures { check_of result ≡ values_check film.now }
{
    list_tests::weight_test(film.weights, 15, 2)?;
    matrix_tests(film)
}

// The tests of the call that writes a film's file; `fits` says whether the file's slice has its length.
pub fn writer_tests(film: &Film, fits: bool) -> Result<(), Refusal>
    ensures { check_of result ≡ writer_check film.now (film_fits film.now && fits) }
{
    refusals::shape_test(film.head.rows, 3, film.head.columns, 4)?;
    refusals::fail_if(!(checks::film_fits(film) & fits), Fault::WrongBuffer, 0)?;
    refusals::ceiling_test(film.head.ceiling, 8)?;
    value_tests(film)
}
