// The tests of a film's numbers as a gauged film's file has them, thicknesses, wedge and grid steps: refusals 4, 10, 5, 6, 7, 8, 15 and 9, in
// this order. Internal: the calls that form coefficients, write files and convert begin with it.
//
// Proved: what each test finds, read as the model's check by `check_of`, equals the check that crate `model` defines. `gauge_tests` asks
// nothing of its caller. A refusal's place is the number's place in the film file; that of 9 is the cell, and that of 10 is 0.
#![tactic(auto)]

ghost use Rattle.std.specs.Prelude.{◌≡◌, ◌&&◌};
ghost use Rattle.model.specs.Refusals.{pass, check_of};
ghost use Rattle.model.specs.Checks.{shape_check};
ghost use Rattle.model.specs.File.{rows_offset, columns_offset, gauge_check};
ghost use Rattle.model.specs.FileCalls.{gauge_fits};
ghost use Rattle.gauge.specs.Tests.{numbers_check, values_check, sized_check, Measured};

use fault::Fault;
use model::{Gauged, Refusal};

// Refusals 5, 6, 7, 8 and 15, of a film whose shape and lengths have passed.
fn number_tests(film: &Gauged) -> Result<(), Refusal>
    requires { Measured film.now }
    ensures { check_of result ≡ numbers_check film.now }
{
    let end = 15 + 2 * film.weights.len(); // behind the weights; a body stands three bytes behind its tag
    let last = end + 3 + film.thicknesses.len() + 3;
    refusals::ceiling_test(film.head.ceiling, 8)?;
    list_tests::weight_test(film.weights, 15, 2)?;
    list_tests::thicknesses_test(film.thicknesses, end + 3)?;
    list_tests::wedge_test(film.wedge, last)?;
    step_tests::steps_test(film.steps, last + 4 + 3)
}

// Refusals 5, 6, 7, 8, 15 and 9, of a film whose shape and lengths have passed.
fn value_tests(film: &Gauged) -> Result<(), Refusal>
    requires { Measured film.now }
    ensures { check_of result ≡ values_check film.now }
{
    number_tests(film)?;
    row_sums::dominance_test(film)
}

// Whether the film has a weight for each cell, and a thickness for each place of the grid and its ring; its shape has passed.
fn gauge_fits(film: &Gauged) -> bool
    requires { shape_check film.now.rows rows_offset film.now.columns columns_offset ≡ pass }
    ensures { result ≡ gauge_fits film.now }
{
    (film.weights.len() == shape::area(film.head.rows, film.head.columns))
        & (film.thicknesses.len() == shape::ring(film.head.rows, film.head.columns))
}

// Refusals 10, 5, 6, 7, 8, 15 and 9, of a film whose shape has passed.
fn sized_tests(film: &Gauged, fits: bool) -> Result<(), Refusal>
    requires { shape_check film.now.rows rows_offset film.now.columns columns_offset ≡ pass }
    ensures { check_of result ≡ sized_check film.now fits }
{
    refusals::fail_if(!(gauge_fits(film) & fits), Fault::WrongBuffer, 0)?;
    value_tests(film)
}

// The tests of a film's numbers; `fits` says whether the call's other slices have their lengths.
pub fn gauge_tests(film: &Gauged, fits: bool) -> Result<(), Refusal>
    ensures { check_of result ≡ gauge_check film.now (gauge_fits film.now && fits) }
{
    refusals::shape_test(film.head.rows, 3, film.head.columns, 4)?;
    sized_tests(film, fits)
}
