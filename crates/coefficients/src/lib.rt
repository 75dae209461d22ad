// The public call that forms coefficients from a film's thicknesses, wedge number and grid steps, into four lent slices.
// It asks nothing of its caller: it tests its input first, in document 01's order, and a refused call changes nothing.
//
// Proved: the whole answer, and the four slices, are those of crate `model` (Forms).
#![tactic(auto)]

ghost use Rattle.model.specs.Result.{answer_of};
ghost use Rattle.model.specs.FileCalls.{Forms};

use model::{Gauged, Refusal};

pub fn form(
    film: &Gauged,
    diagonals: &mut [u32],
    rights: &mut [u32],
    ups: &mut [u32],
    sources: &mut [i64],
) -> Result<(), Refusal>
    ensures { Forms film.now diagonals.old rights.old ups.old sources.old (answer_of result) diagonals.new rights.new ups.new sources.new }
{
    let n = shape::area(film.head.rows, film.head.columns);
    let fits = (diagonals.len() == n)
        & (rights.len() == n)
        & (ups.len() == n)
        & (sources.len() == n);
    gauge::gauge_tests(film, fits)?;
    forming::form(film, diagonals, rights, ups, sources);
    Ok(())
}
