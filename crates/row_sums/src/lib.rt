// Refusal 9, of films given by thicknesses: the weighted row sums straight from thicknesses, grid steps and weights, row by row. No table of
// coefficients is made for it, since clearing one costs more than a small film's whole test. Internal: crates `gauge` and `reading`
// call it where all other tests have passed. Crate `dominance` has that test for coefficients.
#![tactic(auto)]

ghost use Rattle.std.specs.Prelude.{◌≡◌, ◌+◌, ◌-◌, ◌*◌, ◌≤◌, ℤ, length};
ghost use Rattle.model.specs.Refusals.{check_of};
ghost use Rattle.model.specs.Gauge.{factors_of, Stepped};
ghost use Rattle.model.specs.Coefficients.{formed};
ghost use Rattle.model.specs.Checks.{not_dominant};
ghost use Rattle.model.specs.File.{cells, gauge_dominance};
ghost use Rattle.forming.specs.Cell.{Ringed};

use fault::Fault;
use model::{Factors, Gauged, Refusal};

// Whether the weighted row sum of cell (row, column) is below 1: the weights beside it pull at least as much as its own bears.
fn not_dominant(film: &Gauged, factors: Factors, row: usize, column: usize) -> bool
    requires ringed { Ringed film.now × (length film.now.weights ≡ cells film.now.rows film.now.columns) }
    requires factors { Stepped factors × (factors ≡ factors_of film.now.steps) }
    requires inside { (1 ≤ row) × (row ≤ film.now.rows) × (1 ≤ column) × (column ≤ film.now.columns) }
    ensures { result ≡ not_dominant (formed film.now) ((row - 1) * film.now.columns + (column - 1)) }
{
    let links = stencil::links_of(forming::around_at(film, row, column), factors);
    let pull = shape::weights::pull(
        film.head,
        film.weights,
        row,
        column,
        links.left,
        links.right,
        links.down,
        links.up,
    );
    let weight = shape::weights::weight_at(film.head, film.weights, row, column);
    cell::product(links.sum, weight) <= pull
}

// Refusal 9, at the lowest cell: sources do not count, so it holds with every wedge number.
pub fn dominance_test(film: &Gauged) -> Result<(), Refusal>
    requires { Ringed film.now × (length film.now.weights ≡ cells film.now.rows film.now.columns) × Stepped (factors_of film.now.steps) }
    ensures own { check_of result ≡ gauge_dominance film.now }
    ensures any_wedge { (wedge : ℤ) → check_of result ≡ gauge_dominance (record film.now { wedge = wedge }) }
{
    let factors = stencil::factors_of(film.steps);
    refusals::first::first_cell(film.head, Fault::NotDominant, |row, column| {
        not_dominant(film, factors, row, column)
    })
}
