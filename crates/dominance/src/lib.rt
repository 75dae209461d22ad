// Refusal 9, of films given by coefficients: the weighted row sum of each cell, row by row, which shows that the matrix is Minkowski.
// Internal: crates `checks` and `coefficient_tests` call it where the coefficients are within their limits. Crate `row_sums` has that test for thicknesses.
#![tactic(auto)]

ghost use Rattle.std.specs.Prelude.{◌≡◌, cond, List, ◌+◌, ◌-◌, ◌*◌, ◌≤◌, ◌<◌, ltb, ℤ, length, get_or};
ghost use Rattle.model.specs.Refusals.{check_of};
ghost use Rattle.model.specs.Checks.{not_dominant, dominance_check};
ghost use Rattle.model.specs.Accepted.{Limited};

use fault::Fault;
use model::{Film, Refusal};

// The link to the cell that lies `step` before `at`; 0 if there is none. Across the grid's edge it does not count, since the weight
// beyond is 0: so no row or column is asked for.
fn link_back(links: &[u32], at: usize, step: usize) -> u32
    requires { at < length links.now }
    ensures { result ≡ cond (ltb at step) 0 (get_or links.now (at - step) 0) }
{
    if at < step {
        return 0;
    }
    links[at - step]
}

// Whether the weighted row sum of cell (row, column) is below 1: the weights beside it pull at least as much as its own bears.
fn not_dominant(film: &Film, row: usize, column: usize) -> bool
    requires limited { (s : List ℤ) × Limited (record film.now { sources = s }) }
    requires inside { (1 ≤ row) × (row ≤ film.now.rows) × (1 ≤ column) × (column ≤ film.now.columns) }
    ensures { result ≡ not_dominant film.now ((row - 1) * film.now.columns + (column - 1)) }
{
    let columns = film.head.columns as usize;
    let at = shape::index_of(film.head, row, column);
    let left = link_back(film.rights, at, 1);
    let down = link_back(film.ups, at, columns);
    let pull = shape::weights::pull(
        film.head,
        film.weights,
        row,
        column,
        left,
        film.rights[at],
        down,
        film.ups[at],
    );
    let weight = shape::weights::weight_at(film.head, film.weights, row, column);
    cell::product(film.diagonals[at], weight) <= pull
}

// Refusal 9, at the lowest cell. The film's sources do not count.
pub fn dominance_test(film: &Film) -> Result<(), Refusal>
    requires { (s : List ℤ) × Limited (record film.now { sources = s }) }
    ensures { check_of result ≡ dominance_check film.now }
{
    refusals::first::first_cell(film.head, Fault::NotDominant, |row, column| {
        not_dominant(film, row, column)
    })
}
