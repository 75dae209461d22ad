// Refusal 14, of films given by coefficients: each cell's diagonal, links and source within their limits, and no link that leaves the
// grid. Internal: crates `checks` and `coefficient_tests` call it where shape and lengths have passed. That sums fit, and that a cell's neighbours are found by
// index alone, rests on it in all later crates.
#![tactic(auto)]

ghost use Rattle.std.specs.Prelude.{◌≡◌, ◌&&◌, List, ℕ, ◌+◌, ◌-◌, ◌*◌, ◌≤◌, ltb, leb, nat_abs};
ghost use Rattle.model.specs.Limits.{source_limit};
ghost use Rattle.model.specs.Film.{weighted};
ghost use Rattle.model.specs.Refusals.{check_of};
ghost use Rattle.model.specs.Checks.{bad_coefficient, coefficient_check};
ghost use Rattle.model.specs.Accepted.{Sized};

use fault::Fault;
use model::{Film, Refusal};

// The limits of model/specs/Limits.
const DIAGONAL_LIMIT: u32 = 268435456;

const LINK_LIMIT: u32 = 67108864;

const SOURCE_LIMIT: u64 = 1125899906842624;

// Whether a link leads out of the grid: it is above 0 at the last of n places, which run from 1.
fn leaves_grid(n: usize, place: usize, link: u32) -> bool
    ensures { result ≡ (leb n place && ltb 0 link) }
{
    (n <= place) & (0 < link)
}

// Whether a source is too far from 0, either way.
fn far_source(source: i64) -> bool
    ensures { result ≡ ltb source_limit (nat_abs source) }
{
    SOURCE_LIMIT < source.unsigned_abs()
}

// Whether the diagonal, right or up link or source of cell (row, column) is outside its limits.
fn bad_coefficient(film: &Film, row: usize, column: usize) -> bool
    requires sized { (w : List ℕ) × Sized (weighted film.now w) }
    requires inside { (1 ≤ row) × (row ≤ film.now.rows) × (1 ≤ column) × (column ≤ film.now.columns) }
    ensures { result ≡ bad_coefficient film.now ((row - 1) * film.now.columns + (column - 1)) }
{
    let rows = film.head.rows as usize;
    let columns = film.head.columns as usize;
    let at = shape::index_of(film.head, row, column);
    let right = film.rights[at];
    let up = film.ups[at];
    refusals::outside(film.diagonals[at], 1, DIAGONAL_LIMIT)
        | (LINK_LIMIT < right)
        | (LINK_LIMIT < up)
        | leaves_grid(columns, column, right)
        | leaves_grid(rows, row, up)
        | far_source(film.sources[at])
}

// Refusal 14, at the lowest cell. The film's weights do not count.
pub fn coefficient_test(film: &Film) -> Result<(), Refusal>
    requires { (w : List ℕ) × Sized (weighted film.now w) }
    ensures { check_of result ≡ coefficient_check film.now }
{
    refusals::first::first_cell(film.head, Fault::BadCoefficient, |row, column| {
        bad_coefficient(film, row, column)
    })
}
