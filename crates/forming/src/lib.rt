// The coefficients that thicknesses, wedge and grid steps form: the thicknesses around a cell, and a film's coefficients, row by row into four lent slices.
// Internal: the public call `form` and the report write them all, and crate `row_sums` takes the thicknesses around a cell.
#![tactic(auto)]

ghost use Rattle.std.specs.Prelude.{◌≡◌, ◌-◌, ◌*◌, ◌≤◌, Some};
ghost use Rattle.model.specs.Gauge.{factors_of, Stepped};
ghost use Rattle.model.specs.File.{cells};
ghost use Rattle.forming.specs.Cell.{coefficients_at, around_of, Ringed, Room, FormedTo, Forming};

use model::{Factors, Gauged};
use stencil::{Around, Coefficients};

// The thicknesses of cell (row, column), which run from 1, and of the four beside it.
pub fn around_at(film: &Gauged, row: usize, column: usize) -> Around
    requires ringed { Ringed film.now }
    requires inside { (1 ≤ row) × (row ≤ film.now.rows) × (1 ≤ column) × (column ≤ film.now.columns) }
    ensures { result ≡ around_of film.now row column }
{
    let width = (film.head.columns as usize) + 2;
    let place = row * width + column;
    Around {
        own: film.thicknesses[place],
        left: film.thicknesses[place - 1],
        right: film.thicknesses[place + 1],
        down: film.thicknesses[place - width],
        up: film.thicknesses[place + width],
    }
}

// The coefficients of cell (row, column), with these factors; the film's own steps do not count.
pub fn coefficients_at(film: &Gauged, factors: Factors, row: usize, column: usize) -> Coefficients
    requires ringed { Ringed film.now × Stepped factors }
    requires inside { (1 ≤ row) × (row ≤ film.now.rows) × (1 ≤ column) × (column ≤ film.now.columns) }
    ensures any_steps { result ≡ coefficients_at (record film.now { steps = Some factors }) row column }
    ensures own { factors ≡ factors_of film.now.steps → result ≡ coefficients_at film.now row column }
{
    let around = around_at(film, row, column);
    let in_row = column < (film.head.columns as usize);
    let in_column = row < (film.head.rows as usize);
    stencil::coefficients_of(around, factors, film.wedge, in_row, in_column)
}

// Writes the coefficients of a row's cells into their places in four slices, where those of the rows before stand already.
fn form_row(
    film: &Gauged,
    factors: Factors,
    row: usize,
    diagonals: &mut [u32],
    rights: &mut [u32],
    ups: &mut [u32],
    sources: &mut [i64],
)
    requires ringed { Ringed film.now × Stepped factors × (factors ≡ factors_of film.now.steps) }
    requires row { (1 ≤ row) × (row ≤ film.now.rows) }
    requires room { Room (cells film.now.rows film.now.columns) diagonals.old rights.old ups.old sources.old }
    requires formed_to { FormedTo ((row - 1) * film.now.columns) film.now diagonals.old rights.old ups.old sources.old }
    ensures { FormedTo (row * film.now.columns) film.now diagonals.new rights.new ups.new sources.new }
{
    let columns = film.head.columns as usize;
    let first = (row - 1) * columns;
    for i in 0..columns {
        let cell = coefficients_at(film, factors, row, i + 1);
        let at = first + i;
        diagonals[at] = cell.diagonal;
        rights[at] = cell.right;
        ups[at] = cell.up;
        sources[at] = cell.source;
    }
}

// Writes the coefficients of a film's cells into the first N places of four slices, row by row: no cell needs a division for its row
// and column.
pub fn form(
    film: &Gauged,
    diagonals: &mut [u32],
    rights: &mut [u32],
    ups: &mut [u32],
    sources: &mut [i64],
)
    requires ringed { Ringed film.now × Stepped (factors_of film.now.steps) }
    requires room { Room (cells film.now.rows film.now.columns) diagonals.old rights.old ups.old sources.old }
    ensures { Forming film.now diagonals.new rights.new ups.new sources.new }
{
    let factors = stencil::factors_of(film.steps);
    let rows = film.head.rows as usize;
    for i in 0..rows {
        form_row(film, factors, i + 1, diagonals, rights, ups, sources);
    }
}
