// A film's shape: how many cells and thicknesses it has, the index of the cell at a row and a column, and that cell's weight with what
// the weights beside it pull (weights.rt). Internal: all that counts a film's numbers, or goes over them row by row, asks here.
//
// Rows and columns run from 1; a cell's index runs from 0, by rows.
#![tactic(auto)]

ghost use Rattle.std.specs.Prelude.{◌≡◌, ◌+◌, ◌-◌, ◌*◌, ◌≤◌, ◌<◌};

use model::Head;

pub mod weights; // weights.rt: a cell's weight, and what those beside it pull

// The number of cells.
pub fn area(rows: u32, columns: u32) -> usize
    ensures { result ≡ rows * columns }
{
    cell::product(rows, columns) as usize
}

// The number of thicknesses: a ring lies around the grid. Its bounds admit every shape that a file can name, tested or not.
pub fn ring(rows: u32, columns: u32) -> usize
    requires { (rows ≤ 65535) × (columns ≤ 65535) }
    ensures { result ≡ (rows + 2) * (columns + 2) }
{
    area(rows + 2, columns + 2)
}

// The index of cell (row, column).
pub fn index_of(head: Head, row: usize, column: usize) -> usize
    requires sides { (head.rows ≤ 32) × (head.columns ≤ 32) }
    requires inside { (1 ≤ row) × (row ≤ head.rows) × (1 ≤ column) × (column ≤ head.columns) }
    ensures { (result ≡ (row - 1) * head.columns + (column - 1)) × (result < head.rows * head.columns) × (result < 1024) }
{
    (row - 1) * (head.columns as usize) + (column - 1)
}
