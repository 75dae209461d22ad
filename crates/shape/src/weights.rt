// Weights by row and column, read as they are lent, in 16 bits: both tests of dominance, that of coefficients and that of
// thicknesses, take them from here. No table of wider numbers is made, since clearing one is a good part of a small film's test.
ghost use Rattle.std.specs.Prelude.{◌≡◌, true, cond, ◌+◌, ◌-◌, ◌*◌, ◌≤◌, ◌<◌, ◌^◌, length, get_or};
ghost use Rattle.shape.specs.Weights.{weight_of, weights_pull};

use model::Head;

// The weight of cell (row, column), which run from 1.
pub fn weight_at(head: Head, weights: &[u16], row: usize, column: usize) -> u32
    requires sides { (head.rows ≤ 32) × (head.columns ≤ 32) × (length weights.now ≡ head.rows * head.columns) }
    requires inside { (1 ≤ row) × (row ≤ head.rows) × (1 ≤ column) × (column ≤ head.columns) }
    ensures { result ≡ weight_of head weights.now row column }
{
    weights[crate::index_of(head, row, column)] as u32
}

// The weight that lies `step` before `at`, if that is inside the grid; else 0.
fn weight_back(weights: &[u16], inside: bool, at: usize, step: usize) -> u32
    requires { (at < length weights.now) × (inside ≡ true → step ≤ at) }
    ensures { result ≡ cond inside (get_or weights.now (at - step) 0) 0 }
{
    if inside {
        return weights[at - step] as u32;
    }
    0
}

// The weight that lies `step` after `at`, if that is inside the grid; else 0.
fn weight_ahead(weights: &[u16], inside: bool, at: usize, step: usize) -> u32
    requires { inside ≡ true → at + step < length weights.now }
    ensures { result ≡ cond inside (get_or weights.now (at + step) 0) 0 }
{
    if inside {
        return weights[at + step] as u32;
    }
    0
}

// What the weights beside cell (row, column) pull, each over its link. Beyond the grid the weight is 0, so a link there may be any.
pub fn pull(
    head: Head,
    weights: &[u16],
    row: usize,
    column: usize,
    left: u32,
    right: u32,
    down: u32,
    up: u32,
) -> u64
    requires sides { (head.rows ≤ 32) × (head.columns ≤ 32) × (length weights.now ≡ head.rows * head.columns) }
    requires inside { (1 ≤ row) × (row ≤ head.rows) × (1 ≤ column) × (column ≤ head.columns) }
    requires links { (left ≤ 2 ^ 29) × (right ≤ 2 ^ 29) × (down ≤ 2 ^ 29) × (up ≤ 2 ^ 29) }
    ensures { result ≡ weights_pull head weights.now row column left right down up }
{
    let rows = head.rows as usize;
    let columns = head.columns as usize;
    let at = crate::index_of(head, row, column);
    let from_left = cell::product(left, weight_back(weights, 1 < column, at, 1));
    let from_right = cell::product(right, weight_ahead(weights, column < columns, at, 1));
    let from_down = cell::product(down, weight_back(weights, 1 < row, at, columns));
    let from_up = cell::product(up, weight_ahead(weights, row < rows, at, columns));
    from_left + from_right + (from_down + from_up)
}
