// The table of an ordering: the cell that each place of a round relaxes.
#![tactic(auto)]

ghost use Rattle.std.specs.Prelude.{◌≡◌, ◌+◌, ◌≤◌, ◌<◌, ◌^◌, length, take};
ghost use Rattle.monotone.specs.Ordering.{picks};
ghost use Rattle.model.specs.Lists.{tabulate};
ghost use Rattle.model.specs.Run.{order_of};
ghost use Rattle.order.specs.Order.{by_index, has_parity, Appended};

// The cell at place k of n, by index or by falling index.
fn place_of(falling: bool, n: usize, k: usize) -> u16
    requires { (k < n) × (n ≤ 2 ^ 16) }
    ensures { result ≡ by_index falling n k }
{
    let cell = if falling { n - 1 - k } else { k };
    cell as u16
}

// Fills the first n places by index or by falling index.
fn fill_by_index(falling: bool, n: usize, table: &mut [u16])
    requires { (n ≤ length table.old) × (n ≤ 2 ^ 16) }
    ensures { take n table.new ≡ tabulate n (by_index falling n) }
{
    for k in 0..n {
        table[k] = place_of(falling, n, k);
    }
}

// Whether a cell's row and column add up to an even number; or to an odd one, where odd cells are asked for.
fn has_parity(even: bool, columns: usize, cell: usize) -> bool
    requires { (0 < columns) × (cell < 2 ^ 16) }
    ensures { result ≡ has_parity even columns cell }
{
    ((cell / columns + cell % columns) % 2 == 0) == even
}

// Appends the even cells below n, or the odd ones, from place `start` on, and answers the next free place.
fn append_cells(even: bool, columns: usize, n: usize, table: &mut [u16], start: usize) -> usize
    requires { (0 < columns) × (n ≤ 2 ^ 16) × (start + length (picks (has_parity even columns) n) ≤ length table.old) }
    ensures { Appended (picks (has_parity even columns) n) start table.old table.new result }
{
    let mut next = start;
    for cell in 0..n {
        if has_parity(even, columns, cell) {
            table[next] = cell as u16;
            next += 1;
        }
    }
    next
}

// Fills the first n places of the table with the cells of an order: 0 by index, 1 by falling index, 2 (and above, which
// refusal 11 keeps away) the even cells and then the odd ones.
pub fn fill_order(order: u32, columns: usize, n: usize, table: &mut [u16])
    requires { (0 < columns) × (n ≤ length table.old) × (n ≤ 2 ^ 16) }
    ensures { take n table.new ≡ tabulate n (order_of columns n order) }
{
    if order < 2 {
        fill_by_index(order == 1, n, table);
    } else {
        let odds = append_cells(true, columns, n, table, 0);
        append_cells(false, columns, n, table, odds);
    }
}
