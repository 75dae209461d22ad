// The new field of a line proposal, where the row rises to what is proposed: it is made in a buffer, the cells that rise are counted, and
// the row is held against the ceiling. Internal: the test of a proposal calls it.
//
// Proved: the new field, the count and the answer are those of document 01's definitions (crate `model`: Proposal).
#![tactic(auto)]

ghost use Rattle.std.specs.Prelude.{◌≡◌, cond, ◌+◌, ◌-◌, ◌≤◌, ◌<◌, ◌^◌, leb, length, get_or, take};
ghost use Rattle.model.specs.Lists.{tabulate, count_below, all_below};
ghost use Rattle.model.specs.Proposal.{raised_at, rises};

// The pressure proposed for a cell; 0 outside the row.
fn proposed_at(start: usize, proposal: &[u32], at: usize) -> u32
    ensures { result ≡ cond (leb start at) (get_or proposal.now (at - start) 0) 0 }
{
    if at < start {
        return 0;
    }
    proposal.get(at - start).copied().unwrap_or(0)
}

// Writes the new field into a buffer: the larger of pressure and proposal in each cell.
pub fn raise_line(field: &[u32], start: usize, proposal: &[u32], raised: &mut [u32])
    requires { length field.now ≤ length raised.old }
    ensures { take (length field.now) raised.new ≡ tabulate (length field.now) (raised_at start proposal.now field.now) }
{
    for (at, pressure) in field.iter().enumerate() {
        raised[at] = proposed_at(start, proposal, at).max(*pressure);
    }
}

// How many cells of the row rise.
#[tactic(auto, using(model::proofs::Lists::count_more))]
pub fn rise_count(field: &[u32], raised: &[u32], start: usize, columns: usize) -> u32
    requires { (start + columns ≤ length field.now) × (start + columns ≤ length raised.now) × (columns < 2 ^ 32) }
    ensures { result ≡ count_below (λ j. rises field.now raised.now (start + j)) columns }
{
    let mut cells = 0;
    for column in 0..columns {
        let at = start + column;
        if field[at] < raised[at] {
            cells += 1;
        }
    }
    cells
}

// Whether no cell of the row exceeds the ceiling.
pub fn within_ceiling(raised: &[u32], start: usize, columns: usize, ceiling: u32) -> bool
    requires { start + columns ≤ length raised.now }
    ensures { result ≡ all_below (λ j. leb (get_or raised.now (start + j) 0) ceiling) columns }
{
    for column in 0..columns {
        if ceiling < raised[start + column] {
            return false;
        }
    }
    true
}
