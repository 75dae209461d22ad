// The exact test of a line proposal: pressures proposed for one row are accepted or rejected as a whole.
// Internal: the public calls of Film test their inputs and call it.
//
// Proved: the answer, its count and the field are document 01's. The new field is made in a buffer and the lent one is written
// only after the tests, so a rejected proposal leaves it alone.
#![tactic(auto)]

ghost use Rattle.std.specs.Prelude.{◌≡◌, List, ℕ, ◌+◌, ◌-◌, ◌*◌, ◌≤◌, length};
ghost use Rattle.model.specs.Film.{weighted, size_of};
ghost use Rattle.model.specs.Accepted.{Limited};
ghost use Rattle.model.specs.Result.{Gives};
ghost use Rattle.model.specs.Proposal.{proposed_of, accepts, decided, propose as propose_of};
ghost use Rattle.tightness.specs.Row.{Row};

use model::Film;

// The first cell of a line, which is counted from 1.
pub fn line_start(columns: u32, line: u32) -> usize
    requires { (1 ≤ line) × ((line ≤ 32) × (columns ≤ 32)) }
    ensures { result ≡ (line - 1) * columns }
{
    ((line - 1) * columns) as usize
}

// The tests of the new field, and then the new field for the old one if they hold; it answers how many cells rose.
#[tactic(auto, using(crate::proofs::Proposal::all_hold, crate::proofs::Proposal::one_fails), unfolding(model::specs::Proposal::rise_count, model::specs::Proposal::within_ceiling))]
fn settle(film: &Film, field: &mut [u32], raised: &[u32], start: usize) -> Option<u32>
    requires limited { (w : List ℕ) × Limited (weighted film.now w) }
    requires row { Row film.now start field.old raised.now }
    ensures { Gives (decided (accepts film.now start field.old raised.now) film.now start field.old raised.now) (proposed_of result) field.new }
{
    let columns = film.head.columns as usize;
    let cells = raising::rise_count(&field[..], raised, start, columns);
    let low = raising::within_ceiling(raised, start, columns, film.head.ceiling);
    let tight = tightness::tight_row(film, &field[..], raised, start);
    if 0 < cells && low && tight {
        field.copy_from_slice(raised);
        return Some(cells);
    }
    None
}

// A proposal for the row that begins at `start`: accepted, with the number of cells that rose, or rejected.
pub fn propose(film: &Film, field: &mut [u32], start: usize, proposal: &[u32]) -> Option<u32>
    requires limited { (w : List ℕ) × Limited (weighted film.now w) }
    requires row { (length field.old ≡ size_of film.now) × (start + film.now.columns ≤ size_of film.now) × (length proposal.now ≡ film.now.columns) }
    ensures { Gives (propose_of film.now start proposal.now field.old) (proposed_of result) field.new }
{
    let n = field.len();
    let mut buffer = [0u32; 1024];
    raising::raise_line(&field[..], start, proposal, &mut buffer);
    settle(film, field, &buffer[..n], start)
}
