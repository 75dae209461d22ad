// Whether a line proposal overshoots nowhere: every cell of the row that rises is tight, its slack in the new field at most 0.
// Internal: the test of a proposal calls it.
//
// Proved: the answer is document 01's (crate `model`: Proposal). Proposed pressures may be any 32-bit numbers: loading a cell leaves room
// for them.
#![tactic(auto)]

ghost use Rattle.std.specs.Prelude.{◌≡◌, not, ◌||◌, List, ℕ, ◌<◌, length};
ghost use Rattle.model.specs.Integers.{at_most_zero};
ghost use Rattle.model.specs.Film.{weighted, size_of, slack};
ghost use Rattle.model.specs.Accepted.{Limited};
ghost use Rattle.model.specs.Proposal.{rises, tight};
ghost use Rattle.tightness.specs.Row.{Row};

use model::Film;

// Whether a cell keeps its pressure, or has a slack of at most 0 in the new field.
fn tight_at(film: &Film, field: &[u32], raised: &[u32], at: usize) -> bool
    requires limited { (w : List ℕ) × Limited (weighted film.now w) }
    requires fields { (length field.now ≡ size_of film.now) × (length raised.now ≡ size_of film.now) × (at < size_of film.now) }
    ensures { result ≡ (not (rises field.now raised.now at) || at_most_zero (slack film.now raised.now at)) }
{
    raised[at] <= field[at] || grid::slack_of(film, raised, at) <= 0
}

// Whether every cell of the row that rises has a slack of at most 0 in the new field.
pub fn tight_row(film: &Film, field: &[u32], raised: &[u32], start: usize) -> bool
    requires limited { (w : List ℕ) × Limited (weighted film.now w) }
    requires row { Row film.now start field.now raised.now }
    ensures { result ≡ tight film.now start field.now raised.now }
{
    let columns = film.head.columns as usize;
    for column in 0..columns {
        if !tight_at(film, field, raised, start + column) {
            return false;
        }
    }
    true
}
