// Document 01, "A line offer", second paragraph: the program's own proposal for a line, worked in binary64 by eliminating along each chain
// of active cells and substituting back. Internal: the public calls of Film test their inputs and call it.
//
// Proved: it equals document 01's definition (crate `model`: Estimate). No claim on a field rests on these numbers: a line proposal is
// taken by exact test, whatever made it.
#![tactic(auto)]

ghost use Rattle.std.specs.Prelude.{◌≡◌, ◌+◌, ◌≤◌, length};
ghost use Rattle.monotone.specs.Rule.{Bounded};
ghost use Rattle.model.specs.Film.{size_of, rule};
ghost use Rattle.model.specs.Accepted.{Accepted};
ghost use Rattle.model.specs.Margin.{margin as margin_of};
ghost use Rattle.model.specs.Estimate.{estimate as estimate_of};

use chain::Elimination;
use model::Film;

// The program's own proposal for the row that begins at `start`; a broken line proposes zeros.
pub fn estimate(film: &Film, field: &[u32], start: usize, margin: u32, proposal: &mut [u32])
    requires accepted { Accepted film.now }
    requires bounded { Bounded (rule film.now) field.now }
    requires margin { margin ≡ margin_of film.now }
    requires row { (start + film.now.columns ≤ size_of film.now) × (length proposal.old ≡ film.now.columns) }
    ensures { proposal.new ≡ estimate_of film.now field.now start }
{
    let mut steps = [Elimination::Idle; 32];
    if elimination::eliminate_line(film, field, start, &mut steps) {
        proposal.fill(0);
    } else {
        substitution::substitute_line(film, &steps, start, margin, proposal);
    }
}
