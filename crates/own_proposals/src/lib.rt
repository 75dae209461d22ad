// What comes before a run's relaxations: the program's own proposal for each line in turn, estimated from the field as it is and put to
// the exact test. Internal: `run` calls it.
//
// Proved: the field and the number of raised cells are those of document 01's run with proposals (crate `model`: Run).
#![tactic(auto)]

ghost use Rattle.std.specs.Prelude.{◌≡◌, ◌≤◌, length};
ghost use Rattle.monotone.specs.Rule.{Bounded};
ghost use Rattle.model.specs.Film.{rule};
ghost use Rattle.model.specs.Accepted.{Accepted};
ghost use Rattle.model.specs.Margin.{margin as margin_of};
ghost use Rattle.model.specs.Run.{propose_own, propose_lines, readied};
ghost use Rattle.own_proposals.specs.Readies.{from, Readies};

use model::Film;

// The program's own proposal for a line, worked from the field as it is into a lent slice; it answers how many cells it raised.
fn propose_line(film: &Film, field: &mut [u32], line: u32, margin: u32, proposal: &mut [u32]) -> u32
    requires accepted { Accepted film.now × Bounded (rule film.now) field.old }
    requires margin { margin ≡ margin_of film.now }
    requires line { (1 ≤ line) × (line ≤ film.now.rows) × (length proposal.old ≡ film.now.columns) }
    ensures { Readies (propose_own film.now line (from field.old)) result field.new }
{
    let start = proposal::line_start(film.head.columns, line);
    estimate::estimate(film, &field[..], start, margin, proposal);
    proposal::propose(film, field, start, &proposal[..]).unwrap_or(0)
}

// The program's own proposals for all lines in turn; it answers how many cells they raised.
fn propose_lines(film: &Film, field: &mut [u32], proposal: &mut [u32]) -> u32
    requires accepted { Accepted film.now × Bounded (rule film.now) field.old }
    requires proposal { length proposal.old ≡ film.now.columns }
    ensures { Readies (propose_lines film.now film.now.rows (from field.old)) result field.new }
{
    let margin = margin::margin(film);
    let mut accepted = 0;
    for line in 1..=film.head.rows {
        accepted += propose_line(film, field, line, margin, proposal);
    }
    accepted
}

// What comes before the relaxations: with proposals on and a budget, each line is proposed once.
#[tactic(auto, using(crate::proofs::Proposals::ready_same))]
pub fn ready(film: &Film, field: &mut [u32], budget: u32, proposals: bool) -> u32
    requires { Accepted film.now × Bounded (rule film.now) field.old }
    ensures { Readies (readied film.now budget proposals field.old) result field.new }
{
    if budget == 0 || !proposals {
        return 0;
    }
    let columns = film.head.columns as usize;
    let mut proposal = [0u32; 32];
    propose_lines(film, field, &mut proposal[..columns])
}
