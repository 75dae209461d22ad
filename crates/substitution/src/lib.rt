// Backwards along a line in binary64, from the steps that the elimination kept: the solution in each active cell, its whole part, and what
// is left of that below the margin. Internal: the estimate of a line calls it.
//
// Proved: the numbers are document 01's estimate of the line, float by float in the order of its text (crate `model`: Estimate).
#![tactic(auto)]

ghost use Rattle.std.specs.Prelude.{◌≡◌, ◌+◌, ◌-◌, ◌*◌, ◌≤◌, length};
ghost use Rattle.model.specs.Estimate.{substitute as substitute_of, whole_part};
ghost use Rattle.chain.specs.Line.{elimination_of};
ghost use Rattle.substitution.specs.Line.{solution_of, Substituted};

use chain::Elimination;
use model::Film;

// Backwards: the solution in a cell, if it is active, from its step, its link to the next cell and the next cell's solution.
#[tactic(auto, unfolding(model::specs::Estimate::substitute))]
fn substitute(here: Elimination, link: f64, next: Option<f64>) -> Option<f64>
    ensures { solution_of result ≡ substitute_of (elimination_of here) link (solution_of next) }
{
    match (here, next) {
        (Elimination::Pivot(g, h), None) => Some(h / g),
        (Elimination::Pivot(g, h), Some(p)) => Some((h + link * p) / g),
        _ => None,
    }
}

// The whole part of a solution; 0 in a cell that is not active.
#[tactic(auto, unfolding(model::specs::Estimate::whole_part))]
fn whole_part(solution: Option<f64>) -> u32
    ensures { result ≡ whole_part (solution_of solution) }
{
    match solution {
        None => 0,
        Some(p) => float::whole_part(p),
    }
}

// What is left of a number after K × weight is taken off, stopping at 0.
fn shaved(number: u32, margin: u32, weight: u16) -> u32
    ensures { result ≡ number - margin * weight }
{
    u64::from(number).saturating_sub(u64::from(margin) * u64::from(weight)) as u32
}

// Backwards along the row that begins at `start`, from its kept steps: writes what is proposed in each cell.
pub fn substitute_line(
    film: &Film,
    steps: &[Elimination],
    start: usize,
    margin: u32,
    proposal: &mut [u32],
)
    requires row { (start + length proposal.old ≤ length film.now.weights) × (start + length proposal.old ≤ length film.now.rights) }
    requires steps { length proposal.old ≤ length steps.now }
    ensures { Substituted film.now steps.now start margin proposal.new }
{
    let mut next = None;
    for j in (0..proposal.len()).rev() {
        let at = start + j;
        next = substitute(steps[j], f64::from(film.rights[at]), next);
        proposal[j] = shaved(whole_part(next), margin, film.weights[at]);
    }
}
