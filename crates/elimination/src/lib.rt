// Forwards along a line in binary64: each cell is loaded from the film, its step taken from what the cell before it handed on (crate `chain`), and
// kept for the way back. Internal: the estimate of a line calls it.
//
// Proved: each step is document 01's, and so is the line's end (crate `model`: Estimate).
#![tactic(auto)]

ghost use Rattle.std.specs.Prelude.{◌≡◌, ◌+◌, ◌-◌, ◌≤◌, ◌<◌, ◌^◌, length};
ghost use Rattle.model.specs.Film.{size_of};
ghost use Rattle.chain.specs.Line.{elimination_of, step_of};
ghost use Rattle.elimination.specs.Line.{Held, across_of, step_at, Eliminated};

use chain::{Elimination, Preceding};
use model::Film;

// What the rows below and above pull a cell by.
fn pull_across(film: &Film, field: &[u32], at: usize) -> u64
    requires { Held film.now field.now × (at < size_of film.now) }
    ensures { (result ≡ across_of film.now field.now at) × (result ≤ 2 ^ 52) }
{
    let columns = film.head.columns as usize;
    grid::pull_back(film.ups, field, at, columns) + grid::pull_ahead(film.ups, field, at, columns)
}

// The elimination step in a cell of the film. The first cell of all has none before it; its link to one is not used.
#[tactic(auto, using(crate::proofs::Cells::held_pull))]
fn step(film: &Film, field: &[u32], at: usize, preceding: Option<Preceding>) -> Elimination
    requires { Held film.now field.now × (at < size_of film.now) }
    ensures { elimination_of result ≡ step_at film.now field.now at (step_of preceding) }
{
    let cell = grid::cell_at(film, field, at);
    let across = pull_across(film, field, at);
    let m = f64::from(cell.diagonal);
    let b = float::from_i64(chain::right_side(cell.source, across));
    let k = f64::from(film.rights[at.saturating_sub(1)]);
    chain::eliminate(chain::active(cell, field[at]), m, b, k, preceding)
}

// Forwards along the row that begins at `start`: hands pivot and right side on from cell to cell, and keeps each cell's step. A broken step ends it, since nothing
// that follows can mend the line. Answers whether the line broke.
pub fn eliminate_line(film: &Film, field: &[u32], start: usize, steps: &mut [Elimination]) -> bool
    requires held { Held film.now field.now × (start + film.now.columns ≤ size_of film.now) }
    requires room { film.now.columns ≤ length steps.old }
    ensures { Eliminated film.now field.now start result steps.new }
{
    let columns = film.head.columns as usize;
    let mut preceding = None;
    for j in 0..columns {
        let here = step(film, field, start + j, preceding);
        if chain::is_broken(here) {
            return true;
        }
        preceding = chain::handed_on(here);
        steps[j] = here;
    }
    false
}
