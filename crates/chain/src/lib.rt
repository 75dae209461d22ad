// One elimination step along a chain of active cells in binary64, on plain values: whether a cell is active, its right side, its pivot and
// right side from those of the cell before it (Thomas algorithm). Internal: the elimination of a line calls it, and the way back goes over
// its steps.
//
// Proved: each step is document 01's, float by float in the order of its text (crate `model`: Estimate).
#![tactic(auto)]

ghost use Rattle.std.specs.Prelude.{◌≡◌, true, false, ◌||◌, ◌≤◌, ◌^◌, ltb, pos, neg_ℤ, ◌+ℤ◌, nat_abs};
ghost use Rattle.model.specs.Integers.{negative};
ghost use Rattle.model.specs.Film.{slack_of};
ghost use Rattle.model.specs.Estimate.{idle, pivot_if, eliminate as eliminate_of, is_broken};
ghost use Rattle.cell.specs.Cell.{Bounded as CellBounded};
ghost use Rattle.chain.specs.Line.{elimination_of, step_of};

use cell::Cell;

// What an elimination step yields: the cell is not active, its pivot and right side, or the pivot is not above 0.
#[derive(Clone, Copy)]
pub enum Elimination {
    Idle,
    Pivot(f64, f64),
    Broken,
}

// Pivot and right side of the cell before (g' and h' of document 01), handed along the chain of active cells.
#[derive(Clone, Copy)]
pub struct Preceding {
    pub g: f64,
    pub h: f64,
}

// Whether a cell is active: its pressure is above 0, or its slack is negative.
pub fn active(cell: Cell, pressure: u32) -> bool
    requires { CellBounded cell }
    ensures { result ≡ (ltb 0 pressure || negative (slack_of cell.diagonal cell.pull cell.source pressure)) }
{
    0 < pressure || cell.slack(pressure) < 0
}

// b, the exact −source + link × pressure over the rows below and above.
pub fn right_side(source: i64, across: u64) -> i64
    requires { (nat_abs source ≤ 2 ^ 52) × (across ≤ 2 ^ 52) }
    ensures { result ≡ neg_ℤ source +ℤ pos across }
{
    across as i64 - source
}

// Pivot and right side; broken, where the pivot is not above 0.
fn pivot_if(g: f64, h: f64) -> Elimination
    ensures { elimination_of result ≡ pivot_if g h }
{
    if float::positive(g) {
        Elimination::Pivot(g, h)
    } else {
        Elimination::Broken
    }
}

// The step in a cell, from what the cell before it handed on: m its diagonal, b its right side, k its link to the cell before. A cell that is not
// active ends the chain, an active one that none precedes begins one.
#[tactic(auto, unfolding(model::specs::Estimate::eliminate))]
pub fn eliminate(active: bool, m: f64, b: f64, k: f64, preceding: Option<Preceding>) -> Elimination
    ensures { elimination_of result ≡ eliminate_of active m b k (step_of preceding) }
{
    match preceding {
        _ if !active => Elimination::Idle,
        None => pivot_if(m, b),
        Some(Preceding { g, h }) => pivot_if(m - k * (k / g), b + k * (h / g)),
    }
}

// What a step hands on to the next cell: pivot and right side, where it has them; a broken one hands on nothing.
pub fn handed_on(here: Elimination) -> Option<Preceding>
    ensures whole { is_broken (elimination_of here) ≡ false → step_of result ≡ elimination_of here }
    ensures broken { is_broken (elimination_of here) ≡ true → step_of result ≡ idle }
{
    match here {
        Elimination::Pivot(g, h) => Some(Preceding { g, h }),
        _ => None,
    }
}

// Whether a step broke the line.
pub fn is_broken(here: Elimination) -> bool
    ensures { result ≡ is_broken (elimination_of here) }
{
    matches!(here, Elimination::Broken)
}
