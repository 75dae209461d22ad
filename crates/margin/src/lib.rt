// The margin K of a film (document 01, "A line offer", second paragraph): the program's own proposals stay K times the weight below what
// was worked out, so that rounding does not have them rejected. Internal: the public calls of Film test their inputs and call it.
//
// Proved: it is the least whole number that document 01 asks for (crate `model`: Margin), and does not depend on the sources (proofs/LeastMargin).
#![tactic(auto)]

ghost use Rattle.std.specs.Prelude.{◌≡◌, List, ◌≤◌, ◌<◌, ◌^◌, ℤ};
ghost use Rattle.monotone.specs.Linear.{required_of};
ghost use Rattle.model.specs.Film.{size_of};
ghost use Rattle.model.specs.Accepted.{Accepted};
ghost use Rattle.model.specs.Margin.{margin_at, margin as margin_of};
ghost use Rattle.margin.specs.Margin.{Ones};

use cell::Cell;
use model::Film;

// The least whole number k with dominance × k at least the inside links: their quotient, rounded up.
fn quotient_up(inside: u64, dominance: u64) -> u32
    requires { (inside < 2 ^ 32) × ((0 < dominance) × (dominance ≤ 2 ^ 63)) }
    ensures { result ≡ required_of dominance 0 inside }
{
    inside.div_ceil(dominance) as u32
}

// What a cell asks of the margin. Its inside links are the pull of ones; the film's weights come in 32 bits too, for the function that takes
// pressures.
fn margin_at(film: &Film, weights: &[u32], ones: &[u32], at: usize) -> u32
    requires accepted { ((s : List ℤ) × Accepted (record film.now { sources = s })) × (weights.now ≡ film.now.weights) }
    requires ones { Ones (size_of film.now) ones.now × (at < size_of film.now) }
    ensures { result ≡ margin_at film.now at }
{
    let columns = film.head.columns as usize;
    let inside = grid::pull_at(film.rights, film.ups, columns, ones, at);
    let cell = Cell {
        diagonal: film.diagonals[at],
        pull: grid::pull_at(film.rights, film.ups, columns, weights, at),
        source: 0,
    };
    quotient_up(inside, cell::positive_part(cell.slack(weights[at])))
}

// The greatest that a cell asks.
#[tactic(auto, using(model::proofs::Lists::greatest_more))]
fn greatest_margin(film: &Film, weights: &[u32], ones: &[u32]) -> u32
    requires accepted { ((s : List ℤ) × Accepted (record film.now { sources = s })) × (weights.now ≡ film.now.weights) }
    requires ones { Ones (size_of film.now) ones.now }
    ensures { result ≡ margin_of film.now }
{
    let mut margin = 0;
    for i in 0..weights.len() {
        margin = margin_at(film, weights, ones, i).max(margin);
    }
    margin
}

// The film's margin K: the least whole number with K × dominance at least the sum of inside links at every cell. It does
// not depend on the sources.
pub fn margin(film: &Film) -> u32
    requires { (s : List ℤ) × Accepted (record film.now { sources = s }) }
    ensures { result ≡ margin_of film.now }
{
    let n = film.weights.len();
    let ones = [1u32; 1024];
    let mut wide = [0u32; 1024];
    grid::widen(film.weights, &mut wide);
    greatest_margin(film, &wide[..n], &ones[..n])
}
