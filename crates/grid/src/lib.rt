// A film's cells: a cell with its neighbours' pull, by index alone, and its slack. Internal: what relaxes, proposes,
// estimates or prints a cell loads it here.
//
// Links that leave the grid are 0 (refusal 14 sees to it), so the pull needs no rows and columns: the neighbours of cell i are
// i − 1, i + 1, i − C and i + C, as far as there are such cells. proofs/Neighbours shows that this is the sum over the
// neighbours inside the grid.
#![tactic(auto)]

ghost use Rattle.std.specs.Prelude.{◌≡◌, List, [], ℕ, ◌+◌, ◌-◌, ◌*◌, ◌≤◌, ◌<◌, ◌^◌, length, take};
ghost use Rattle.model.specs.Film.{weighted, size_of, slack};
ghost use Rattle.model.specs.Accepted.{Limited};
ghost use Rattle.grid.specs.Pull.{Links, back_of, ahead_of, Product, pull_by, Aligned, Loaded};

use cell::Cell;
use model::Film;

// The link to the cell that lies `step` before `at`, times that cell's number; 0 if there is none.
pub fn pull_back(links: &[u32], numbers: &[u32], at: usize, step: usize) -> u64
    requires { Links links.now numbers.now × (at < length numbers.now) }
    ensures { Product result (back_of links.now numbers.now at step) }
{
    if at < step {
        return 0;
    }
    let other = at - step;
    cell::product(links[other], numbers[other])
}

// The link to the cell that lies `step` after `at`, times that cell's number; 0 if there is none.
pub fn pull_ahead(links: &[u32], numbers: &[u32], at: usize, step: usize) -> u64
    requires links { Links links.now numbers.now × (at < length numbers.now) }
    requires step { step ≤ 2 ^ 32 }
    ensures { Product result (ahead_of links.now numbers.now at step) }
{
    let other = at + step;
    if numbers.len() <= other {
        return 0;
    }
    cell::product(links[at], numbers[other])
}

// The sum of link × neighbour's number.
pub fn pull_at(rights: &[u32], ups: &[u32], columns: usize, numbers: &[u32], at: usize) -> u64
    requires links { Links rights.now numbers.now × Links ups.now numbers.now }
    requires inside { (at < length numbers.now) × (columns ≤ 2 ^ 32) }
    ensures { (result ≡ pull_by columns rights.now ups.now numbers.now at) × (result ≤ 2 ^ 60) }
{
    pull_back(rights, numbers, at, 1)
        + pull_ahead(rights, numbers, at, 1)
        + (pull_back(ups, numbers, at, columns) + pull_ahead(ups, numbers, at, columns))
}

// A cell's diagonal, pull and source, with pressures or other numbers of the cells.
pub fn cell_at(film: &Film, numbers: &[u32], at: usize) -> Cell
    requires { Aligned film.now numbers.now × (at < length numbers.now) }
    ensures { Loaded result film.now numbers.now at }
{
    let columns = film.head.columns as usize;
    Cell {
        diagonal: film.diagonals[at],
        pull: pull_at(film.rights, film.ups, columns, numbers, at),
        source: film.sources[at],
    }
}

// The slack of a cell of a film that has passed its tests; its weights do not count.
pub fn slack_of(film: &Film, field: &[u32], at: usize) -> i64
    requires limited { (w : List ℕ) × Limited (weighted film.now w) }
    requires field { (length field.now ≡ size_of film.now) × (at < size_of film.now) }
    ensures { result ≡ slack film.now field.now at }
{
    let pressure = field[at];
    cell_at(film, field, at).slack(pressure)
}

// Copies weights into 32-bit numbers: the margin loads a cell with them and with ones by the function that takes pressures.
pub fn widen(weights: &[u16], numbers: &mut [u32])
    requires { length weights.now ≤ length numbers.old }
    ensures { take (length weights.now) numbers.new ≡ weights.now }
{
    for (i, weight) in weights.iter().enumerate() {
        numbers[i] = u32::from(*weight);
    }
}
