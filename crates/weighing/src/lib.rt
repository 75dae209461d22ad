// Weights found by the program (document 02, W5): relaxations from zero on a film's matrix, with source −1 in each cell under the greatest weight as
// ceiling. Internal: the readers call it where a file has no weights, before they write anything.
//
// Proved: what the search finds, weights or a refusal, is what crate `model` says of that run (`Searches`); its proofs/Weighing: found weights are the least
// whose weighted row sums are all at least 1, and 16 means that there are none up to 65,535.
#![tactic(auto)]

ghost use Rattle.std.specs.Prelude.{◌≡◌, List, [], ℕ, ◌*◌, ◌≤◌, pos, negsuc, length, get_or, replicate, Some};
ghost use Rattle.model.specs.Refusals.{check_of};
ghost use Rattle.model.specs.Gauge.{Stepped};
ghost use Rattle.model.specs.Film.{film_of};
ghost use Rattle.model.specs.Coefficients.{formed};
ghost use Rattle.model.specs.Accepted.{Limited};
ghost use Rattle.model.specs.FileCalls.{gauge_of, bare_of};
ghost use Rattle.model.specs.Run.{ran_of};
ghost use Rattle.model.specs.Weighing.{searched_check};
ghost use Rattle.forming.specs.Cell.{Ringed};
ghost use Rattle.weighing.specs.Searches.{Searchable, Searches};

use fault::Fault;
use model::{Factors, Film, Gauged, Head, Ran, Refusal};

// The greatest weight that a file can hold.
const WEIGHT_LIMIT: u32 = 65535;

// How many relaxations a search may take.
const BUDGET: u32 = 4000000;

// The numbers of a field, none above the greatest weight, as weights.
fn put_found(field: &[u32], weights: &mut [u16])
    requires { (length field.now ≡ length weights.old) × ((i : ℕ) → get_or field.now i 0 ≤ 65535) }
    ensures { weights.new ≡ field.now }
{
    for (i, number) in field.iter().enumerate() {
        weights[i] = *number as u16;
    }
}

// How a search ended, as a test: Done passes.
fn outcome(ran: Ran) -> Result<(), Refusal>
    ensures { check_of result ≡ searched_check (ran_of ran) }
{
    match ran {
        Ran::Done(_) => Ok(()),
        Ran::Over(cell, _) => Err(Refusal {
            fault: Fault::NoWeights,
            place: cell,
        }),
        Ran::Stopped(_) => Err(Refusal {
            fault: Fault::WeightsNotFound,
            place: 0,
        }),
    }
}

// The search from a field of zeros, with the sources that it has: weights are written where it is Done. What these are before does not count.
fn search_from(
    head: Head,
    diagonals: &[u32],
    rights: &[u32],
    ups: &[u32],
    sources: &[i64],
    field: &mut [u32],
    weights: &mut [u16],
) -> Result<(), Refusal>
    requires searchable { Searchable head diagonals.now rights.now ups.now × (length weights.old ≡ head.rows * head.columns) }
    requires zeros { (sources.now ≡ replicate (head.rows * head.columns) (negsuc 0)) × (field.old ≡ replicate (head.rows * head.columns) 0) }
    ensures { Searches (film_of head [] diagonals.now rights.now ups.now []) result weights.new }
{
    let film = Film {
        head: Head {
            rows: head.rows,
            columns: head.columns,
            ceiling: WEIGHT_LIMIT,
        },
        weights: &weights[..],
        diagonals,
        rights,
        ups,
        sources,
    };
    let ran = ordered_sweep::relaxations(&film, field, BUDGET, 0, 0);
    outcome(ran)?;
    put_found(&field[..], weights);
    Ok(())
}

// The search on a film's coefficients, which are within their limits. They come without weights, which are what is looked for.
pub fn search(
    head: Head,
    diagonals: &[u32],
    rights: &[u32],
    ups: &[u32],
    weights: &mut [u16],
) -> Result<(), Refusal>
    requires { Searchable head diagonals.now rights.now ups.now × (length weights.old ≡ head.rows * head.columns) }
    ensures { Searches (film_of head [] diagonals.now rights.now ups.now []) result weights.new }
{
    let n = weights.len();
    let sources = [-1i64; 1024];
    let mut field = [0u32; 1024];
    search_from(
        head,
        diagonals,
        rights,
        ups,
        &sources[..n],
        &mut field[..n],
        weights,
    )
}

// The same of a gauged film, whose coefficients are formed into tables of its own. Its wedge number does not count: the search has other sources.
pub fn search_gauged(
    head: Head,
    thicknesses: &[u8],
    factors: Factors,
    weights: &mut [u16],
) -> Result<(), Refusal>
    requires ringed { Ringed (bare_of head thicknesses.now) × Stepped factors × (length weights.old ≡ head.rows * head.columns) }
    requires limited { (w : List ℕ) × Limited (formed (gauge_of head w thicknesses.now (pos 0) (Some factors))) }
    ensures { Searches (formed (gauge_of head [] thicknesses.now (pos 0) (Some factors))) result weights.new }
{
    let n = weights.len();
    let mut diagonals = [0u32; 1024];
    let mut rights = [0u32; 1024];
    let mut ups = [0u32; 1024];
    let mut sources = [0i64; 1024];
    let film = Gauged {
        head,
        weights: &[],
        thicknesses,
        wedge: 0,
        steps: Some(factors),
    };
    forming::form(&film, &mut diagonals, &mut rights, &mut ups, &mut sources);
    search(head, &diagonals[..n], &rights[..n], &ups[..n], weights)
}
