// The relaxations of a run: a sweep by the table of the film's ordering, and its end as the run's answer, with the cells that proposals
// raised before it. Internal: `run` calls it.
//
// Proved: answer, counts and field are those of the film's own sweep in that ordering (crate `model`: Run).
#![tactic(auto)]

ghost use Rattle.std.specs.Prelude.{◌≡◌, List, ℕ, ◌^◌, ◌<◌, length};
ghost use Rattle.monotone.specs.Sweep.{begin, sweep as sweep_of};
ghost use Rattle.model.specs.Film.{weighted, size_of, rule};
ghost use Rattle.model.specs.Accepted.{Limited};
ghost use Rattle.model.specs.Result.{Gives};
ghost use Rattle.model.specs.Run.{ran_of, end_of, ended, ordering};
ghost use Rattle.sweep.specs.Sweep.{answer_of, counter_of};
ghost use Rattle.ordered_sweep.specs.Counts.{counts_in};

use model::{Counts, Film, Ran};
use pointwise::Counter;
use sweep::Swept;

fn counts(counter: Counter, accepted: u32) -> Counts
    requires { (counter.visits < 2 ^ 32) × (counter.raises < 2 ^ 32) }
    ensures { result ≡ counts_in counter accepted }
{
    Counts {
        visits: counter.visits as u32,
        raises: counter.raises as u32,
        accepted,
    }
}

// How a sweep ended, as the run answers it.
fn as_answer(swept: Swept, accepted: u32) -> Ran
    requires { ((counter_of swept).visits < 2 ^ 32) × ((counter_of swept).raises < 2 ^ 32) }
    ensures { ran_of result ≡ end_of (answer_of swept) (counts_in (counter_of swept) accepted) }
{
    match swept {
        Swept::Done(c) => Ran::Done(counts(c, accepted)),
        Swept::Stopped(c) => Ran::Stopped(counts(c, accepted)),
        Swept::Over(at, c) => Ran::Over(at, counts(c, accepted)),
    }
}

// The relaxations of a run, from a field that proposals have readied. The film's weights do not count.
pub fn relaxations(film: &Film, field: &mut [u32], budget: u32, order: u32, accepted: u32) -> Ran
    requires limited { (w : List ℕ) × Limited (weighted film.now w) }
    requires field { length field.old ≡ size_of film.now }
    ensures { Gives (ended (sweep_of (rule film.now) (ordering film.now order) budget (begin field.old)) accepted) (ran_of result) field.new }
{
    let n = field.len();
    let columns = film.head.columns as usize;
    let mut table = [0u16; 1024];
    order::fill_order(order, columns, n, &mut table);
    as_answer(
        sweep::sweep(film, &table[..n], field, budget as u64),
        accepted,
    )
}
