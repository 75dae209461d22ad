// Relaxations round and round by an ordering table, until a whole round of them was quiet or the budget is used.
// Internal: the public calls of Film test their inputs and call it.
//
// Proved: the answer, its counts and the field are those of the theory's sweep under the film's rule, read by index, and so under the film's
// own where the links that leave the grid are 0.
#![tactic(auto)]

ghost use Rattle.std.specs.Prelude.{◌≡◌, ◌<◌, length};
ghost use Rattle.model.specs.Film.{size_of, rule};
ghost use Rattle.grid.specs.Pull.{Aligned, Edges};
ghost use Rattle.pointwise.specs.Relaxation.{Room};
ghost use Rattle.relaxation.specs.Rule.{rule_by};
ghost use Rattle.sweep.specs.Sweep.{Listed, Advanced, Ends};

use model::Film;
use pointwise::{Counter, Step};

// How a sweep ends.
#[derive(Clone, Copy)]
pub enum Swept {
    Done(Counter),
    Stopped(Counter),
    Over(usize, Counter),
}

// The relaxation of the cell at a place of the table.
fn advance(film: &Film, table: &[u16], field: &mut [u32], place: usize, c: Counter) -> Step
    requires aligned { Aligned film.now field.old }
    requires listed { Listed table.now (length field.old) × ((place < length table.now) × Room c) }
    ensures { Advanced (rule_by (length table.now) film.now) table.now field.old place c result field.new }
{
    let at = table[place] as usize;
    let after = relaxation::relaxed(film, field, at, c);
    pointwise::judged(table.len(), at, after)
}

// At most as many relaxations as the budget allows, from the start of the table.
pub fn sweep(film: &Film, table: &[u16], field: &mut [u32], budget: u64) -> Swept
    requires aligned { Aligned film.now field.old }
    requires listed { Listed table.now (length field.old) × (0 < length field.old) }
    ensures by_index { Ends (rule_by (length table.now) film.now) table.now budget field.old result field.new }
    ensures own { Edges film.now → length field.old ≡ size_of film.now → Ends (rule film.now) table.now budget field.old result field.new }
{
    let mut place = 0;
    let mut counter = Counter {
        visits: 0,
        raises: 0,
        quiet: 0,
    };
    // A `for` would count the visits a second time.
    while counter.visits < budget {
        let step = advance(film, table, field, place, counter);
        place = pointwise::next_place(table.len(), place);
        match step {
            Step::On(c) => counter = c,
            Step::Done(c) => return Swept::Done(c),
            Step::Over(at, c) => return Swept::Over(at, c),
        }
    }
    Swept::Stopped(counter)
}
