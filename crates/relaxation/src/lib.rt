// The relaxation of one cell, counted. Internal: the sweep calls it.
// The counter is lent to the relaxation step, which moves it on beside the field; `stepped` lends it from a local, so that callers pass values.
//
// Proved: the field and the counts are those of a relaxation to what the cell requires under the film's rule, read by index, and so under the
// film's own where the links that leave the grid are 0.
#![tactic(auto)]

ghost use Rattle.std.specs.Prelude.{◌<◌, length};
ghost use Rattle.monotone.specs.Sweep.{relax};
ghost use Rattle.pointwise.specs.Relaxation.{Room, Stepped, Relaxes};
ghost use Rattle.model.specs.Film.{size_of};
ghost use Rattle.model.specs.Relaxation.{required};
ghost use Rattle.grid.specs.Pull.{Aligned, Edges};
ghost use Rattle.relaxation.specs.Rule.{required_by};

use model::Film;
use pointwise::{After, Counter, Found};

// The relaxation step: the field is written, and the lent counter moves on.
fn relax_step(field: &mut [u32], at: usize, target: u64, ceiling: u32, c: &mut Counter) -> Found
    requires { (at < length field.old) × Room c.old }
    ensures { Stepped field.old at target (relax ceiling target 0) c.old (record { found = result; counter = c.new }) field.new }
{
    let found = pointwise::relax_at(field, at, target, ceiling);
    *c = pointwise::counted(*c, found);
    found
}

// The relaxation step with plain parameters: the counter is lent from a local.
pub fn stepped(field: &mut [u32], at: usize, target: u64, ceiling: u32, c: Counter) -> After
    requires { (at < length field.old) × Room c }
    ensures { Stepped field.old at target (relax ceiling target 0) c result field.new }
{
    let mut counter = c;
    let found = relax_step(field, at, target, ceiling, &mut counter);
    After { found, counter }
}

// The relaxation of a cell, counted.
pub fn relaxed(film: &Film, field: &mut [u32], at: usize, c: Counter) -> After
    requires aligned { Aligned film.now field.old }
    requires inside { (at < length field.old) × Room c }
    ensures by_index { Relaxes field.old at (required_by film.now field.old at) film.now.ceiling c result field.new }
    ensures own { Edges film.now → at < size_of film.now → Relaxes field.old at (required film.now field.old at) film.now.ceiling c result field.new }
{
    let pressure = field[at];
    let target = grid::cell_at(film, field, at).raise(pressure);
    stepped(field, at, target, film.head.ceiling, c)
}
