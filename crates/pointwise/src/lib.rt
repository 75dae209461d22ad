// A relaxation by its parts, on plain values and one lent field: the work on the field, the work on the counts, what is left to do after
// it, and the place that comes next. Internal: `relax` and the sweep are made of them.
//
// Proved: each part is the theory's (crate `monotone`): a relaxation by cases, its counts, and that a whole round of quiet ones ends.
#![tactic(auto)]

ghost use Rattle.std.specs.Prelude.{◌≡◌, ◌<◌, length};
ghost use Rattle.monotone.specs.Sweep.{relax, next};
ghost use Rattle.pointwise.specs.Relaxation.{Room, count_after, kind_of, judge_by, RelaxedAt};

// What a sweep has counted: relaxations, raises, and quiet relaxations since the last raise. Each has a machine word of its own, so that
// the loop keeps it in a register.
#[derive(Clone, Copy)]
pub struct Counter {
    pub visits: u64,
    pub raises: u64,
    pub quiet: usize,
}

// What one relaxation found.
#[derive(Clone, Copy)]
pub enum Found {
    Quiet,
    Raised,
    Over,
}

// What one relaxation found, and the counts after it.
#[derive(Clone, Copy)]
pub struct After {
    pub found: Found,
    pub counter: Counter,
}

// What one relaxation leaves to do.
#[derive(Clone, Copy)]
pub enum Step {
    On(Counter),
    Done(Counter),
    Over(usize, Counter),
}

// The place after one of n, round and round.
pub fn next_place(n: usize, place: usize) -> usize
    requires { place < n }
    ensures { result ≡ next n place }
{
    if place + 1 == n { 0 } else { place + 1 }
}

// The work on the field: the cell goes to its target if that is not above the ceiling. A quiet cell has the target 0.
pub fn relax_at(field: &mut [u32], at: usize, target: u64, ceiling: u32) -> Found
    requires { at < length field.old }
    ensures { RelaxedAt field.old at target (relax ceiling target 0) result field.new }
{
    if target == 0 {
        return Found::Quiet;
    }
    if (ceiling as u64) < target {
        return Found::Over;
    }
    field[at] = target as u32;
    Found::Raised
}

// The work on the counter.
pub fn counted(c: Counter, found: Found) -> Counter
    requires { Room c }
    ensures { result ≡ count_after (kind_of found) c }
{
    let visits = c.visits + 1;
    match found {
        Found::Quiet => Counter {
            visits,
            quiet: c.quiet + 1,
            ..c
        },
        Found::Raised => Counter {
            visits,
            raises: c.raises + 1,
            quiet: 0,
        },
        Found::Over => Counter { visits, ..c },
    }
}

// What a relaxation at a cell, counted, leaves to do: a whole round of n quiet ones ends the sweep.
pub fn judged(n: usize, at: usize, after: After) -> Step
    ensures { result ≡ judge_by (kind_of after.found) n at after.counter }
{
    let counter = after.counter;
    match after.found {
        Found::Quiet => {
            if counter.quiet == n {
                Step::Done(counter)
            } else {
                Step::On(counter)
            }
        }
        Found::Raised => Step::On(counter),
        Found::Over => Step::Over(at, counter),
    }
}
