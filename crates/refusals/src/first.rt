// The search for the lowest place at which a test finds a fault: of a list's places, and of a grid's cells row by row, so that no cell needs
// a division for its row and column. The test is a closure of the caller's.
//
// Proved: for each `test` that the closure decides, what is found equals the check `fail_first test` that crate `model` defines.

ghost use Rattle.std.specs.Prelude.{◌≡◌, Bool, ℕ, ◌+◌, ◌*◌, ◌^◌, ◌<◌};
ghost use Rattle.fault.specs.Numbers.{number_of};
ghost use Rattle.model.specs.Refusals.{check_of, fail_first};
ghost use Rattle.refusals.specs.Tests.{Callable, Decides, CellsCallable, CellsDecides};

use fault::Fault;
use model::{Head, Refusal};

// A refusal at the lowest of n places, from `from` on and `step` apart, where `bad` answers true.
pub fn first_place<F: Fn(usize) -> bool>(
    n: usize,
    from: usize,
    step: usize,
    fault: Fault,
    bad: F,
) -> Result<(), Refusal>
    requires fits { from + step * n < 2 ^ 64 }
    requires callable { Callable n (F.pre bad) }
    ensures { (test : ℕ → Bool) → Decides n (F.post bad) test → check_of result ≡ fail_first test n (number_of fault) (λ i. from + step * i) }
{
    for i in 0..n {
        if bad(i) {
            return Err(Refusal {
                fault,
                place: from + step * i,
            });
        }
    }
    Ok(())
}

// A refusal at the lowest cell where `bad` answers true; rows and columns run from 1.
pub fn first_cell<F: Fn(usize, usize) -> bool>(
    head: Head,
    fault: Fault,
    bad: F,
) -> Result<(), Refusal>
    requires callable { CellsCallable head (F.pre bad) }
    ensures { (test : ℕ → Bool) → CellsDecides head (F.post bad) test → check_of result ≡ fail_first test (head.rows * head.columns) (number_of fault) (λ i. i) }
{
    let columns = head.columns as usize;
    for row in 0..head.rows as usize {
        for column in 0..columns {
            if bad(row + 1, column + 1) {
                return Err(Refusal {
                    fault,
                    place: row * columns + column,
                });
            }
        }
    }
    Ok(())
}
