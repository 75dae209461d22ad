// How a refusal is made, and the tests of single numbers: shape, ceiling, lengths, ordering and line. Internal:
// crates `checks`, `gauge` and `values` put them into document 01's order, for calls that take coefficients, for a film's numbers and for
// files. A place is the caller's to say: 0, a cell or an offset.
//
// Proved: what each test finds, read as the model's check by `check_of`, equals the check that crate `model` defines. proofs/Search has
// the search for the lowest place, and proofs/Chain how a call goes on behind a test.
#![tactic(auto)]

ghost use Rattle.std.specs.Prelude.{◌≡◌, not};
ghost use Rattle.fault.specs.Numbers.{number_of};
ghost use Rattle.model.specs.Refusals.{check_of, fail_if, ◌or_else◌};
ghost use Rattle.model.specs.Checks.{outside as outside_of, shape_check, ceiling_check, order_check};

use fault::Fault;
use model::{Head, Refusal};

pub mod first; // first.rt: the lowest place, or cell, at which a test finds a fault

// The limits of model/specs/Limits.
const SIDE_LIMIT: u32 = 32;

const CEILING_LIMIT: u32 = 16777216;

// Whether a number is not from low to high.
pub fn outside(x: u32, low: u32, high: u32) -> bool
    ensures { result ≡ outside_of x low high }
{
    (x < low) | (high < x)
}

// A refusal, if something is bad.
pub fn fail_if(bad: bool, fault: Fault, place: usize) -> Result<(), Refusal>
    ensures { check_of result ≡ fail_if bad (number_of fault) place }
{
    if bad {
        return Err(Refusal { fault, place });
    }
    Ok(())
}

// Refusal 11.
pub fn order_test(order: u32) -> Result<(), Refusal>
    ensures { check_of result ≡ order_check order }
{
    fail_if(2 < order, Fault::BadOrder, 0)
}

// A refusal, if a number is not from low to high.
pub fn range_test(x: u32, low: u32, high: u32, fault: Fault, place: usize) -> Result<(), Refusal>
    ensures { check_of result ≡ fail_if (outside_of x low high) (number_of fault) place }
{
    fail_if(outside(x, low, high), fault, place)
}

// Refusal 4, at the place of each number.
pub fn shape_test(rows: u32, rows_at: usize, columns: u32, columns_at: usize) -> Result<(), Refusal>
    ensures { check_of result ≡ shape_check rows rows_at columns columns_at }
{
    range_test(rows, 1, SIDE_LIMIT, Fault::BadShape, rows_at)?;
    range_test(columns, 1, SIDE_LIMIT, Fault::BadShape, columns_at)
}

// Refusal 5.
pub fn ceiling_test(ceiling: u32, at: usize) -> Result<(), Refusal>
    ensures { check_of result ≡ ceiling_check ceiling at }
{
    range_test(ceiling, 1, CEILING_LIMIT, Fault::BadCeiling, at)
}

// Refusal 13, of a line.
pub fn line_test(head: Head, line: u32) -> Result<(), Refusal>
    ensures { check_of result ≡ fail_if (outside_of line 1 head.rows) 13 0 }
{
    range_test(line, 1, head.rows, Fault::OutOfGrid, 0)
}

// Refusals 4, 5 and 10: the shape, the ceiling, and whether the lent slices have their lengths.
pub fn size_test(head: Head, fits: bool) -> Result<(), Refusal>
    ensures { check_of result ≡ (shape_check head.rows 0 head.columns 0 or_else ceiling_check head.ceiling 0 or_else fail_if (not fits) 10 0) }
{
    shape_test(head.rows, 0, head.columns, 0)?;
    ceiling_test(head.ceiling, 0)?;
    fail_if(!fits, Fault::WrongBuffer, 0)
}
