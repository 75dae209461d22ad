// The tests of lists of numbers, and those of a wedge number and of a cell's index: 6, 7, 8, 12 and 13. Internal: crates `checks`, `gauge`,
// `values` and `problem` put them into document 01's order. A place is the caller's to say, a cell or an offset.
//
// Proved: what each test finds, read as the model's check by `check_of`, equals the check that crate `model` defines; a list's test is a search
// for the lowest place (refusals/proofs/Search).
#![tactic(auto)]

ghost use Rattle.std.specs.Prelude.{◌≡◌, ◌+◌, ◌*◌, ◌≤◌, ltb, leb, eqb, nat_abs, length, get_or};
ghost use Rattle.model.specs.Limits.{thickness_limit, wedge_limit};
ghost use Rattle.model.specs.Refusals.{check_of, fail_if, fail_first};
ghost use Rattle.model.specs.Checks.{outside};
ghost use Rattle.model.specs.File.{wedge_check};

use fault::Fault;
use model::{Head, Refusal};

// The limits of model/specs/Limits.
const THICKNESS_LIMIT: u32 = 128;

const WEDGE_LIMIT: u32 = 1000000000;

// Refusal 6, at the lowest cell's place: the places begin at `from`, `step` apart.
pub fn weight_test(weights: &[u16], from: usize, step: usize) -> Result<(), Refusal>
    requires { from + step * length weights.now ≤ 1000000 }
    ensures { check_of result ≡ fail_first (λ i. eqb (get_or weights.now i 0) 0) (length weights.now) 6 (λ i. from + step * i) }
{
    refusals::first::first_place(weights.len(), from, step, Fault::ZeroWeight, |i| {
        weights[i] == 0
    })
}

// Whether a thickness is not from 1 to 128.
fn bad_thickness(thickness: u8) -> bool
    ensures { result ≡ outside thickness 1 thickness_limit }
{
    refusals::outside(thickness as u32, 1, THICKNESS_LIMIT)
}

// Refusal 7, at the lowest place: the thicknesses begin at offset `at`.
pub fn thicknesses_test(thicknesses: &[u8], at: usize) -> Result<(), Refusal>
    requires { at + length thicknesses.now ≤ 6000000 }
    ensures { check_of result ≡ fail_first (λ j. outside (get_or thicknesses.now j 0) 1 thickness_limit) (length thicknesses.now) 7 (λ j. at + j) }
{
    refusals::first::first_place(thicknesses.len(), at, 1, Fault::BadThickness, |i| {
        bad_thickness(thicknesses[i])
    })
}

// Whether a wedge number is too far from 0, either way.
fn far_wedge(wedge: i32) -> bool
    ensures { result ≡ ltb wedge_limit (nat_abs wedge) }
{
    WEDGE_LIMIT < wedge.unsigned_abs()
}

// Refusal 8.
pub fn wedge_test(wedge: i32, place: usize) -> Result<(), Refusal>
    ensures { check_of result ≡ wedge_check wedge place }
{
    refusals::fail_if(far_wedge(wedge), Fault::BadWedge, place)
}

// Refusal 12, at the lowest cell.
pub fn start_test(field: &[u32], ceiling: u32) -> Result<(), Refusal>
    ensures { check_of result ≡ fail_first (λ i. ltb ceiling (get_or field.now i 0)) (length field.now) 12 (λ i. i) }
{
    refusals::first::first_place(field.len(), 0, 1, Fault::StartAboveCeiling, |i| {
        ceiling < field[i]
    })
}

// Refusal 13, of a cell.
pub fn cell_test(head: Head, at: usize) -> Result<(), Refusal>
    ensures { check_of result ≡ fail_if (leb (head.rows * head.columns) at) 13 0 }
{
    let n = shape::area(head.rows, head.columns);
    refusals::fail_if(n <= at, Fault::OutOfGrid, 0)
}
