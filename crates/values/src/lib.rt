// The values of a field's body, tested where they stand in a film file. Internal: the test of a field calls these, once the whole body is there.
//
// Proved: what each finds is what crate `model` says of the numbers at that offset, at every offset of every file.
#![tactic(auto)]

ghost use Rattle.std.specs.Prelude.{◌≡◌, ◌+◌, ◌*◌, ◌≤◌, length};
ghost use Rattle.model.specs.Refusals.{check_of};
ghost use Rattle.model.specs.Checks.{shape_check, ceiling_check};
ghost use Rattle.model.specs.Bytes.{byte_at, word_at, long_at, signed_of};
ghost use Rattle.model.specs.File.{weights_from, thicknesses_from, wedge_check, factors_from, factors_at};

use fault::Fault;
use model::{Factors, Refusal};

// Refusal 4, of the two bytes at `at`.
pub fn shape_values(file: &[u8], at: usize) -> Result<(), Refusal>
    requires { at ≤ 6000000 }
    ensures { check_of result ≡ shape_check (byte_at file.now at) at (byte_at file.now (at + 1)) (at + 1) }
{
    let rows = words::numbers::byte_at(file, at) as u32;
    let columns = words::numbers::byte_at(file, at + 1) as u32;
    refusals::shape_test(rows, at, columns, at + 1)
}

// Refusal 5, of the number at `at`.
pub fn ceiling_values(file: &[u8], at: usize) -> Result<(), Refusal>
    requires { at ≤ 6000000 }
    ensures { check_of result ≡ ceiling_check (long_at file.now at) at }
{
    refusals::ceiling_test(words::numbers::long_at(file, at), at)
}

// Refusal 6, at the lowest of n weights from `at` on.
pub fn weight_values(file: &[u8], at: usize, n: usize) -> Result<(), Refusal>
    requires { (at + 2 * n ≤ length file.now) × (at ≤ 6000000) × (n ≤ 65025) }
    ensures { check_of result ≡ weights_from (λ i. word_at file.now (at + 2 * i)) n at }
{
    refusals::first::first_place(n, at, 2, Fault::ZeroWeight, |i| {
        let place = at + 2 * i;
        words::numbers::first_word(&file[place..]) == 0
    })
}

// Refusal 7, at the lowest of t thicknesses from `at` on.
pub fn thickness_values(file: &[u8], at: usize, t: usize) -> Result<(), Refusal>
    requires { (at + t ≤ length file.now) × (at + t ≤ 6000000) }
    ensures { check_of result ≡ thicknesses_from (λ j. byte_at file.now (at + j)) t at }
{
    let end = at + t;
    list_tests::thicknesses_test(&file[at..end], at)
}

// Refusal 8, of the number at `at`.
pub fn wedge_values(file: &[u8], at: usize) -> Result<(), Refusal>
    requires { at ≤ 6000000 }
    ensures { check_of result ≡ wedge_check (signed_of (long_at file.now at)) at }
{
    let wedge = words::numbers::signed(words::numbers::long_at(file, at));
    list_tests::wedge_test(wedge, at)
}

// The two steps at `at`.
pub fn factors_at(file: &[u8], at: usize) -> Factors
    requires { at ≤ 6000000 }
    ensures { result ≡ factors_at file.now at }
{
    Factors {
        along: words::numbers::byte_at(file, at) as u32,
        across: words::numbers::byte_at(file, at + 1) as u32,
    }
}

// Refusal 15, of these.
pub fn steps_values(file: &[u8], at: usize) -> Result<(), Refusal>
    requires { at ≤ 6000000 }
    ensures { check_of result ≡ factors_from (factors_at file.now at) at }
{
    step_tests::factors_test(factors_at(file, at), at)
}
