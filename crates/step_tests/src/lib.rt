// The test of a film's grid steps: 15 (document 02, W2). Internal: crate `values` calls it where they stand in a file, crate `gauge` for a film's own.
//
// Proved: what each test finds, read as the model's check by `check_of`, equals the check that crate `model` defines. Where a film has no field for its
// steps, nothing is looked at.
#![tactic(auto)]

ghost use Rattle.std.specs.Prelude.{◌≡◌, ◌≤◌};
ghost use Rattle.model.specs.Refusals.{check_of};
ghost use Rattle.model.specs.File.{factors_from, steps_check};

use fault::Fault;
use model::{Factors, Refusal};

// The limit of model/specs/Limits.
const STEP_LIMIT: u32 = 4;

// Refusal 15, of two steps at an offset and the next.
pub fn factors_test(factors: Factors, at: usize) -> Result<(), Refusal>
    requires { at ≤ 6000000 }
    ensures { check_of result ≡ factors_from factors at }
{
    refusals::range_test(factors.along, 1, STEP_LIMIT, Fault::BadStep, at)?;
    refusals::range_test(factors.across, 1, STEP_LIMIT, Fault::BadStep, at + 1)
}

// The same, of a film's steps.
pub fn steps_test(steps: Option<Factors>, at: usize) -> Result<(), Refusal>
    requires { at ≤ 6000000 }
    ensures { check_of result ≡ steps_check steps at }
{
    match steps {
        None => Ok(()),
        Some(factors) => factors_test(factors, at),
    }
}
