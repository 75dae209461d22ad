// The steps between whole numbers and binary64 that the estimate of a line takes. The promises cite lib.Ieee, the logic's
// account of IEEE 754, and the crate `model`'s Estimate.
#![tactic(auto)]

ghost use Rattle.std.specs.Prelude.{◌≡◌, ◌≤◌, ◌^◌};
ghost use Rattle.std.specs.Float.{binary64};
ghost use Rattle.std.specs.Float.Ieee.{of_int, lt};
ghost use Rattle.model.specs.Integers.{positive_part, negative_part};
ghost use Rattle.model.specs.Estimate.{float_of, value, whole_part};

use std::num::saturating_f64_to_u32;

// Whether a pivot is above 0: not where it is NaN.
pub fn positive(g: f64) -> bool
    ensures { result ≡ lt (float_of 0) g }
{
    0.0 < g
}

// A right side as a float, exactly: it lies within 2 ^ 53 either way from 0, where every whole number is a float.
pub fn from_i64(n: i64) -> f64
    requires { (positive_part n ≤ 2 ^ 53) × (negative_part n ≤ 2 ^ 53) }
    ensures { result ≡ of_int binary64 n }
{
    n as f64
}

// The whole part of a solution: the greatest whole number not above it where it lies from 0 to 33,554,432, and 0
// elsewhere, at NaN and the infinities too.
pub fn whole_part(x: f64) -> u32
    ensures { result ≡ whole_part (value x) }
{
    if 0.0 <= x && x <= 33554432.0 {
        saturating_f64_to_u32(x)
    } else {
        0
    }
}
