// 10 ^ 0 to 10 ^ 22, each of which an `f64` holds exactly.
ghost use Rattle.std.specs.Prelude.{◌≡◌, ◌≤◌};
ghost use Rattle.decimal.specs.Value.{most_exponent};
ghost use Rattle.decimal.specs.steps.Scale.{ten_to};

use crate::MOST_EXPONENT;

static TENS: [f64; MOST_EXPONENT + 1] = [
    1.0,
    10.0,
    100.0,
    1000.0,
    10000.0,
    100000.0,
    1000000.0,
    10000000.0,
    100000000.0,
    1000000000.0,
    1e10,
    1e11,
    1e12,
    1e13,
    1e14,
    1e15,
    1e16,
    1e17,
    1e18,
    1e19,
    1e20,
    1e21,
    1e22,
];

// A power of ten.
pub(super) fn power(e: usize) -> f64
    requires { e ≤ most_exponent }
    ensures { result ≡ ten_to e }
{
    TENS[e]
}
