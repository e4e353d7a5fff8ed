// Durations: the type, the lengths of its units, and a number of seconds as a duration.
ghost use Rattle.std.specs.Prelude.{◌≡◌, false, ◌+◌, ◌*◌, ◌^◌, ◌≤◌, ◌<◌, T};
ghost use Rattle.std.specs.Float.Ieee.{le, lt};
ghost use Rattle.std.specs.Float.Ieee.Exact.{HasValue};
ghost use Rattle.std.specs.Float.Ieee.Nearest.{closest};
ghost use Rattle.duration.specs.Spans.{is_zero, from_secs, duration_at, least_timed, two_to64};
ghost use Rattle.duration.specs.Unit.{nanos_a_second};

// A duration: seconds, and nanoseconds of which a second has less than a billion.
#[derive(Clone, Copy, PartialEq, Eq)]
pub struct Duration {
    pub secs: u64,
    pub nanos: u32,
}

// No time; the lengths of the seven units, in milliseconds; and how many nanoseconds a millisecond and a second have.
impl Duration {
    pub const ZERO: Self = Self { secs: 0, nanos: 0 };

    pub const MILLI: u64 = 1;

    pub const SECOND: u64 = 1000 * Self::MILLI;

    pub const MINUTE: u64 = 60 * Self::SECOND;

    pub const HOUR: u64 = 60 * Self::MINUTE;

    pub const DAY: u64 = 24 * Self::HOUR;

    pub const WEEK: u64 = 7 * Self::DAY;

    pub const YEAR: u64 = 365 * Self::DAY;

    pub const NANOS_A_MILLI: u64 = 1_000_000;

    pub const NANOS_A_SECOND: u64 = Self::SECOND * Self::NANOS_A_MILLI;
}

// Whether a duration is zero.
pub fn is_zero(duration: Duration) -> bool
    ensures { result ≡ is_zero duration }
{
    duration == Duration::ZERO
}

// A float by its digits: digits / 2 ^ shift.
#[derive(Clone, Copy)]
struct Dyadic {
    digits: u64,
    shift: u64,
}

// The unit of the high half of a product.
const HIGH_UNIT: u64 = 1 << 32;

// From this many seconds on there is no duration: 2^64.
const TWO_TO_64: f64 = 18446744073709551616.0;

// Below this many seconds there is less than half a nanosecond: 2^-31.
const LEAST_TIMED: f64 = 0.0000000004656612873077392578125;

// The bits of an f64 behind its exponent, the bit that stands before them unwritten, and how many they are.
const FRACTION: u64 = 0xf_ffff_ffff_ffff;

const LEADING: u64 = 0x10_0000_0000_0000;

const FRACTION_BITS: u64 = 52;

// How far the digits are moved up, and what an exponent is then counted from.
const MOVED: u64 = 11;

const EXPONENT_FROM: u64 = 1086;

// A power of two.
fn pow2(k: u64) -> u64
    requires { k < 64 }
    ensures { result ≡ 2 ^ k }
{
    1 << k
}

// a / b to the nearest whole number, a tie to the even one.
#[tactic(auto, using(crate::proofs::span::Round::below_half, crate::proofs::span::Round::above_half, crate::proofs::span::Round::at_half))]
fn closest_div(a: u64, b: u64) -> u64
    requires some { 0 < b }
    requires few { b ≤ 2 ^ 63 }
    ensures { result ≡ closest a b }
{
    let q = a / b;
    let r = a % b * 2;
    if r < b {
        return q;
    }
    if b < r {
        return q + 1;
    }
    q + q % 2
}

// f / 2 ^ k seconds, less than one, in nanoseconds.
fn nanos(f: u64, k: u64) -> u64
    requires proper { f < 2 ^ k }
    requires shift_fits { k ≤ 94 }
    ensures { result ≡ closest (f * nanos_a_second) (2 ^ k) }
{
    if f == 0 {
        return 0;
    }
    if k <= 32 {
        return closest_div(f * Duration::NANOS_A_SECOND, pow2(k));
    }
    // f * 10 ^ 9 is high * 2 ^ 32 + low, and of low only whether it is zero bears on the rounding; in 128 bits it has no halves, but takes longer
    let p = f % HIGH_UNIT * Duration::NANOS_A_SECOND;
    let high = f / HIGH_UNIT * Duration::NANOS_A_SECOND + p / HIGH_UNIT;
    let b = pow2(k - 31);
    if p % HIGH_UNIT == 0 {
        closest_div(high * 2, b)
    } else {
        closest_div(high * 2 + 1, b)
    }
}

// The digits and the exponent of x.
fn dyadic_of(x: f64) -> Dyadic
    requires timed { T (le least_timed x) }
    requires below { T (lt x two_to64) }
    ensures value { HasValue x false result.digits (2 ^ result.shift) }
    ensures shift_fits { result.shift ≤ 94 }
    ensures digits_fit { result.digits < 2 ^ 64 }
{
    let bits = f64::to_bits(x);
    Dyadic {
        digits: ((bits & FRACTION) + LEADING) << MOVED,
        shift: EXPONENT_FROM - (bits >> FRACTION_BITS),
    }
}

// A number of seconds, to the nearest nanosecond, a tie to the even one; none where it is negative, too great or no number.
pub fn from_secs_f64(x: f64) -> Option<Duration>
    ensures { result ≡ from_secs x }
{
    if x < TWO_TO_64 {
        if x >= LEAST_TIMED {
            let Dyadic { digits, shift } = dyadic_of(x);
            if 63 < shift {
                return Some(whole(0, nanos(digits, shift)));
            }
            let unit = pow2(shift);
            return Some(whole(digits / unit, nanos(digits % unit, shift)));
        }
        if x >= 0.0 {
            return Some(Duration::ZERO);
        }
    }
    None
}

// s seconds and n nanoseconds, of which there may be a whole second.
fn whole(s: u64, n: u64) -> Duration
    requires within_second { n ≤ nanos_a_second }
    requires fits { (n ≡ nanos_a_second → s + 1 < 2 ^ 64) }
    ensures { result ≡ duration_at (s * nanos_a_second + n) }
{
    if n == Duration::NANOS_A_SECOND {
        Duration {
            secs: s + 1,
            nanos: 0,
        }
    } else {
        Duration {
            secs: s,
            nanos: n as u32,
        }
    }
}
