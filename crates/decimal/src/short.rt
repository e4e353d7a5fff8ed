// Short decimal texts that begin with a digit, each read in one walk. What is long, has a sign or is a name is left to `read_decimal`.
ghost use Rattle.std.specs.Prelude.{◌≡◌, ◌^◌, ◌≤◌, ◌<◌, length};
ghost use Rattle.decimal.specs.Value.{most_told, most_exact, decimal_of};
ghost use Rattle.decimal.specs.steps.Short.{most_short, digits_from, Led, scaled_short, Tells};

use crate::{Decimal, MOST_EXPONENT};
use scan::{byte, sign};

// The most bytes of a short text: an f64 holds what its digits amount to.
const MOST_SHORT: usize = 15;

// Raised by this power of ten, a short text's digits are in the exact range, however many zeros they end with.
const MOST_RAISED: usize = MOST_EXPONENT - MOST_SHORT;

// What digits amount to, and where they end.
#[derive(Clone, Copy)]
struct Digits {
    value: u64,
    end: usize,
}

// What is told of a text in one walk: its value, that it is no decimal, or nothing.
#[derive(Clone, Copy)]
enum Short {
    Value(f64),
    NotDecimal,
    Untold,
}

// The digits from a place on, behind those that amount to `start`.
fn digits_from(s: &[u8], from: usize, start: u64) -> Digits
    requires { (from ≤ length s.now) × (length s.now ≤ most_short) × (start < 10 ^ from) }
    ensures { (result ≡ digits_from s.now from start) × (result.value < 10 ^ result.end) }
{
    let mut value = start;
    for end in from..s.len() {
        let c = s[end] as usize;
        if !byte::is_digit(c) {
            return Digits { value, end };
        }
        value = value * 10 + byte::digit_of(c) as u64;
    }
    Digits {
        value,
        end: s.len(),
    }
}

// The value of w times one power of ten over another, where it is exact for any zeros that w ends with.
fn scaled(w: u64, raised: usize, reduced: usize) -> Short
    requires { (w ≤ most_exact) × (raised ≤ most_told) × (reduced ≤ most_told) }
    ensures { result ≡ scaled_short w raised reduced }
{
    if reduced + MOST_RAISED < raised || raised + MOST_EXPONENT < reduced {
        return Short::Untold;
    }
    Short::Value(crate::magnitude(w, raised, reduced))
}

// What a text is whose digits amount to w and end before its last byte, by the exponent that stands there or not.
fn with_exponent(s: &[u8], at: usize, w: u64, behind: usize) -> Short
    requires { Led s.now at w behind × (at < length s.now) }
    ensures { Tells s.now result }
{
    if !crate::is_exponent(s, at) {
        return Short::NotDecimal;
    }
    let from = sign::past_sign(s, at + 1);
    let e = digits_from(s, from, 0);
    if e.end == from {
        return Short::NotDecimal;
    }
    if e.end != s.len() {
        return Short::NotDecimal;
    }
    let power = e.value as usize;
    if sign::is_minus(s, at + 1) {
        return scaled(w, 0, behind + power);
    }
    scaled(w, power, behind)
}

// What a text is, where it is short and begins with a digit.
fn read_short(s: &[u8]) -> Short
    ensures { Tells s.now result }
{
    if MOST_SHORT < s.len() {
        return Short::Untold;
    }
    let whole = digits_from(s, 0, 0);
    if whole.end == 0 {
        return Short::Untold;
    }
    let point = crate::past_point(s, whole.end);
    let all = digits_from(s, point, whole.value);
    let behind = all.end - point;
    if all.end == s.len() {
        return Short::Value(crate::magnitude(all.value, 0, behind));
    }
    with_exponent(s, all.end, all.value, behind)
}

// What a text is, as a decimal: a short one is read in one walk.
pub fn read_at_once(s: &[u8]) -> Decimal
    ensures { result ≡ decimal_of s.now }
{
    let r = read_short(s);
    match r {
        Short::Value(x) => Decimal::Exact(crate::plain(x)),
        Short::NotDecimal => Decimal::NotDecimal,
        Short::Untold => crate::read_decimal(s),
    }
}
