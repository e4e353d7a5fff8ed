// Decimal texts, by the grammar of Rust's f64, and their values where these are exact; the number that every reader of numbers answers with.
#![tactic(auto)]

pub mod short;
mod tens;

ghost use Rattle.std.specs.Prelude.{false, ◌&&◌, ◌||◌, ◌≡◌, suc, ◌+◌, ◌≤◌, min, map, pos, length};
ghost use Rattle.std.specs.Float.{fin, inf, nan};
ghost use Rattle.scan.specs.Ascii.{ascii};
ghost use Rattle.scan.specs.Byte.{lowered};
ghost use Rattle.scan.specs.Text.{same_text};
ghost use Rattle.scan.specs.Sign.{is_minus};
ghost use Rattle.scan.specs.Digits.{value_from, value_of};
ghost use Rattle.decimal.specs.Grammar.{past_point, is_exponent, past_exponent, between, parts_of, has_digits, exponent_has_digits, is_numeral, digits_of, exponent_of};
ghost use Rattle.decimal.specs.Value.{bits_of, radix_of, most_told, most_exact, most_exponent, decimal_limit, plain, numeral_read, decimal_of};
ghost use Rattle.decimal.specs.steps.Scale.{trailing, significand, is_exact, nearest, scaled_by};

use scan::byte::Class;
use scan::{byte, sign};

// How a number was written.
#[derive(Clone, Copy)]
pub enum Notation {
    Decimal,
    Hex,
    Octal,
}

// A number: its value, and how it was written.
#[derive(Clone, Copy)]
pub struct Number {
    pub value: f64,
    pub notation: Notation,
}

// What a text is: no decimal; infinity or NaN by name; a decimal in the exact range, or a negative or positive one outside it.
#[derive(Clone, Copy)]
pub enum Decimal {
    NotDecimal,
    Named(Number),
    Exact(Number),
    Outside(bool),
}

// A number in decimal notation.
fn plain(value: f64) -> Number
    ensures { result ≡ plain value }
{
    Number {
        value,
        notation: Notation::Decimal,
    }
}

// Document 01's refusal of a decimal outside the exact range.
pub const OUTSIDE_EXACT: usize = 53;

// The bits of every NaN.
const NAN_BITS: u64 = 0x7ff8_0000_0000_0000;

// The bits of a value, as they are shown.
pub fn bits_of(value: f64) -> u64
    ensures { result ≡ bits_of value }
{
    if value != value {
        return NAN_BITS;
    }
    f64::to_bits(value)
}

// Where the digits of a text's parts begin and end.
#[derive(Clone, Copy)]
struct Parts {
    whole_from: usize,
    whole_to: usize,
    fraction_from: usize,
    fraction_to: usize,
    exponent_from: usize,
    exponent_to: usize,
}

// The place past a point, where one stands.
fn past_point(s: &[u8], at: usize) -> usize
    requires { at ≤ length s.now }
    ensures { result ≡ past_point s.now at }
{
    if byte::peek(s, at) == b'.' as usize {
        at + 1
    } else {
        at
    }
}

// Whether an exponent begins at a place.
fn is_exponent(s: &[u8], at: usize) -> bool
    ensures { result ≡ is_exponent s.now at }
{
    byte::lowered(byte::peek(s, at)) == b'e' as usize
}

// The place past an `e` and its sign, where it stands.
fn past_exponent(s: &[u8], at: usize) -> usize
    ensures { result ≡ past_exponent s.now at }
{
    if is_exponent(s, at) {
        return sign::past_sign(s, at + 1);
    }
    at
}

// Where the parts of a text lie.
fn parts_of(s: &[u8]) -> Parts
    ensures { result ≡ parts_of s.now }
{
    let whole_from = sign::past_sign(s, 0);
    let whole_to = scan::run_end(Class::Digit, s, whole_from);
    let fraction_from = past_point(s, whole_to);
    let fraction_to = scan::run_end(Class::Digit, s, fraction_from);
    let exponent_from = past_exponent(s, fraction_to);
    let exponent_to = scan::run_end(Class::Digit, s, exponent_from);
    Parts {
        whole_from,
        whole_to,
        fraction_from,
        fraction_to,
        exponent_from,
        exponent_to,
    }
}

// Whether there are digits before the point or behind it.
#[tactic(auto, unfolding(crate::specs::Grammar::has_digits))]
fn has_digits(p: Parts) -> bool
    ensures { result ≡ has_digits p }
{
    p.whole_from < p.whole_to || p.fraction_from < p.fraction_to
}

// Whether an exponent has digits, where there is one.
#[tactic(auto, unfolding(crate::specs::Grammar::exponent_has_digits))]
fn exponent_has_digits(s: &[u8], p: Parts) -> bool
    ensures { result ≡ exponent_has_digits s.now p }
{
    !is_exponent(s, p.fraction_to) || p.exponent_from < p.exponent_to
}

// What `digits_value` answers for this and every greater value: no magnitude of a signed 64-bit integer is so great.
pub const MOST_TOLD: u64 = 0x8000_0000_0000_0001;

// How many digits a notation has.
pub fn radix(notation: Notation) -> usize
    ensures { result ≡ radix_of notation }
{
    match notation {
        Notation::Decimal => 10,
        Notation::Hex => 16,
        Notation::Octal => 8,
    }
}

// What digits of a notation amount to behind those that amount to `start`, or the most that is told apart.
pub fn digits_value(start: u64, notation: Notation, digits: &[u8]) -> u64
    ensures { result ≡ min most_told (value_from (radix_of notation) start digits.now) }
{
    let radix = radix(notation) as u64;
    let last = MOST_TOLD / radix;
    let mut value = start;
    for digit in digits {
        if last < value {
            return MOST_TOLD;
        }
        value = value * radix + byte::digit_of(*digit as usize) as u64;
    }
    value.min(MOST_TOLD)
}

// What the decimal digits between two offsets amount to behind those that amount to `start`, or the most that is told apart.
fn value_between(s: &[u8], from: usize, to: usize, start: u64) -> u64
    requires { (from ≤ to) × (to ≤ length s.now) }
    ensures { result ≡ min most_told (value_from 10 start (between s.now from to)) }
{
    digits_value(start, Notation::Decimal, &s[from..to])
}

// How many zeros digits end with.
fn zeros_at_end(digits: &[u8]) -> usize
    ensures value { result ≡ trailing digits.now }
    ensures within { result ≤ length digits.now }
{
    digits
        .iter()
        .rev()
        .take_while(|c| byte::digit_of(**c as usize) == 0)
        .count()
}

// 2^53: an f64 holds every whole number up to it.
const MOST_EXACT: u64 = 0x20_0000_0000_0000;

// An f64 holds every power of ten up to this one.
const MOST_EXPONENT: usize = 22;

// The f64 nearest to w times one power of ten over another, of which neither is more than 10 ^ 22 times the other: one rounded
// multiplication or division of two exact values.
fn magnitude(w: u64, raised: usize, reduced: usize) -> f64
    requires { (w ≤ most_exact) × (raised ≤ reduced + most_exponent) × (reduced ≤ raised + most_exponent) }
    ensures { result ≡ nearest false w raised reduced }
{
    if reduced <= raised {
        return w as f64 * tens::power(raised - reduced);
    }
    w as f64 / tens::power(reduced - raised)
}

// The same with a sign.
fn nearest(negative: bool, w: u64, raised: usize, reduced: usize) -> f64
    requires { (w ≤ most_exact) × (raised ≤ reduced + most_exponent) × (reduced ≤ raised + most_exponent) }
    ensures { result ≡ nearest negative w raised reduced }
{
    let r = magnitude(w, raised, reduced);
    if negative { -r } else { r }
}

// A zero, which keeps its sign.
fn zero(negative: bool) -> f64
    ensures { result ≡ fin negative 0 (pos 0) }
{
    if negative { -0.0 } else { 0.0 }
}

// Whether w times one power of ten over another is exact.
#[tactic(auto, unfolding(crate::specs::steps::Scale::is_exact))]
fn is_exact(w: u64, raised: usize, reduced: usize) -> bool
    requires { (raised ≤ most_told + decimal_limit) × (reduced ≤ most_told + decimal_limit) }
    ensures { result ≡ is_exact w raised reduced }
{
    w <= MOST_EXACT && raised <= reduced + MOST_EXPONENT && reduced <= raised + MOST_EXPONENT
}

// The value of w times one power of ten over another, where it is exact.
#[tactic(auto, unfolding(crate::specs::steps::Scale::scaled_by))]
fn scaled_by(negative: bool, w: u64, raised: usize, reduced: usize) -> Decimal
    requires { (raised ≤ most_told + decimal_limit) × (reduced ≤ most_told + decimal_limit) }
    ensures { result ≡ scaled_by negative w raised reduced }
{
    if w == 0 {
        return Decimal::Exact(plain(zero(negative)));
    }
    if !is_exact(w, raised, reduced) {
        return Decimal::Outside(negative);
    }
    Decimal::Exact(plain(nearest(negative, w, raised, reduced)))
}

// Whether a negative exponent begins at a place.
fn is_negative_exponent(s: &[u8], at: usize) -> bool
    requires { at ≤ decimal_limit }
    ensures { result ≡ is_exponent s.now at && is_minus s.now (suc at) }
{
    is_exponent(s, at) && sign::is_minus(s, at + 1)
}

// A text, and where its parts lie.
#[derive(Clone, Copy)]
struct Split<'a> {
    text: &'a [u8],
    parts: Parts,
    ghost lies: { parts ≡ parts_of text.now },
}

impl<'a> Split<'a> {
    // Finds the parts of a text.
    fn new(text: &'a [u8]) -> Self
        ensures { result.text.now ≡ text.now }
    {
        Split {
            text,
            parts: parts_of(text),
        }
    }

    // Whether the text is digits with a point and an exponent, and nothing else.
    #[tactic(auto, unfolding(crate::specs::Grammar::is_numeral))]
    fn is_numeral(self) -> bool
        ensures { result ≡ is_numeral self.entry.text.now }
    {
        let p = self.parts;
        has_digits(p) && exponent_has_digits(self.text, p) && p.exponent_to == self.text.len()
    }

    // How many zeros the digits end with.
    fn trailing_zeros(self) -> usize
        ensures { result ≡ trailing (digits_of self.entry.text.now) }
    {
        let p = self.parts;
        let zeros = zeros_at_end(&self.text[p.fraction_from..p.fraction_to]);
        if zeros == p.fraction_to - p.fraction_from {
            return zeros + zeros_at_end(&self.text[p.whole_from..p.whole_to]);
        }
        zeros
    }

    // What the digits amount to without the zeros that they end with, or the most that is told apart.
    fn significand(self, zeros: usize) -> u64
        requires { zeros ≡ trailing (digits_of self.text.now) }
        ensures { result ≡ min most_told (significand self.entry.text.now) }
    {
        let p = self.parts;
        let behind = p.fraction_to - p.fraction_from;
        if behind <= zeros {
            return value_between(self.text, p.whole_from, p.whole_to - (zeros - behind), 0);
        }
        let whole = value_between(self.text, p.whole_from, p.whole_to, 0);
        value_between(self.text, p.fraction_from, p.fraction_to - zeros, whole)
    }

    // What the exponent amounts to, or the most that is told apart.
    fn exponent(self) -> usize
        ensures { result ≡ min most_told (value_of 10 (exponent_of self.entry.text.now)) }
    {
        value_between(
            self.text,
            self.parts.exponent_from,
            self.parts.exponent_to,
            0,
        ) as usize
    }

    // The value of a numeral.
    fn numeral(self) -> Decimal
        requires { length self.text.now ≤ decimal_limit }
        ensures { result ≡ numeral_read self.entry.text.now }
    {
        let p = self.parts;
        let zeros = self.trailing_zeros();
        let w = self.significand(zeros);
        let e = self.exponent();
        let behind = p.fraction_to - p.fraction_from;
        let negative = sign::is_minus(self.text, 0);
        if is_negative_exponent(self.text, p.fraction_to) {
            return scaled_by(negative, w, zeros, behind + e);
        }
        scaled_by(negative, w, zeros + e, behind)
    }
}

// Whether a word is infinity's name.
fn is_infinite(word: &[u8]) -> bool
    ensures { result ≡ same_text (map lowered word.now) (ascii "inf") || same_text (map lowered word.now) (ascii "infinity") }
{
    word.eq_ignore_ascii_case(b"inf") || word.eq_ignore_ascii_case(b"infinity")
}

// Whether a word is the name of what is no number.
fn is_nan(word: &[u8]) -> bool
    ensures { result ≡ same_text (map lowered word.now) (ascii "nan") }
{
    word.eq_ignore_ascii_case(b"nan")
}

// Infinity, with its sign.
fn infinite(negative: bool) -> f64
    ensures { result ≡ inf negative }
{
    if negative { -1.0 / 0.0 } else { 1.0 / 0.0 }
}

// The one NaN.
fn not_a_number() -> f64
    ensures { result ≡ nan }
{
    0.0 / 0.0
}

// What a text is that is no numeral: infinity or NaN by name, or no decimal.
fn named(s: &[u8]) -> Decimal
    requires { (length s.now ≤ decimal_limit) × (is_numeral s.now ≡ false) }
    ensures { result ≡ decimal_of s.now }
{
    let from = sign::past_sign(s, 0);
    let word = &s[from..];
    if is_infinite(word) {
        return Decimal::Named(plain(infinite(sign::is_minus(s, 0))));
    }
    if is_nan(word) {
        return Decimal::Named(plain(not_a_number()));
    }
    Decimal::NotDecimal
}

// Document 01's limit of a duration or number text, in bytes.
pub const LIMIT: usize = 256;

// What a text is, as a decimal.
pub fn read_decimal(s: &[u8]) -> Decimal
    ensures { result ≡ decimal_of s.now }
{
    if LIMIT < s.len() {
        return Decimal::NotDecimal;
    }
    let split = Split::new(s);
    if split.is_numeral() {
        return split.numeral();
    }
    named(s)
}
