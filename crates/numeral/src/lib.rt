// Numbers and durations in a query: where the one or the other ends that bytes begin with. What it says is read by `number`, and by
// `duration`.
#![tactic(auto)]

ghost use Rattle.std.specs.Prelude.{◌≡◌, ◌≤◌, length, drop};
ghost use Rattle.numeral.specs.Numeral.{between_digits, behind_prefix, is_hex, fraction_end, exponent_end, mantissa_end, number_end, is_first_unit, is_unit, stop_of, turn_of, duration_from, taken, numeral_of};

use scan::byte::Class;
use scan::separated::Separators;
use scan::{byte, separated, sign};
use utf8::Reading;

// What bytes begin with: a number or a duration of so many bytes, or neither, where so many were taken.
// A Result in its place would be no plainer: `taken` counts the bytes of all three alike.
#[derive(Clone, Copy)]
pub enum Numeral {
    Number(usize),
    Duration(usize),
    Neither(usize),
}

// How many bytes are taken.
pub fn taken(n: Numeral) -> usize
    ensures { result ≡ taken n }
{
    match n {
        Numeral::Number(size) | Numeral::Duration(size) | Numeral::Neither(size) => size,
    }
}

// What a duration was read through to: a unit, a unit and an s, or digits.
#[derive(Clone, Copy)]
pub enum Part {
    Unit,
    UnitS,
    Digits,
}

// What a byte does to a duration: it goes on with it, or stands behind its end, or is not to stand there.
#[derive(Clone, Copy)]
pub enum Turn {
    On(Part),
    Ends,
    Fails,
}

// Where separators stand in digits, as a reading has it.
pub fn between_digits(reading: Reading) -> Separators
    ensures { result ≡ between_digits reading }
{
    match reading {
        Reading::Crate => Separators::Never,
        Reading::Documented => Separators::Between,
    }
}

// Where they stand in digits behind the mark of a hexadecimal number.
pub fn behind_prefix(reading: Reading) -> Separators
    ensures { result ≡ behind_prefix reading }
{
    match reading {
        Reading::Crate => Separators::Never,
        Reading::Documented => Separators::Before,
    }
}

// Whether bytes begin with the mark of a hexadecimal number.
#[tactic(auto, unfolding(crate::specs::Numeral::is_hex))]
fn is_hex(s: &[u8]) -> bool
    ensures { result ≡ is_hex s.now }
{
    matches!(s, [b'0', b'x' | b'X', ..])
}

// The place past a point and the digits behind it, where one stands.
#[tactic(auto, unfolding(crate::specs::Numeral::fraction_end))]
#[inline(always)]
fn fraction_end(s: &[u8], reading: Reading, k: Class, at: usize) -> usize
    ensures { result ≡ fraction_end reading k s.now at }
{
    if byte::peek(s, at) == b'.' as usize {
        separated::separated_end(k, between_digits(reading), s, at + 1)
    } else {
        at
    }
}

// The place past an exponent, where one stands.
#[tactic(auto, unfolding(crate::specs::Numeral::exponent_end))]
fn exponent_end(s: &[u8], reading: Reading, at: usize) -> usize
    ensures { result ≡ exponent_end reading s.now at }
{
    if byte::lowered(byte::peek(s, at)) == b'e' as usize {
        separated::separated_end(
            Class::Digit,
            between_digits(reading),
            s,
            sign::past_sign(s, at + 1),
        )
    } else {
        at
    }
}

// The place past digits of a class with such separators, and past those behind a point.
#[inline(always)]
fn mantissa_end(s: &[u8], reading: Reading, k: Class, separators: Separators, from: usize) -> usize
    ensures { result ≡ mantissa_end reading k separators s.now from }
{
    fraction_end(
        s,
        reading,
        k,
        separated::separated_end(k, separators, s, from),
    )
}

// Where the number ends that bytes begin with.
#[tactic(auto, unfolding(crate::specs::Numeral::number_end))]
fn number_end(s: &[u8], reading: Reading) -> usize
    ensures { result ≡ number_end reading s.now }
{
    if is_hex(s) {
        return exponent_end(
            s,
            reading,
            mantissa_end(s, reading, Class::HexDigit, behind_prefix(reading), 2),
        );
    }
    exponent_end(
        s,
        reading,
        mantissa_end(s, reading, Class::Digit, between_digits(reading), 0),
    )
}

// A unit that the first part of a duration may have.
fn is_first_unit(c: usize) -> bool
    ensures { result ≡ is_first_unit c }
{
    c == b'y' as usize || is_unit(c)
}

// A unit that any part of a duration may have.
#[tactic(auto, unfolding(crate::specs::Numeral::is_unit))]
fn is_unit(c: usize) -> bool
    ensures { result ≡ is_unit c }
{
    matches!(u8::try_from(c), Ok(b's' | b'm' | b'h' | b'd' | b'w'))
}

// What a byte that is no digit does to a duration, by what it was read through to.
#[tactic(auto, unfolding(crate::specs::Numeral::stop_of))]
fn stop_of(part: Part, c: usize) -> Turn
    ensures { result ≡ stop_of part c }
{
    match part {
        Part::Digits if is_unit(c) => Turn::On(Part::Unit),
        Part::Digits => Turn::Fails,
        Part::Unit if c == b's' as usize => Turn::On(Part::UnitS),
        Part::Unit | Part::UnitS if byte::is_alpha(c) => Turn::Fails,
        Part::Unit | Part::UnitS => Turn::Ends,
    }
}

// What a byte does to a duration.
#[tactic(auto, unfolding(crate::specs::Numeral::turn_of))]
fn turn_of(part: Part, c: usize) -> Turn
    ensures { result ≡ turn_of part c }
{
    if byte::is_digit(c) {
        Turn::On(Part::Digits)
    } else {
        stop_of(part, c)
    }
}

// The duration whose first unit stands before `from`.
#[tactic(auto, unfolding(crate::specs::Numeral::duration_from))]
fn duration(s: &[u8], from: usize) -> Numeral
    requires { from ≤ length s.now }
    ensures { result ≡ duration_from Part.Unit from (drop from s.now) }
{
    let mut part = Part::Unit;
    for n in from..s.len() {
        match turn_of(part, s[n] as usize) {
            Turn::On(next) => part = next,
            Turn::Ends => return Numeral::Duration(n),
            Turn::Fails => return Numeral::Neither(n),
        }
    }
    match part {
        Part::Digits => Numeral::Neither(s.len()),
        Part::Unit | Part::UnitS => Numeral::Duration(s.len()),
    }
}

// What bytes begin with that are begun by a digit, or by a point and a digit.
#[tactic(auto, unfolding(crate::specs::Numeral::numeral_of))]
#[inline(never)]
pub fn scan_number(s: &[u8], reading: Reading) -> Numeral
    ensures { result ≡ numeral_of reading s.now }
{
    let n = number_end(s, reading);
    let c = byte::peek(s, n);
    if c == b'.' as usize {
        Numeral::Neither(n)
    } else if !byte::is_alpha(c) {
        Numeral::Number(n)
    } else if is_first_unit(c) && !scan::contains(&s[..n], separated::SEPARATOR) {
        duration(s, n + 1)
    } else {
        Numeral::Neither(n)
    }
}
