// Numbers: decimal, hexadecimal or octal, in a text of at most 256 bytes, white space aside and in any case of its letters.
#![tactic(auto)]

mod separators;

ghost use Rattle.std.specs.Prelude.{◌≡◌, ◌+◌, ◌<◌, ◌≤◌, true, length, take, pos};
ghost use Rattle.std.specs.Float.Ieee as Ieee;
ghost use Rattle.std.specs.Float.{binary64};
ghost use Rattle.std.proofs.lemmas.List.Edits.{sets};
ghost use Rattle.utf8.specs.Code.{is_scalar};
ghost use Rattle.utf8.specs.laws.Refusals.{Taken};
ghost use Rattle.number.specs.White.{is_white, kept_bytes, plain_text};
ghost use Rattle.decimal.specs.Value.{decimal_limit};
ghost use Rattle.number.specs.Signed.{signed_of, is_i64};
ghost use Rattle.number.specs.Integer.{is_digits, integer_of, told_of};
ghost use Rattle.number.specs.Number.{is_zero_at, has_decimal_mark, is_zero_led, is_marked, integer_read, marked_read, number_of, number_in, parsing_of};

use decimal::{Decimal, Notation, Number};
use scan::{byte, separated, sign};
use utf8::{ByteOffset, Character, Reading, Refusal, encode};

// Document 01's refusals of a number besides a decimal's: it is none, or is no signed 64-bit integer.
pub const NOT_A_NUMBER: usize = 60;

pub const OUTSIDE_I64: usize = 61;

// An integer by its sign and its magnitude.
#[derive(Clone, Copy)]
struct Integer {
    negative: bool,
    magnitude: u64,
}

const TAB: u32 = 0x9;

const CARRIAGE_RETURN: u32 = 0xd;

const SPACE: u32 = 0x20;

const NEXT_LINE: u32 = 0x85;

const NO_BREAK_SPACE: u32 = 0xa0;

const OGHAM_SPACE_MARK: u32 = 0x1680;

const EN_QUAD: u32 = 0x2000;

const HAIR_SPACE: u32 = 0x200a;

const LINE_SEPARATOR: u32 = 0x2028;

const PARAGRAPH_SEPARATOR: u32 = 0x2029;

const NARROW_NO_BREAK_SPACE: u32 = 0x202f;

const MEDIUM_MATHEMATICAL_SPACE: u32 = 0x205f;

const IDEOGRAPHIC_SPACE: u32 = 0x3000;

// 2^32, by which the high part of an integer counts, and that as a float.
const HIGH_UNIT: u64 = 1 << 32;

const HIGH_UNIT_VALUE: f64 = HIGH_UNIT as f64;

// Whether a code point is Unicode White_Space.
#[tactic(auto, unfolding(crate::specs::White::is_white, scan::specs::Byte::is_within))]
fn is_white(code: u32) -> bool
    ensures { result ≡ is_white code }
{
    matches!(
        code,
        TAB..=CARRIAGE_RETURN
            | SPACE
            | NEXT_LINE
            | NO_BREAK_SPACE
            | OGHAM_SPACE_MARK
            | EN_QUAD..=HAIR_SPACE
            | LINE_SEPARATOR
            | PARAGRAPH_SEPARATOR
            | NARROW_NO_BREAK_SPACE
            | MEDIUM_MATHEMATICAL_SPACE
            | IDEOGRAPHIC_SPACE
    )
}

// Writes what is kept of a character at a place where it fits, and answers the place past it.
#[tactic(auto, using(crate::proofs::Kept::white_kept))]
fn put_kept(code: u32, out: &mut [u8], at: usize) -> usize
    requires code_value { is_scalar code ≡ true }
    requires code_in_bounds { at + length (kept_bytes code) ≤ length out.old }
    ensures value { result ≡ at + length (kept_bytes code) }
    ensures out_after { out.new ≡ sets out.old at (kept_bytes code) }
{
    if is_white(code) {
        return at;
    }
    let small = byte::lowered(code as usize) as u32;
    at + encode::encode(small, out, ByteOffset(at)).unwrap()
}

// Writes what is kept of an ASCII character at a place where it fits, and answers the place past it.
#[tactic(auto, using(crate::proofs::Kept::white_kept, crate::proofs::Kept::ascii_kept, crate::proofs::Kept::lowered_small))]
fn put_ascii(byte: u8, out: &mut [u8], at: usize) -> usize
    requires byte_bound { byte < 0x80 }
    requires byte_in_bounds { at + length (kept_bytes byte) ≤ length out.old }
    ensures value { result ≡ at + length (kept_bytes byte) }
    ensures out_after { out.new ≡ sets out.old at (kept_bytes byte) }
{
    if is_white(byte as u32) {
        return at;
    }
    out[at] = byte::lowered(byte as usize) as u8;
    at + 1
}

// Writes a text without its white space and in lower case at the front of a buffer, and answers how many bytes that is.
fn keep(text: &[u8], out: &mut [u8; decimal::LIMIT]) -> usize
    requires { Taken decimal_limit text.now }
    ensures within { result ≤ length out.new }
    ensures kept { take result out.new ≡ plain_text text.now }
{
    let mut n = 0;
    let mut at = 0;
    // a `while`, since a character may have several bytes
    while at < text.len() {
        let byte = text[at];
        if byte.is_ascii() {
            n = put_ascii(byte, out, n);
            at += 1;
        } else {
            let Character::Scalar { code, size } = utf8::char_at(text, ByteOffset(at)) else {
                unreachable!()
            };
            n = put_kept(code, out, n);
            at += size;
        }
    }
    n
}

// An integer, rounded once: a high and a low part, each exact, and one sum.
fn whole(n: u64) -> f64
    ensures { result ≡ Ieee.of_int binary64 (pos n) }
{
    (n / HIGH_UNIT) as f64 * HIGH_UNIT_VALUE + (n % HIGH_UNIT) as f64
}

// The greatest magnitude of a signed 64-bit integer, by its sign.
const MOST_POSITIVE: u64 = i64::MAX as u64;

const MOST_NEGATIVE: u64 = MOST_POSITIVE + 1;

impl Integer {
    // The integer, rounded once; zero has no sign.
    #[tactic(auto, using(crate::proofs::Signs::zero_is, crate::proofs::Signs::negated))]
    fn value(self) -> f64
        ensures { result ≡ Ieee.of_int binary64 (signed_of self.negative self.magnitude) }
    {
        if self.magnitude == 0 {
            return 0.0;
        }
        if self.negative {
            -whole(self.magnitude)
        } else {
            whole(self.magnitude)
        }
    }

    // Whether it is a signed 64-bit integer.
    #[tactic(auto, unfolding(crate::specs::Signed::is_i64))]
    fn is_i64(self) -> bool
        ensures { result ≡ is_i64 self.negative self.magnitude }
    {
        let most = if self.negative {
            MOST_NEGATIVE
        } else {
            MOST_POSITIVE
        };
        self.magnitude <= most
    }
}

// Whether all bytes are digits of a radix.
#[tactic(auto, unfolding(crate::specs::Integer::is_digits))]
fn is_digits(radix: usize, s: &[u8]) -> bool
    ensures { result ≡ is_digits radix s.now }
{
    s.iter()
        .all(|&byte| byte::is_digit_in(radix, byte as usize))
}

// The integer of a notation that a text is: digits behind an own sign.
#[tactic(auto, unfolding(crate::specs::Integer::integer_of, crate::specs::Integer::is_whole), using(scan::proofs::sign::Places::sign_within))]
fn read_integer(notation: Notation, s: &[u8]) -> Option<Integer>
    ensures { result ≡ told_of (integer_of notation s.now) }
{
    let digits = &s[sign::past_sign(s, 0)..];
    if digits.is_empty() || !is_digits(decimal::radix(notation), digits) {
        return None;
    }
    Some(Integer {
        negative: sign::is_minus(s, 0),
        magnitude: decimal::digits_value(0, notation, digits),
    })
}

// Whether a 0 stands at a place.
fn is_zero_at(t: &[u8], at: usize) -> bool
    ensures { result ≡ is_zero_at t.now at }
{
    byte::peek(t, at) == b'0' as usize
}

// Whether a text has a point, an 8 or a 9.
#[tactic(auto, unfolding(crate::specs::Number::has_decimal_mark))]
fn has_decimal_mark(t: &[u8]) -> bool
    ensures { result ≡ has_decimal_mark t.now }
{
    scan::contains(t, b'.') || scan::contains(t, b'8') || scan::contains(t, b'9')
}

// Whether a 0 leads a text, behind a sign, and is not all of it, and there is nothing decimal in it.
#[tactic(auto, unfolding(crate::specs::Number::is_zero_led))]
fn is_zero_led(t: &[u8]) -> bool
    ensures { result ≡ is_zero_led t.now }
{
    let from = sign::past_sign(t, 0);
    is_zero_at(t, from) && !has_decimal_mark(t) && from + 1 != t.len()
}

// Whether a text is marked as an integer.
#[tactic(auto, unfolding(crate::specs::Number::is_marked))]
fn is_marked(t: &[u8]) -> bool
    ensures { result ≡ is_marked t.now }
{
    scan::contains(t, b'x') || is_zero_led(t)
}

// The integer that follows the mark of its notation, behind an outer minus or none.
#[tactic(auto, using(crate::proofs::Told::told_read))]
fn integer_number(notation: Notation, outer: bool, s: &[u8]) -> Result<Number, Refusal>
    ensures { result ≡ integer_read notation outer s.now }
{
    let Some(own) = read_integer(notation, s) else {
        return Err(utf8::at_start(NOT_A_NUMBER));
    };
    let integer = Integer {
        negative: own.negative != outer,
        magnitude: own.magnitude,
    };
    if !own.is_i64() || !integer.is_i64() {
        return Err(utf8::at_start(OUTSIDE_I64));
    }
    Ok(Number {
        value: integer.value(),
        notation,
    })
}

// The integer that a text is, behind its sign and the mark of its notation, `0x` or `0`.
#[tactic(auto, unfolding(crate::specs::Number::marked_read, crate::specs::Number::notation_of, crate::specs::Number::follows_mark), using(crate::proofs::Marks::zero_inside, crate::proofs::Marks::x_inside))]
fn marked(t: &[u8]) -> Result<Number, Refusal>
    ensures { result ≡ marked_read t.now }
{
    let from = sign::past_sign(t, 0);
    if !is_zero_at(t, from) {
        return Err(utf8::at_start(NOT_A_NUMBER));
    }
    let behind = from + 1;
    let outer = sign::is_minus(t, 0);
    if byte::peek(t, behind) == b'x' as usize {
        return integer_number(Notation::Hex, outer, &t[behind + 1..]);
    }
    integer_number(Notation::Octal, outer, &t[behind..])
}

// The number that a text is, without white space and in lower case.
#[tactic(auto, unfolding(crate::specs::Number::number_of))]
fn read_plain(t: &[u8]) -> Result<Number, Refusal>
    ensures { result ≡ number_of t.now }
{
    if is_marked(t) {
        return marked(t);
    }
    match decimal::read_decimal(t) {
        Decimal::Named(number) | Decimal::Exact(number) => Ok(number),
        Decimal::Outside(_) => Err(utf8::at_start(decimal::OUTSIDE_EXACT)),
        Decimal::NotDecimal => Err(utf8::at_start(NOT_A_NUMBER)),
    }
}

// The number that a text is in a reading, without white space and in lower case; where it has separators, they are dropped in place.
#[tactic(auto, unfolding(crate::specs::Number::number_in), using(crate::proofs::Readings::unseparated))]
fn read_kept(t: &mut [u8], reading: Reading) -> Result<Number, Refusal>
    ensures { result ≡ number_in reading t.old }
{
    if !scan::contains(t, separated::SEPARATOR) {
        return read_plain(t);
    }
    if !separators::is_placed(t, reading) {
        return Err(utf8::at_start(NOT_A_NUMBER));
    }
    let n = separators::drop_separators(t);
    read_plain(&t[..n])
}

// Reads a number.
#[tactic(auto, unfolding(crate::specs::Number::parsing_of), using(utf8::proofs::Given::admitted_text))]
pub fn parse_str_radix(text: &[u8], reading: Reading) -> Result<Number, Refusal>
    ensures { result ≡ parsing_of reading text.now }
{
    utf8::admit(text, decimal::LIMIT)?;
    let mut buf = [0u8; decimal::LIMIT];
    let n = keep(text, &mut buf);
    read_kept(&mut buf[..n], reading)
}
