// Bytes: what stands at a place, and the classes of document 01.
ghost use Rattle.std.specs.Prelude.{◌≡◌};
ghost use Rattle.scan.specs.Byte.{peek_at, is_within, is_space, is_alpha, is_digit, is_hex_digit, digit_of, is_digit_in, lowered, is_alpha_numeric, is_word, is_line, is_quote, is_in};

// What stands past the last byte: no byte, and in no class.
pub const END: usize = 256;

const TAB: usize = 9;

const LF: usize = 10;

const FORM_FEED: usize = 12;

const CR: usize = 13;

const SPACE: usize = 32;

const DOUBLE_QUOTE: usize = b'"' as usize;

const SINGLE_QUOTE: usize = b'\'' as usize;

const BACKQUOTE: usize = b'`' as usize;

const VALUE_OF_A: usize = 10;

// What lies between a capital letter and its small one.
const CASE: usize = 32;

// The classes of bytes.
#[derive(Clone, Copy)]
pub enum Class {
    Space,
    Alpha,
    Digit,
    HexDigit,
    AlphaNumeric,
    Word,
    Line,
}

// What stands at i: a byte, or END past the last.
pub fn peek(s: &[u8], i: usize) -> usize
    ensures { result ≡ peek_at s.now i }
{
    if i < s.len() { s[i] as usize } else { END }
}

// From lo to hi, both included.
#[tactic(auto, unfolding(crate::specs::Byte::is_within))]
pub fn is_within(lo: u8, hi: u8, c: usize) -> bool
    ensures { result ≡ is_within lo hi c }
{
    (lo as usize..=hi as usize).contains(&c)
}

// White space.
#[tactic(auto, unfolding(crate::specs::Byte::is_space))]
pub fn is_space(c: usize) -> bool
    ensures { result ≡ is_space c }
{
    matches!(c, TAB | LF | FORM_FEED | CR | SPACE)
}

// A letter: an ASCII letter or the underscore.
#[tactic(auto, unfolding(crate::specs::Byte::is_alpha))]
pub fn is_alpha(c: usize) -> bool
    ensures { result ≡ is_alpha c }
{
    is_within(b'a', b'z', c) || is_within(b'A', b'Z', c) || c == b'_' as usize
}

// A decimal digit.
pub fn is_digit(c: usize) -> bool
    ensures { result ≡ is_digit c }
{
    is_within(b'0', b'9', c)
}

// A hexadecimal digit, in either case.
#[tactic(auto, unfolding(crate::specs::Byte::is_hex_digit))]
pub fn is_hex_digit(c: usize) -> bool
    ensures { result ≡ is_hex_digit c }
{
    is_digit(c) || is_within(b'a', b'f', c) || is_within(b'A', b'F', c)
}

// What a hexadecimal digit stands for, in either case, and 0 where c is none.
#[tactic(auto, unfolding(crate::specs::Byte::digit_of, crate::specs::Byte::is_within))]
pub fn digit_of(c: usize) -> usize
    ensures { result ≡ digit_of c }
{
    if is_digit(c) {
        return c - b'0' as usize;
    }
    if is_within(b'a', b'f', c) {
        return c - b'a' as usize + VALUE_OF_A;
    }
    if is_within(b'A', b'F', c) {
        return c - b'A' as usize + VALUE_OF_A;
    }
    0
}

// A digit of a radix, in either case.
#[tactic(auto, unfolding(crate::specs::Byte::is_digit_in))]
pub fn is_digit_in(radix: usize, c: usize) -> bool
    ensures { result ≡ is_digit_in radix c }
{
    is_hex_digit(c) && digit_of(c) < radix
}

// An ASCII letter in lower case, and all others as they are.
#[tactic(auto, unfolding(crate::specs::Byte::lowered, crate::specs::Byte::is_within))]
pub fn lowered(c: usize) -> usize
    ensures { result ≡ lowered c }
{
    if is_within(b'A', b'Z', c) {
        c + CASE
    } else {
        c
    }
}

// A letter or a digit: what a label, and a word in braces, goes on with.
#[tactic(auto, unfolding(crate::specs::Byte::is_alpha_numeric))]
pub fn is_alpha_numeric(c: usize) -> bool
    ensures { result ≡ is_alpha_numeric c }
{
    is_alpha(c) || is_digit(c)
}

// What a word outside braces goes on with.
#[tactic(auto, unfolding(crate::specs::Byte::is_word))]
pub fn is_word(c: usize) -> bool
    ensures { result ≡ is_word c }
{
    is_alpha_numeric(c) || c == b':' as usize
}

// A byte of a line, which is what a comment goes on with: any but CR and LF.
#[tactic(auto, unfolding(crate::specs::Byte::is_line))]
pub fn is_line(c: usize) -> bool
    ensures { result ≡ is_line c }
{
    !matches!(c, CR | LF | END)
}

// A quote sign, which opens a string.
#[tactic(auto, unfolding(crate::specs::Byte::is_quote))]
pub fn is_quote(c: usize) -> bool
    ensures { result ≡ is_quote c }
{
    matches!(c, DOUBLE_QUOTE | SINGLE_QUOTE | BACKQUOTE)
}

// Whether a class has the byte.
#[tactic(auto, unfolding(crate::specs::Byte::is_in))]
pub fn is_in(k: Class, c: usize) -> bool
    ensures { result ≡ is_in k c }
{
    match k {
        Class::Space => is_space(c),
        Class::Alpha => is_alpha(c),
        Class::Digit => is_digit(c),
        Class::HexDigit => is_hex_digit(c),
        Class::AlphaNumeric => is_alpha_numeric(c),
        Class::Word => is_word(c),
        Class::Line => is_line(c),
    }
}
