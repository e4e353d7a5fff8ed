// What the content of a string literal goes on with: a character as it is, an escape, or neither.
ghost use Rattle.std.specs.Prelude.{◌≡◌, ◌≤◌};
ghost use Rattle.string.specs.Letters.{letter_value};
ghost use Rattle.string.specs.Tile.{amount_from, is_byte, is_allowed, numbered, escape_of, begins_escape, tile_of};

use scan::byte;
use utf8::{ByteOffset, Character, encode};

// How a tile is written: as it is, as a letter or a sign behind a backslash, as `\xhh`, as three octal digits, or as `\uhhhh` or
// `\Uhhhhhhhh`.
#[derive(Clone, Copy)]
pub enum Form {
    Plain,
    Letter,
    Hex,
    Octal,
    Point,
}

// A tile: how it is written, what it stands for and how many bytes it has.
#[derive(Clone, Copy)]
pub struct Piece {
    pub form: Form,
    pub value: u32,
    pub size: usize,
}

pub const BACKSLASH: u8 = b'\\';

pub const BACKQUOTE: u8 = b'`';

pub const LINE_FEED: u8 = b'\n';

const NUL: u8 = 0;

const ALERT: u32 = 0x07;

const BACKSPACE: u32 = 0x08;

const TAB: u32 = 0x09;

const VERTICAL_TAB: u32 = 0x0b;

const FORM_FEED: u32 = 0x0c;

const CARRIAGE_RETURN: u32 = 0x0d;

const LARGEST_BYTE: u32 = 0xff;

pub const LAST_ASCII: u32 = 0x7f;

const HEX: usize = 16;

const OCTAL: usize = 8;

// Where the digits of an escape begin: behind the backslash, or behind its letter.
pub const BEHIND_BACKSLASH: usize = 1;

pub const BEHIND_LETTER: usize = 2;

// The code point that a letter behind the backslash stands for, in a literal with a quote sign; NUL is no sign.
#[tactic(auto, unfolding(crate::specs::Letters::letter_value, crate::specs::Letters::looked_up))]
pub fn letter_value(quote: u8, c: u8) -> Option<u32>
    ensures { result ≡ letter_value quote c }
{
    if c == quote && quote != NUL {
        return Some(u32::from(quote));
    }
    match c {
        b'a' => Some(ALERT),
        b'b' => Some(BACKSPACE),
        b'f' => Some(FORM_FEED),
        b'n' => Some(u32::from(LINE_FEED)),
        b'r' => Some(CARRIAGE_RETURN),
        b't' => Some(TAB),
        b'v' => Some(VERTICAL_TAB),
        b'\\' => Some(u32::from(BACKSLASH)),
        _ => None,
    }
}

// What the `count` digits of a radix from an offset on amount to; nothing where other bytes stand there.
#[tactic(auto, using(crate::proofs::tile::Digits::digits_read, scan::proofs::byte::Classes::digit_bound))]
fn read_digits(s: &[u8], at: usize, count: usize, radix: usize) -> Option<u32>
    requires { (at ≤ 2) × (count ≤ 8) × (radix ≤ 16) }
    ensures { result ≡ amount_from radix 0 count at s.now }
{
    let mut value = 0;
    for i in 0..count {
        let c = byte::peek(s, at + i);
        if !byte::is_digit_in(radix, c) {
            return None;
        }
        value = value * radix as u32 + byte::digit_of(c) as u32;
    }
    Some(value)
}

// Whether a tile stands for one byte in the documented reading.
pub fn is_byte(form: Form) -> bool
    ensures { result ≡ is_byte form }
{
    matches!(form, Form::Hex | Form::Octal)
}

// Whether an escape may stand for a value: a byte, or a character's code point.
#[tactic(auto, unfolding(crate::specs::Tile::is_allowed))]
fn is_allowed(form: Form, value: u32) -> bool
    ensures { result ≡ is_allowed form value }
{
    if is_byte(form) {
        return value <= LARGEST_BYTE;
    }
    encode::is_scalar(value)
}

// An escape by so many digits of a radix.
#[tactic(auto, unfolding(crate::specs::Tile::numbered))]
fn numbered(s: &[u8], form: Form, radix: usize, at: usize, count: usize) -> Option<Piece>
    requires { (at ≤ 2) × (count ≤ 8) × (radix ≤ 16) }
    ensures { result ≡ numbered form radix at count s.now }
{
    let value = read_digits(s, at, count, radix)?;
    if !is_allowed(form, value) {
        return None;
    }
    Some(Piece {
        form,
        value,
        size: at + count,
    })
}

// The escape that begins with a backslash.
#[tactic(auto, unfolding(crate::specs::Tile::escape_of))]
fn escape(s: &[u8], quote: u8) -> Option<Piece>
    ensures { result ≡ escape_of quote s.now }
{
    let &c = s.get(BEHIND_BACKSLASH)?;
    if let Some(value) = letter_value(quote, c) {
        return Some(Piece {
            form: Form::Letter,
            value,
            size: BEHIND_LETTER,
        });
    }
    match c {
        b'x' => numbered(s, Form::Hex, HEX, BEHIND_LETTER, 2),
        b'u' => numbered(s, Form::Point, HEX, BEHIND_LETTER, 4),
        b'U' => numbered(s, Form::Point, HEX, BEHIND_LETTER, 8),
        _ => numbered(s, Form::Octal, OCTAL, BEHIND_BACKSLASH, 3),
    }
}

// Whether a byte begins an escape, by the literal's quote sign.
#[tactic(auto, unfolding(crate::specs::Tile::begins_escape))]
fn begins_escape(quote: u8, c: usize) -> bool
    ensures { result ≡ begins_escape quote c }
{
    c == BACKSLASH as usize && quote != BACKQUOTE
}

// The tile that bytes of a literal begin with, by the literal's quote sign; none, where the literal is bad there.
#[tactic(auto, using(utf8::proofs::Bounds::ascii_at), unfolding(crate::specs::Tile::tile_of))]
pub fn unquote_char(s: &[u8], quote: u8) -> Option<Piece>
    ensures { result ≡ tile_of quote s.now }
{
    let first = byte::peek(s, 0);
    if first == quote as usize {
        return None;
    }
    if begins_escape(quote, first) {
        return escape(s, quote);
    }
    if first <= LAST_ASCII as usize {
        return Some(Piece {
            form: Form::Plain,
            value: first as u32,
            size: 1,
        });
    }
    match utf8::char_at(s, ByteOffset(0)) {
        Character::Scalar { code, size } => Some(Piece {
            form: Form::Plain,
            value: code,
            size,
        }),
        Character::Nothing | Character::IllFormed => None,
    }
}
