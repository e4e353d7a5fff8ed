// Digits with separators, as document 02's L2 has them.
ghost use Rattle.std.specs.Prelude.{◌≡◌, ◌&&◌, ◌||◌, not, eqb, ◌+◌};
ghost use Rattle.scan.specs.Byte.{peek_at, is_in};
ghost use Rattle.scan.specs.Separated.{separator, is_open, separated_end, all_placed};

use crate::byte;
use crate::byte::Class;

// The byte that stands between digits.
pub const SEPARATOR: u8 = b'_';

// The same, as it is seen at a place.
const SEEN: usize = SEPARATOR as usize;

// Where separators may stand: nowhere, between two digits, or also before the first.
#[derive(Clone, Copy)]
pub enum Separators {
    Never,
    Between,
    Before,
}

// Whether a separator may stand behind a digit, or where none stands before it.
fn is_open(separators: Separators, digit: bool) -> bool
    ensures { result ≡ is_open separators digit }
{
    match separators {
        Separators::Never => false,
        Separators::Between => digit,
        Separators::Before => true,
    }
}

// Where the run of the class with such separators that starts at `from` ends.
#[inline(always)]
pub fn separated_end(k: Class, separators: Separators, s: &[u8], from: usize) -> usize
    ensures { result ≡ separated_end (is_in k) separators s.now from }
{
    let mut n = crate::run_end(k, s, from);
    if is_open(separators, n > from) {
        while byte::peek(s, n) == SEEN && byte::is_in(k, byte::peek(s, n + 1)) {
            n = crate::run_end(k, s, n + 1);
        }
    }
    n
}

// Whether no separator stands at a place, or one that may stand there, with a digit behind it.
fn is_placed_at(k: Class, allowed: bool, s: &[u8], i: usize) -> bool
    ensures { result ≡ not (eqb (peek_at s.now i) separator) || (allowed && is_in k (peek_at s.now (i + 1))) }
{
    if byte::peek(s, i) != SEEN {
        return true;
    }
    allowed && byte::is_in(k, byte::peek(s, i + 1))
}

// Whether each separator of a text stands where it may.
pub fn is_all_placed(k: Class, separators: Separators, s: &[u8]) -> bool
    ensures { result ≡ all_placed (is_in k) separators s.now }
{
    let behind = is_open(separators, true);
    let mut allowed = is_open(separators, false);
    for i in 0..s.len() {
        if !is_placed_at(k, allowed, s, i) {
            return false;
        }
        allowed = byte::is_in(k, byte::peek(s, i)) && behind;
    }
    true
}
