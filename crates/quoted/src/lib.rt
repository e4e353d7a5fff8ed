// Strings and comments in a query: where the one or the other ends, by the bytes behind the sign that opens it. What a string says is read
// by `string`.
#![tactic(auto)]

ghost use Rattle.std.specs.Prelude.{◌≡◌};
ghost use Rattle.quoted.specs.Quoted.{is_escape, is_raw, raw_from, escaped_of, quoted_of, comment_end};

use scan::byte::Class;
use utf8::Reading;

// Why bytes are refused: document 01's number, and the offset of the byte.
#[derive(Clone, Copy)]
pub struct Fault {
    pub number: usize,
    pub at: usize,
}

// Document 01's refusals of a string: an unknown escape, the end behind a backslash, the end within a string.
pub const UNKNOWN_ESCAPE: usize = 21;

pub const END_IN_ESCAPE: usize = 22;

pub const END_IN_STRING: usize = 23;

const BACKQUOTE: u8 = b'`';

// What may stand behind a backslash, beside the string's own sign.
const ESCAPE_SYMBOLS: [u8; 19] = *b"abfnrtv\\01234567xuU";

// Whether a byte may stand behind a backslash in a string.
#[tactic(auto, unfolding(crate::specs::Quoted::is_escape))]
fn is_escape(symbol: u8, c: u8) -> bool
    ensures { result ≡ is_escape symbol c }
{
    c == symbol || scan::contains(&ESCAPE_SYMBOLS, c)
}

// Whether a string that a sign opened has no escapes.
#[tactic(auto, unfolding(crate::specs::Quoted::is_raw))]
fn is_raw(symbol: u8, reading: Reading) -> bool
    ensures { result ≡ is_raw reading symbol }
{
    match reading {
        Reading::Crate => false,
        Reading::Documented => symbol == BACKQUOTE,
    }
}

// Where a string without escapes ends.
fn accept_raw(symbol: u8, s: &[u8]) -> Result<usize, Fault>
    ensures { result ≡ raw_from symbol 0 s.now }
{
    match s.iter().position(|&c| c == symbol) {
        Some(n) => Ok(n + 1),
        None => Err(Fault {
            number: END_IN_STRING,
            at: s.len(),
        }),
    }
}

// Where a string with escapes ends.
#[tactic(auto, unfolding(crate::specs::Quoted::quoted_from))]
fn accept_escaped(symbol: u8, s: &[u8]) -> Result<usize, Fault>
    ensures { result ≡ escaped_of symbol s.now }
{
    let mut rest = s;
    while let Some((&c, behind)) = rest.split_first() {
        if c == symbol {
            return Ok(s.len() - behind.len());
        }
        rest = behind;
        if c == b'\\' {
            let Some((&escape, after)) = behind.split_first() else {
                return Err(Fault {
                    number: END_IN_ESCAPE,
                    at: s.len(),
                });
            };
            if !is_escape(symbol, escape) {
                return Err(Fault {
                    number: UNKNOWN_ESCAPE,
                    at: s.len() - behind.len(),
                });
            }
            rest = after;
        }
    }
    Err(Fault {
        number: END_IN_STRING,
        at: s.len(),
    })
}

// How many of the bytes behind a string's opening sign belong to it in a reading, with its closing sign; or why none do.
#[inline(never)]
pub fn accept_string(symbol: u8, s: &[u8], reading: Reading) -> Result<usize, Fault>
    ensures { result ≡ quoted_of reading symbol s.now }
{
    if is_raw(symbol, reading) {
        accept_raw(symbol, s)
    } else {
        accept_escaped(symbol, s)
    }
}

// Where a comment ends, by the bytes behind its `#`: past the first CR or LF, or at the end.
#[tactic(auto, unfolding(crate::specs::Quoted::comment_end))]
pub fn comment_end(s: &[u8]) -> usize
    ensures { result ≡ comment_end s.now }
{
    let n = scan::run_end(Class::Line, s, 0);
    if n < s.len() { n + 1 } else { n }
}
