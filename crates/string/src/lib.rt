// String literals: where the text of one stands, and that text. Nothing lent is written before all of a literal is known to be good.
#![tactic(auto)]

mod content;
pub mod escape;
pub mod tile;

ghost use Rattle.std.specs.Prelude.{◌≡◌, length};
ghost use Rattle.utf8.specs.Text.{WellFormed};
ghost use Rattle.string.specs.Literal.{unquoted, extent_of, unquoting_of, text_by, part_of};
ghost use Rattle.string.specs.steps.Measure.{left_in};

use crate::content::Content;
use scan::byte;
use utf8::{ByteOffset, Reading, Refusal};

// Document 01's "bad literal".
pub const BAD_LITERAL: usize = 40;

// Where the text of a literal stands: behind the first sign of the literal itself, so many bytes, or at the front of the text buffer.
#[derive(Clone, Copy)]
pub enum Unquoted {
    Inner(usize),
    Written(usize),
}

// A tile that gives one byte: that byte, and how many bytes the tile has.
#[derive(Clone, Copy)]
pub struct Single {
    pub value: u8,
    pub size: usize,
}

// The bytes of the two signs.
const SIGNS: usize = 2;

// What a literal comes to, or where it goes wrong; a text with escapes is written where it has room.
#[tactic(auto, using(crate::proofs::Literals::literal_read), unfolding(crate::specs::Literal::extent_of, crate::specs::Literal::fault_of))]
fn read_literal(literal: &[u8], reading: Reading, text: &mut [u8]) -> Result<Unquoted, usize>
    requires { WellFormed literal.now }
    ensures value { result ≡ extent_of reading literal.now }
    ensures text_after { text.new ≡ left_in result (unquoted reading literal.now) text.old }
{
    if literal.len() < SIGNS {
        return Err(0);
    }
    let sign = literal[0];
    let end = literal.len() - 1;
    if literal[end] != sign {
        return Err(end);
    }
    if !byte::is_quote(sign as usize) {
        return Err(0);
    }
    let content = Content {
        inner: &literal[1..end],
        sign,
        reading,
    };
    match content.read(text) {
        Ok(unquoted) => Ok(unquoted),
        Err(at) => Err(at + 1),
    }
}

// Reads a literal: a text without escapes is left where it stands, and another is written at the front of a lent buffer; nothing is
// written where it is refused.
#[tactic(auto, using(crate::proofs::Literals::admitted_well), unfolding(crate::specs::Literal::unquoting_of))]
pub fn unquote_string(
    literal: &[u8],
    reading: Reading,
    text: &mut [u8],
) -> Result<Unquoted, Refusal>
    ensures value { result ≡ unquoting_of reading (length text.old) literal.now }
    ensures text_after { text.new ≡ text_by result (unquoted reading literal.now) text.old }
{
    utf8::admit(literal, utf8::TEXT_LIMIT)?;
    match read_literal(literal, reading, text) {
        Ok(Unquoted::Written(size)) if text.len() < size => Err(utf8::at_start(utf8::NO_ROOM)),
        Ok(unquoted) => Ok(unquoted),
        Err(at) => Err(utf8::refused_at(literal, BAD_LITERAL, ByteOffset(at))),
    }
}

// The text that an answer names, of the literal or of the text buffer; none where it is refused, or does not fit them.
#[tactic(auto, unfolding(crate::specs::Literal::part_of))]
pub fn part<'a>(literal: &'a [u8], text: &'a [u8], answer: Result<Unquoted, Refusal>) -> &'a [u8]
    ensures { result.now ≡ part_of answer literal.now text.now }
{
    match answer {
        Ok(Unquoted::Inner(n)) if n < literal.len() => &literal[1..n + 1],
        Ok(Unquoted::Written(n)) if n <= text.len() => &text[..n],
        _ => &text[..0],
    }
}
