// A text is escaped, to stand between double quotes. It is measured first, so that a refused call writes nothing.
ghost use Rattle.std.specs.Prelude.{cond, ◌≡◌, ◌+◌, ◌≤◌, eqb, length};
ghost use Rattle.std.proofs.lemmas.List.Edits.{sets};
ghost use Rattle.utf8.specs.Answers.{text_limit};
ghost use Rattle.utf8.specs.Writing.{left_by};
ghost use Rattle.string.specs.Letters.{letter_of};
ghost use Rattle.string.specs.Escape.{escaped, escaping_of};
ghost use Rattle.string.specs.steps.Bytes.{escaped_byte, escaped_bytes};

use crate::tile;
use utf8::Refusal;

// What stands behind the backslash for a byte; nothing for one that is copied.
#[tactic(auto, unfolding(crate::specs::Letters::letter_of, crate::specs::Letters::letter_among, crate::specs::Letters::letter_value, crate::specs::Letters::looked_up))]
fn letter_of(c: u8) -> Option<u8>
    ensures { result ≡ letter_of c }
{
    match c {
        b'\\' => Some(b'\\'),
        b'"' => Some(b'"'),
        b'\n' => Some(b'n'),
        b'\r' => Some(b'r'),
        b'\t' => Some(b't'),
        _ => None,
    }
}

// How many bytes more a byte has when it is escaped. There is no branch in it, so that many bytes are counted at once.
#[tactic(auto, unfolding(crate::specs::Letters::letter_of, crate::specs::Letters::letter_among, crate::specs::Letters::letter_value, crate::specs::Letters::looked_up))]
fn extra(c: u8) -> u8
    ensures { result + 1 ≡ length (escaped_byte c) }
{
    u8::from(c == tile::BACKSLASH)
        | u8::from(c == b'"')
        | u8::from(c == tile::LINE_FEED)
        | u8::from(c == b'\r')
        | u8::from(c == b'\t')
}

// How many bytes a text has when it is escaped.
#[tactic(auto, using(crate::proofs::escape::Escapes::byte_few, crate::proofs::escape::Escapes::next_length, crate::proofs::escape::Escapes::over_length))]
fn escaped_length(text: &[u8]) -> usize
    requires { length text.now ≤ text_limit }
    ensures { result ≡ length (escaped_bytes text.now) }
{
    let mut more: u32 = 0;
    for &byte in text {
        more += u32::from(extra(byte));
    }
    text.len() + more as usize
}

// Writes a byte, escaped, at a place where it fits, and answers the place past it.
fn put_escaped(c: u8, out: &mut [u8], at: usize) -> usize
    requires { at + length (escaped_byte c) ≤ length out.old }
    ensures value { result ≡ at + length (escaped_byte c) }
    ensures out_after { out.new ≡ sets out.old at (escaped_byte c) }
{
    let Some(letter) = letter_of(c) else {
        out[at] = c;
        return at + 1;
    };
    out[at] = tile::BACKSLASH;
    out[at + 1] = letter;
    at + 2
}

// Writes a text, escaped, at the front of a buffer that it fits.
#[tactic(auto, using(crate::proofs::escape::Escapes::next_length, crate::proofs::escape::Escapes::next_written, crate::proofs::escape::Escapes::over_written))]
fn write_escaped(text: &[u8], out: &mut [u8])
    requires { length (escaped_bytes text.now) ≤ length out.old }
    ensures { out.new ≡ sets out.old 0 (escaped_bytes text.now) }
{
    let mut at = 0;
    for &byte in text {
        at = put_escaped(byte, out, at);
    }
}

// Writes a text, escaped, at the front of a lent buffer; nothing where it is refused.
#[tactic(auto, using(crate::proofs::escape::Escapes::admitted_few, crate::proofs::escape::Escapes::admitted_bytes, crate::proofs::Bytes::sets_front), unfolding(crate::specs::Escape::escaping_of))]
pub fn escape_string(text: &[u8], out: &mut [u8]) -> Result<usize, Refusal>
    ensures value { result ≡ escaping_of (length out.old) text.now }
    ensures out_after { out.new ≡ left_by result (escaped text.now) out.old }
{
    utf8::admit(text, utf8::TEXT_LIMIT)?;
    let n = escaped_length(text);
    if out.len() < n {
        return Err(utf8::at_start(utf8::NO_ROOM));
    }
    write_escaped(text, out);
    Ok(n)
}
