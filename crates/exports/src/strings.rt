// The C functions over `string`: each answers with one number, and writes its text to the buffer that is lent.
// A refusal is answered as `packing` makes it one number.
ghost use Rattle.std.specs.Prelude.{◌≡◌, length};
ghost use Rattle.utf8.specs.Writing.{left_by};
ghost use Rattle.string.specs.Escape.{escaped, escaping_of};
ghost use Rattle.string.specs.Literal.{unquoted, unquoting_of, text_by};
ghost use Rattle.exports.specs.Packed.{counted_code};
ghost use Rattle.exports.specs.Reading.{reading_of};
ghost use Rattle.exports.specs.String.{unquote_code};

use crate::{packing, reading};
use string::{Unquoted, escape};

// Bit 32: a text stands in the literal itself.
const INNER: u64 = 0x1_0000_0000;

// How many bytes of an escaped text were written at the front of a lent buffer, or refusal 1, 2 or 3.
#[unsafe(no_mangle)]
pub extern "C" fn simmerpath_escape_string(text: &[u8], out: &mut [u8]) -> u64
    ensures value { result ≡ counted_code (escaping_of (length out.old) text.now) }
    ensures out_after { out.new ≡ left_by (escaping_of (length out.old) text.now) (escaped text.now) out.old }
{
    packing::counted(escape::escape_string(text, out))
}

// How many bytes the text of a literal has: it was written at the front of a lent buffer, or, with bit 32, it stands behind the
// literal's first byte. Or refusal 1, 2, 40 or 3.
#[tactic(auto, using(crate::proofs::strings::Laws::inner_few))]
#[unsafe(no_mangle)]
pub extern "C" fn simmerpath_unquote_string(literal: &[u8], documented: u32, text: &mut [u8]) -> u64
    ensures value { result ≡ unquote_code (unquoting_of (reading_of documented) (length text.old) literal.now) }
    ensures text_after { text.new ≡ text_by (unquoting_of (reading_of documented) (length text.old) literal.now) (unquoted (reading_of documented) literal.now) text.old }
{
    match string::unquote_string(literal, reading::reading_of(documented), text) {
        Ok(Unquoted::Written(n)) => n as u64,
        Ok(Unquoted::Inner(n)) => INNER + n as u64,
        Err(refusal) => packing::packed(refusal),
    }
}
