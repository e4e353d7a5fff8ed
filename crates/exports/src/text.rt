// The C functions over `utf8`: each answers with one number, and writes what else it gives to what is lent.
// A refusal is answered as `packing` makes it one number.
ghost use Rattle.std.specs.Prelude.{◌≡◌, length};
ghost use Rattle.utf8.specs.Text.{char_number};
ghost use Rattle.utf8.specs.Answers.{text_limit, admitted};
ghost use Rattle.utf8.specs.Code.{encoded};
ghost use Rattle.utf8.specs.Encode.{encoding_of};
ghost use Rattle.utf8.specs.Writing.{left_at};
ghost use Rattle.exports.specs.Packed.{counted_code};
ghost use Rattle.exports.specs.Utf8.{validate_code, char_at_code, char_at_left};

use crate::packing;
use utf8::{ByteOffset, Character, encode};

// The number of characters of a text, or refusal 1 or 2.
#[unsafe(no_mangle)]
pub extern "C" fn simmerpath_utf8_validate(text: &[u8]) -> u64
    ensures { result ≡ validate_code (admitted text_limit text.now) }
{
    match utf8::admit(text, utf8::TEXT_LIMIT) {
        Ok(count) => count.0 as u64,
        Err(refusal) => packing::packed(refusal),
    }
}

// How many characters of a text begin before a byte offset.
#[unsafe(no_mangle)]
pub extern "C" fn simmerpath_utf8_char_number(text: &[u8], to: usize) -> u64
    ensures { result ≡ char_number text.now to }
{
    utf8::char_number(text, ByteOffset(to)).0 as u64
}

// The length of the character at a byte offset, whose code point it writes; 0 past the end; or refusal 1 or 2.
#[tactic(auto, unfolding(crate::specs::Utf8::char_at_code, crate::specs::Utf8::char_at_left))]
#[unsafe(no_mangle)]
pub extern "C" fn simmerpath_utf8_char_at(text: &[u8], at: usize, code: &mut u32) -> u64
    ensures value { result ≡ char_at_code text.now at }
    ensures code_after { code.new ≡ char_at_left text.now at code.old }
{
    if utf8::TEXT_LIMIT < text.len() {
        return packing::packed_at_start(utf8::TOO_LONG);
    }
    match utf8::char_at(text, ByteOffset(at)) {
        Character::Scalar { code: point, size } => {
            *code = point;
            size as u64
        }
        Character::Nothing => 0,
        Character::IllFormed => {
            packing::packed(utf8::refused_at(text, utf8::NOT_UTF8, ByteOffset(at)))
        }
    }
}

// How many bytes of a code point were written at an offset of a lent buffer, or refusal 40, where it is no character's, or 3.
#[unsafe(no_mangle)]
pub extern "C" fn simmerpath_utf8_encode(code: u32, out: &mut [u8], at: usize) -> u64
    ensures value { result ≡ counted_code (encoding_of code (length out.old) at) }
    ensures out_after { out.new ≡ left_at at (encoding_of code (length out.old) at) (encoded code) out.old }
{
    packing::counted(encode::encode(code, out, ByteOffset(at)))
}
