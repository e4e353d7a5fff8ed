// Writing a code point in UTF-8 (RFC 3629): whether it is a character's, how many bytes it has, and those bytes, in a lent buffer.
ghost use Rattle.std.specs.Prelude.{◌≡◌, true, ◌+◌, ◌≤◌, length};
ghost use Rattle.std.proofs.lemmas.List.Edits.{sets};
ghost use Rattle.utf8.specs.Code.{is_scalar, six_bits, encoded};
ghost use Rattle.utf8.specs.Encode.{encoding_of};
ghost use Rattle.utf8.specs.Writing.{left_at};

use crate::{ByteOffset, Refusal};

// The refusal of a code point that is no character's, for which document 01 has no row: that of a literal with an escape of one.
pub const NOT_SCALAR: usize = 40;

// The greatest code point, and the surrogates, which are no characters.
const LAST_CODE: u32 = 0x10ffff;

const FIRST_SURROGATE: u32 = 0xd800;

const LAST_SURROGATE: u32 = 0xdfff;

// The greatest code points of one byte, of two and of three.
const LAST_OF_ONE: u32 = 0x7f;

const LAST_OF_TWO: u32 = 0x7ff;

const LAST_OF_THREE: u32 = 0xffff;

// What marks the first of two bytes, of three and of four, and a byte that goes on.
const MARK_OF_TWO: u32 = 0xc0;

const MARK_OF_THREE: u32 = 0xe0;

const MARK_OF_FOUR: u32 = 0xf0;

const MARK_OF_TAIL: u32 = 0x80;

// How many values the bits have that one byte which goes on takes, two and three.
const SIX_BITS: u32 = 64;

const TWELVE_BITS: u32 = SIX_BITS * SIX_BITS;

const EIGHTEEN_BITS: u32 = SIX_BITS * TWELVE_BITS;

// Whether a code point is a character: not a surrogate, and at most 10FFFF.
#[tactic(auto, unfolding(crate::specs::Code::is_scalar))]
pub fn is_scalar(code: u32) -> bool
    ensures { result ≡ is_scalar code }
{
    code <= LAST_CODE && (code < FIRST_SURROGATE || LAST_SURROGATE < code)
}

// The last six bits of x, as a byte that goes on with a character.
#[tactic(auto, unfolding(crate::specs::Code::six_bits))]
fn six_bits(x: u32) -> u8
    ensures { result ≡ six_bits x }
{
    (MARK_OF_TAIL + x % SIX_BITS) as u8
}

// How many bytes the character of a code point has.
#[tactic(auto, unfolding(crate::specs::Code::encoded))]
pub fn encoded_size(code: u32) -> usize
    ensures { result ≡ length (encoded code) }
{
    match code {
        ..=LAST_OF_ONE => 1,
        ..=LAST_OF_TWO => 2,
        ..=LAST_OF_THREE => 3,
        _ => 4,
    }
}

// Writes the bytes of a code point, for which the caller has seen that there is room.
#[tactic(auto, unfolding(crate::specs::Code::is_scalar, crate::specs::Code::encoded))]
fn write_code(code: u32, out: &mut [u8], at: usize)
    requires scalar { is_scalar code ≡ true }
    requires room { at + length (encoded code) ≤ length out.old }
    ensures { out.new ≡ sets out.old at (encoded code) }
{
    match code {
        ..=LAST_OF_ONE => out[at] = code as u8,
        ..=LAST_OF_TWO => {
            out[at] = (MARK_OF_TWO + code / SIX_BITS) as u8;
            out[at + 1] = six_bits(code);
        }
        ..=LAST_OF_THREE => {
            out[at] = (MARK_OF_THREE + code / TWELVE_BITS) as u8;
            out[at + 1] = six_bits(code / SIX_BITS);
            out[at + 2] = six_bits(code);
        }
        _ => {
            out[at] = (MARK_OF_FOUR + code / EIGHTEEN_BITS) as u8;
            out[at + 1] = six_bits(code / TWELVE_BITS);
            out[at + 2] = six_bits(code / SIX_BITS);
            out[at + 3] = six_bits(code);
        }
    }
}

// Writes the bytes of a code point at an offset of a lent buffer; nothing where it is no character's, or else has no room.
#[tactic(auto, unfolding(crate::specs::Encode::encoding_of), using(crate::proofs::Inverse::encoded_some, crate::proofs::encode::Bounds::written_sets))]
pub fn encode(code: u32, out: &mut [u8], at: ByteOffset) -> Result<usize, Refusal>
    ensures value { result ≡ encoding_of code (length out.old) at.0 }
    ensures out_after { out.new ≡ left_at at.0 result (encoded code) out.old }
{
    if !is_scalar(code) {
        return Err(crate::at_start(NOT_SCALAR));
    }
    let size = encoded_size(code);
    if out.len() < at.0 || out.len() - at.0 < size {
        return Err(crate::at_start(crate::NO_ROOM));
    }
    write_code(code, out, at.0);
    Ok(size)
}
