// A refusal as one number of 64 bits, as the C functions answer it: bit 63, document 01's number, the byte offset and the
// character number.
ghost use Rattle.std.specs.Prelude.{◌≡◌};
ghost use Rattle.utf8.specs.Answers.{at_start};
ghost use Rattle.exports.specs.Packed.{low_of, packed_of, counted_code};

use utf8::Refusal;

// Bit 63: an answer from here on is a refusal.
const REFUSED: u64 = 0x8000_0000_0000_0000;

// What one refusal number is worth, and one byte of its place.
const NUMBER_UNIT: u64 = 0x1_0000_0000;

const BYTE_UNIT: u64 = 0x1_0000;

// How many values a part has: it has 16 bits.
const PART: usize = 0x1_0000;

// The low 16 bits of a number.
fn low(x: usize) -> u64
    ensures { result ≡ low_of x }
{
    (x % PART) as u64
}

// A refusal as one number.
pub fn packed(r: Refusal) -> u64
    ensures { result ≡ packed_of r }
{
    REFUSED
        + low(r.number) * NUMBER_UNIT
        + low(r.place.byte.0) * BYTE_UNIT
        + low(r.place.character.0)
}

// A refusal that names no place of a text, as one number.
pub fn packed_at_start(number: usize) -> u64
    ensures { result ≡ packed_of (at_start number) }
{
    packed(utf8::at_start(number))
}

// How many there are of something, or the refusal, as one number.
pub(crate) fn counted(answer: Result<usize, Refusal>) -> u64
    ensures { result ≡ counted_code answer }
{
    match answer {
        Ok(n) => n as u64,
        Err(refusal) => packed(refusal),
    }
}
