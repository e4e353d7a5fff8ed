// The C function over `number`: it answers with one number, and writes the bits of the value to what is lent.
// A refusal is answered as `packing` makes it one number.
ghost use Rattle.std.specs.Prelude.{◌≡◌};
ghost use Rattle.number.specs.Number.{parsing_of};
ghost use Rattle.exports.specs.Number.{notation_code, parse_code, parse_left};
ghost use Rattle.exports.specs.Reading.{reading_of};

use crate::{packing, reading};
use decimal::Notation;

// A notation as a number.
fn notation_code(notation: Notation) -> u64
    ensures { result ≡ notation_code notation }
{
    match notation {
        Notation::Decimal => 0,
        Notation::Hex => 1,
        Notation::Octal => 2,
    }
}

// The notation of a number in a reading, the bits of whose value it writes; or refusal 1, 2, 53, 60 or 61.
#[unsafe(no_mangle)]
pub extern "C" fn simmerpath_parse_str_radix(text: &[u8], documented: u32, bits: &mut u64) -> u64
    ensures value { result ≡ parse_code (parsing_of (reading_of documented) text.now) }
    ensures bits_after { bits.new ≡ parse_left (parsing_of (reading_of documented) text.now) bits.old }
{
    match number::parse_str_radix(text, reading::reading_of(documented)) {
        Ok(number) => {
            *bits = decimal::bits_of(number.value);
            notation_code(number.notation)
        }
        Err(refusal) => packing::packed(refusal),
    }
}
