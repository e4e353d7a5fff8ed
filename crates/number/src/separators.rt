// The separators of a number's text, as document 02's L2 has them.
ghost use Rattle.std.specs.Prelude.{◌≡◌, ◌≤◌, length, take};
ghost use Rattle.std.proofs.lemmas.List.Edits.{sets};
ghost use Rattle.scan.specs.Separated.{without_separators};
ghost use Rattle.number.specs.Number.{is_hex_text, is_placed};

use scan::byte::Class;
use scan::{byte, separated, sign};
use utf8::Reading;

const HEX_MARK: usize = b'x' as usize;

const PREFIX_LENGTH: usize = 2;

// Whether `0x` begins a text, behind its sign.
fn is_hex_text(t: &[u8]) -> bool
    ensures { result ≡ is_hex_text t.now }
{
    let from = sign::past_sign(t, 0);
    crate::is_zero_at(t, from) && byte::peek(t, from + 1) == HEX_MARK
}

// Whether each separator of a text stands where the reading has it so.
#[tactic(auto, unfolding(crate::specs::Number::is_placed), using(crate::proofs::Marks::zero_inside, crate::proofs::Marks::x_inside))]
pub fn is_placed(t: &[u8], reading: Reading) -> bool
    ensures { result ≡ is_placed reading t.now }
{
    if is_hex_text(t) {
        let from = sign::past_sign(t, 0);
        let digits = &t[from + PREFIX_LENGTH..];
        return separated::is_all_placed(Class::HexDigit, numeral::behind_prefix(reading), digits);
    }
    separated::is_all_placed(Class::Digit, numeral::between_digits(reading), t)
}

// Writes a text without its separators at its own front, and answers how many bytes that is.
pub fn drop_separators(t: &mut [u8]) -> usize
    ensures value { result ≡ length (without_separators t.old) }
    ensures t_after { t.new ≡ sets t.old 0 (without_separators t.old) }
    ensures within { result ≤ length t.new }
    ensures left { take result t.new ≡ without_separators t.old }
{
    let mut n = 0;
    for at in 0..t.len() {
        let byte = t[at];
        if byte != separated::SEPARATOR {
            t[n] = byte;
            n += 1;
        }
    }
    n
}
