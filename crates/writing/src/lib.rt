// Writing behind each other: a text, or the decimal digits of a number, at a place of a lent list. It is written whole where it
// fits, and else not at all; the answer is the place past it, for what comes next.
#![tactic(auto)]

ghost use Rattle.std.specs.Prelude.{◌≡◌, ◌<◌, ◌≤◌, length, drop};
ghost use Rattle.writing.specs.Decimal.{decimal_base, digit_for, most_digits, decimal_text};
ghost use Rattle.writing.specs.Put.{put_at, past_at};

const ZERO: u8 = b'0';

const DECIMAL_BASE: u64 = 10;

// No number of 64 bits has more digits.
const MOST_DIGITS: usize = 20;

// Writes a text at `at` where it fits, and answers the offset past it, else `at`.
#[tactic(auto, unfolding(crate::specs::Put::put_at, crate::specs::Put::past_at))]
pub fn put_text(out: &mut [u8], at: usize, text: &[u8]) -> usize
    ensures value { result ≡ past_at out.old at text.now }
    ensures out_after { out.new ≡ put_at out.old at text.now }
{
    if out.len() < at || out.len() - at < text.len() {
        return at;
    }
    let end = at + text.len();
    out[at..end].copy_from_slice(text);
    end
}

// The digit that stands for a number below ten.
#[tactic(auto, unfolding(crate::specs::Decimal::digit_for))]
fn digit_for(d: u64) -> u8
    requires { d < decimal_base }
    ensures { result ≡ digit_for d }
{
    ZERO + d as u8
}

// Writes the decimal digits of n at the end of `digits`, and answers where they start.
fn spell(n: u64, digits: &mut [u8]) -> usize
    requires { length digits.old ≡ most_digits }
    ensures upper_bound { result ≤ most_digits }
    ensures digits_after { drop result digits.new ≡ decimal_text n }
{
    let mut i = MOST_DIGITS - 1;
    let mut rest = n;
    // A `while`, since the number says how many places it takes: a `for` over all of them would have an end that is never reached.
    while rest >= DECIMAL_BASE {
        digits[i] = digit_for(rest % DECIMAL_BASE);
        rest /= DECIMAL_BASE;
        i -= 1;
    }
    digits[i] = digit_for(rest);
    i
}

// Writes the shortest decimal digits of n, as `put_text` writes.
pub fn put_decimal(out: &mut [u8], at: usize, n: u64) -> usize
    ensures value { result ≡ past_at out.old at (decimal_text n) }
    ensures out_after { out.new ≡ put_at out.old at (decimal_text n) }
{
    let mut digits = [0u8; MOST_DIGITS];
    let start = spell(n, &mut digits);
    put_text(out, at, &digits[start..])
}
