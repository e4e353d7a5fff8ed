// Unit texts, as `1d12h`: numbers of years, weeks, days, hours, minutes, seconds and milliseconds, each at most once and in this order.
ghost use Rattle.std.specs.Prelude.{◌≡◌, ◌+◌, ◌*◌, ◌^◌, ◌≤◌, length, ◌||◌, ltb};
ghost use Rattle.duration.specs.Unit.{second};
ghost use Rattle.duration.specs.Units.{counted, lasting, units_of};
ghost use Rattle.duration.specs.steps.Units.{unit_of, part_of};

use crate::span::Duration;
use crate::unit::{UNITS, Unit};
use decimal::Notation;
use scan::byte::Class;

// What a unit text amounts to, and whether a part of it is oversized, which counts as nothing.
#[derive(Clone, Copy)]
pub struct Sum {
    pub lasts: Duration,
    pub oversized: bool,
}

// A part that a text begins with: its number, and how many bytes it has.
#[derive(Clone, Copy)]
struct Part {
    number: u64,
    size: usize,
}

// The greatest number of a part that counts.
const MOST_COUNTED: u64 = 0xffff_ffff;

// What a part's number counts for.
#[tactic(auto, unfolding(crate::specs::Units::counted))]
fn counted(n: u64) -> u64
    ensures { result ≡ counted n }
{
    if n <= MOST_COUNTED { n } else { 0 }
}

// The part of a unit that a text begins with; none where it begins with no such part.
#[tactic(auto, unfolding(crate::specs::steps::Units::part_of, crate::specs::Units::is_part), using(crate::proofs::units::Parts::part_within, crate::proofs::units::Parts::digits_taken))]
fn part_of(text: &[u8], unit: Unit) -> Option<Part>
    ensures { result ≡ part_of text.now (unit_of unit) }
{
    let digits = scan::run_end(Class::Digit, text, 0);
    if digits == 0 {
        return None;
    }
    let end = scan::run_end(Class::Alpha, text, digits);
    if !scan::is_text(&text[digits..end], unit.text()) {
        return None;
    }
    Some(Part {
        number: decimal::digits_value(0, Notation::Decimal, &text[..digits]),
        size: end,
    })
}

// So many seconds and milliseconds as a duration.
fn lasting(secs: u64, millis: u64) -> Duration
    requires { (secs ≤ 2 ^ 62) × (millis ≤ 2 ^ 62) }
    ensures { result ≡ lasting (secs * second + millis) }
{
    Duration {
        secs: secs + millis / Duration::SECOND,
        nanos: (millis % Duration::SECOND * Duration::NANOS_A_MILLI) as u32,
    }
}

// Reads a unit text; none where the text is no such text.
#[tactic(auto, using(crate::proofs::units::Steps::part_inside))]
pub fn read_units(s: &[u8]) -> Option<Sum>
    ensures { result ≡ units_of s.now }
{
    let mut rest = s;
    let mut secs = 0;
    let mut millis = 0;
    let mut oversized = false;
    for unit in UNITS {
        let Some(part) = part_of(rest, unit) else {
            continue;
        };
        let number = counted(part.number);
        secs += number * (unit.size() / Duration::SECOND);
        millis += number * (unit.size() % Duration::SECOND);
        oversized |= MOST_COUNTED < part.number;
        rest = &rest[part.size..];
    }
    if !rest.is_empty() {
        return None;
    }
    Some(Sum {
        lasts: lasting(secs, millis),
        oversized,
    })
}
