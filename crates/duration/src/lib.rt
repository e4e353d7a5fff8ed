// Durations: a number of seconds, or parts with units, in a text of at most 256 bytes.
#![tactic(auto)]

pub mod display;
pub mod span;
mod unit;
pub mod units;

ghost use Rattle.std.specs.Prelude.{◌≡◌};
ghost use Rattle.decimal.specs.declared.Decimal.TheVariants.{NotDecimal};
ghost use Rattle.decimal.specs.Value.{decimal_of};
ghost use Rattle.duration.specs.Units.{units_of};
ghost use Rattle.duration.specs.Duration.{seconds_read, units_read, timing_by, timing_of, exact_timing_of};

use crate::span::Duration;
use decimal::{Decimal, Number, short};
use utf8::Refusal;

// Document 01's refusals of a duration besides a decimal's: it is empty, is zero, is none, or is negative or too long.
pub const EMPTY: usize = 50;

pub const ZERO: usize = 51;

pub const NOT_A_DURATION: usize = 52;

pub const OUT_OF_RANGE: usize = 54;

// Document 02's refusal of a part above 4,294,967,295.
pub const OVERSIZED_PART: usize = 55;

// What becomes of such a part: it counts as nothing, as in the Rust, or the text is refused.
#[derive(Clone, Copy)]
pub enum Oversized {
    Ignored,
    Refused,
}

// A number of seconds.
fn seconds(number: Number) -> Result<Duration, Refusal>
    ensures { result ≡ seconds_read number }
{
    span::from_secs_f64(number.value).ok_or(utf8::at_start(OUT_OF_RANGE))
}

// Parts with units.
#[tactic(auto, unfolding(crate::specs::Units::units_of))]
fn unit_text(text: &[u8], oversized: Oversized) -> Result<Duration, Refusal>
    ensures { result ≡ units_read oversized (units_of text.now) }
{
    match units::read_units(text) {
        None => Err(utf8::at_start(NOT_A_DURATION)),
        Some(sum) if matches!(oversized, Oversized::Refused) && sum.oversized => Err(utf8::at_start(
            OVERSIZED_PART,
        )),
        Some(sum) if span::is_zero(sum.lasts) => Err(utf8::at_start(ZERO)),
        Some(sum) => Ok(sum.lasts),
    }
}

// What is no decimal: it is not taken up, is empty, or is parts with units.
#[tactic(auto, unfolding(crate::specs::Duration::timing_by, crate::specs::Duration::duration_read), using(crate::proofs::Taken::no_zero))]
fn other(text: &[u8], oversized: Oversized) -> Result<Duration, Refusal>
    requires { decimal_of text.now ≡ NotDecimal }
    ensures { result ≡ timing_by oversized text.now }
{
    utf8::admit(text, decimal::LIMIT)?;
    if text.is_empty() {
        return Err(utf8::at_start(EMPTY));
    }
    unit_text(text, oversized)
}

// Reads a duration. A decimal comes first, which is UTF-8 and short enough; outside the exact range a positive one has a refusal of its own.
#[tactic(auto, using(crate::proofs::Taken::zero_read, crate::proofs::Taken::exact_read, crate::proofs::Taken::named_read, crate::proofs::Taken::outside_read))]
fn parse(text: &[u8], oversized: Oversized) -> Result<Duration, Refusal>
    ensures { result ≡ timing_by oversized text.now }
{
    match short::read_at_once(text) {
        Decimal::Exact(_) if scan::is_text(text, b"0") => Err(utf8::at_start(ZERO)),
        Decimal::Exact(number) => seconds(number),
        Decimal::Outside(false) => Err(utf8::at_start(decimal::OUTSIDE_EXACT)),
        Decimal::Outside(true) | Decimal::Named(_) => Err(utf8::at_start(OUT_OF_RANGE)),
        Decimal::NotDecimal => other(text, oversized),
    }
}

// Reads a duration, of which a part above 4,294,967,295 counts as nothing.
pub fn parse_duration(text: &[u8]) -> Result<Duration, Refusal>
    ensures { result ≡ timing_of text.now }
{
    parse(text, Oversized::Ignored)
}

// Reads a duration without loss of a part: one with such a part is refused.
pub fn parse_duration_exact(text: &[u8]) -> Result<Duration, Refusal>
    ensures { result ≡ exact_timing_of text.now }
{
    parse(text, Oversized::Refused)
}
