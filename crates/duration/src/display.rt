// A duration is written in its units: its text is put together first, so that a refused call writes nothing.
ghost use Rattle.std.specs.Prelude.{◌≡◌, ◌+◌, ◌*◌, ◌≤◌, ◌<◌, length, take};
ghost use Rattle.std.specs.List.{flat_map};
ghost use Rattle.utf8.specs.Writing.{left_by};
ghost use Rattle.duration.specs.Unit.{units, day, nanos_a_second};
ghost use Rattle.duration.specs.Display.{written, millis_of, duration_text, displaying_of};
ghost use Rattle.duration.specs.steps.Display.{Stored, whole_of, counted_text};

use crate::span::Duration;
use crate::unit::Unit;
use crate::{OUT_OF_RANGE, span};
use utf8::Refusal;

const SECONDS_A_DAY: u64 = Duration::DAY / Duration::SECOND;

const DAYS_A_WEEK: u64 = Duration::WEEK / Duration::DAY;

const DAYS_A_YEAR: u64 = Duration::YEAR / Duration::DAY;

const ZERO: [u8; 2] = *b"0s";

// No text of a duration has more bytes.
const LONGEST_TEXT: usize = 30;

// How many there are of a unit of so many days that is written only where nothing remains.
#[tactic(auto, using(crate::proofs::display::Days::whole_some, crate::proofs::display::Days::whole_none))]
fn whole(days: u64, rest: u64, size: u64) -> u64
    requires { (0 < size) × (rest < day) }
    ensures { (result ≡ whole_of (size * day) (days * day + rest)) × (result * size ≤ days) }
{
    if rest == 0 && days % size == 0 {
        return days / size;
    }
    0
}

// How many there are of each unit in a duration, of which what is under a millisecond is dropped.
fn parts_of(duration: Duration) -> [(u64, Unit); 7]
    requires { duration.nanos < nanos_a_second }
    ensures { flat_map counted_text result ≡ written units (millis_of duration) }
{
    let all = duration.secs / SECONDS_A_DAY;
    let under = duration.secs % SECONDS_A_DAY * Duration::SECOND
        + duration.nanos as u64 / Duration::NANOS_A_MILLI;
    let years = whole(all, under, DAYS_A_YEAR);
    let left = all - years * DAYS_A_YEAR;
    let weeks = whole(left, under, DAYS_A_WEEK);
    [
        (years, Unit::Year),
        (weeks, Unit::Week),
        (left - weeks * DAYS_A_WEEK, Unit::Day),
        (under / Duration::HOUR, Unit::Hour),
        (under % Duration::HOUR / Duration::MINUTE, Unit::Minute),
        (under % Duration::MINUTE / Duration::SECOND, Unit::Second),
        (under % Duration::SECOND, Unit::Milli),
    ]
}

// Writes a count and its unit at a place where they fit, nothing where there are none, and answers the place past it.
#[tactic(auto, using(crate::proofs::display::Steps::counted_none, crate::proofs::display::Steps::stored_none))]
fn put_part(out: &mut [u8], at: usize, count: u64, unit: Unit) -> usize
    requires { at + length (counted_text (count, unit)) ≤ length out.old }
    ensures { Stored (counted_text (count, unit)) out.old at result out.new }
{
    if count == 0 {
        return at;
    }
    let next = writing::put_decimal(out, at, count);
    writing::put_text(out, next, unit.text())
}

// Writes the text of a duration at the front of a buffer that it fits, and answers how many bytes it has.
fn put_duration(out: &mut [u8], duration: Duration) -> usize
    requires in_range { duration.nanos < nanos_a_second }
    requires fits { length (duration_text duration) ≤ length out.old }
    ensures within { result ≤ length out.new }
    ensures text { take result out.new ≡ duration_text duration }
{
    if span::is_zero(duration) {
        return writing::put_text(out, 0, &ZERO);
    }
    let mut at = 0;
    for (count, unit) in parts_of(duration) {
        at = put_part(out, at, count, unit);
    }
    at
}

// Writes the text of a duration at the front of a lent buffer; nothing where it is refused.
#[tactic(auto, unfolding(crate::specs::Display::displaying_of), using(crate::proofs::display::Bounds::text_few))]
pub fn display_duration(duration: Duration, out: &mut [u8]) -> Result<usize, Refusal>
    ensures value { result ≡ displaying_of (length out.old) duration }
    ensures out_after { out.new ≡ left_by result (duration_text duration) out.old }
{
    if duration.nanos as u64 >= Duration::NANOS_A_SECOND {
        return Err(utf8::at_start(OUT_OF_RANGE));
    }
    let mut text = [0u8; LONGEST_TEXT];
    let end = put_duration(&mut text, duration);
    if out.len() < end {
        return Err(utf8::at_start(utf8::NO_ROOM));
    }
    out[..end].copy_from_slice(&text[..end]);
    Ok(end)
}
