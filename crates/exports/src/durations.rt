// The C functions over `duration`: each answers with one number, and writes what else it gives to what is lent.
// A refusal is answered as `packing` makes it one number.
ghost use Rattle.std.specs.Prelude.{◌≡◌, length};
ghost use Rattle.utf8.specs.Writing.{left_by};
ghost use Rattle.duration.specs.Duration.{timing_of, exact_timing_of};
ghost use Rattle.duration.specs.Display.{duration_text, displaying_of};
ghost use Rattle.exports.specs.Packed.{counted_code};
ghost use Rattle.exports.specs.Duration.{duration_code, secs_left, nanos_left, duration_of};

use crate::packing;
use duration::display;
use duration::span::Duration;
use utf8::Refusal;

// 0 for an answer that is a duration, whose seconds and nanoseconds it writes; or the refusal.
fn told(t: Result<Duration, Refusal>, secs: &mut u64, nanos: &mut u32) -> u64
    ensures value { result ≡ duration_code t }
    ensures secs_after { secs.new ≡ secs_left t secs.old }
    ensures nanos_after { nanos.new ≡ nanos_left t nanos.old }
{
    match t {
        Ok(d) => {
            *secs = d.secs;
            *nanos = d.nanos;
            0
        }
        Err(refusal) => packing::packed(refusal),
    }
}

// 0 for a duration, whose seconds and nanoseconds it writes; or refusal 1, 2 or 50 to 54.
#[unsafe(no_mangle)]
pub extern "C" fn simmerpath_parse_duration(text: &[u8], secs: &mut u64, nanos: &mut u32) -> u64
    ensures value { result ≡ duration_code (timing_of text.now) }
    ensures secs_after { secs.new ≡ secs_left (timing_of text.now) secs.old }
    ensures nanos_after { nanos.new ≡ nanos_left (timing_of text.now) nanos.old }
{
    told(duration::parse_duration(text), secs, nanos)
}

// The same without loss of a part: one whose number is above 4,294,967,295 is refused with 55.
#[unsafe(no_mangle)]
pub extern "C" fn simmerpath_parse_duration_exact(
    text: &[u8],
    secs: &mut u64,
    nanos: &mut u32,
) -> u64
    ensures value { result ≡ duration_code (exact_timing_of text.now) }
    ensures secs_after { secs.new ≡ secs_left (exact_timing_of text.now) secs.old }
    ensures nanos_after { nanos.new ≡ nanos_left (exact_timing_of text.now) nanos.old }
{
    told(duration::parse_duration_exact(text), secs, nanos)
}

// How many bytes of a duration's text were written at the front of a lent buffer, or refusal 54 or 3.
#[unsafe(no_mangle)]
pub extern "C" fn simmerpath_display_duration(secs: u64, nanos: u32, out: &mut [u8]) -> u64
    ensures value { result ≡ counted_code (displaying_of (length out.old) (duration_of secs nanos)) }
    ensures out_after { out.new ≡ left_by (displaying_of (length out.old) (duration_of secs nanos)) (duration_text (duration_of secs nanos)) out.old }
{
    packing::counted(display::display_duration(Duration { secs, nanos }, out))
}
