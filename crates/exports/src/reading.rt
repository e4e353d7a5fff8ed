// The reading as a number, which is how the C functions take it.
ghost use Rattle.std.specs.Prelude.{◌≡◌};
ghost use Rattle.exports.specs.Reading.{reading_of};

use utf8::Reading;

// The reading that a number stands for: 0 is the Rust's, and any other the documented one.
#[tactic(auto, unfolding(crate::specs::Reading::reading_of))]
pub fn reading_of(documented: u32) -> Reading
    ensures { result ≡ reading_of documented }
{
    if documented == 0 {
        Reading::Crate
    } else {
        Reading::Documented
    }
}
