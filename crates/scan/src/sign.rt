// An optional sign: the place past it, and whether it is a minus.
ghost use Rattle.std.specs.Prelude.{◌≡◌};
ghost use Rattle.scan.specs.Sign.{is_sign, past_sign, is_minus};

use crate::byte;

// A sign.
#[tactic(auto, unfolding(crate::specs::Sign::is_sign))]
fn is_sign(c: usize) -> bool
    ensures { result ≡ is_sign c }
{
    c == b'+' as usize || c == b'-' as usize
}

// The place past a sign, where one stands.
#[tactic(auto, using(crate::proofs::sign::Places::sign_inside))]
pub fn past_sign(s: &[u8], at: usize) -> usize
    ensures { result ≡ past_sign s.now at }
{
    if is_sign(byte::peek(s, at)) {
        at + 1
    } else {
        at
    }
}

// Whether a minus stands at a place.
pub fn is_minus(s: &[u8], at: usize) -> bool
    ensures { result ≡ is_minus s.now at }
{
    byte::peek(s, at) == b'-' as usize
}
