// What a byte may begin, as one number that a table of all bytes gives: its class, or the kind of a sign that is whole with its one byte.
ghost use Rattle.std.specs.Prelude.{◌≡◌, ◌≤◌, length};
ghost use Rattle.scan.specs.Run.{run_length};
ghost use Rattle.munch.specs.steps.Leads.{is_sign_lead, is_from};

use crate::BYTES;
use token::kinds;

// The classes. What a word goes on with stands last, so that each of its classes begins with those before: a colon, a digit, a letter.
pub const QUOTE: u8 = b'\'';

pub const WHITE: u8 = b'.';

pub const COLON: u8 = b':';

pub const DIGIT: u8 = b'D';

pub const LETTER: u8 = b'L';

// The signs by their kinds, `-` for all that begins none of these.
pub const LEADS: [u8; BYTES] = *b"\
    ---------..-..--\
    ----------------\
    .-'--\x18-'\x06\x07\x16\x14\x0c\x15-\x17\
    DDDDDDDDDD:-----\
    \x22LLLLLLLLLLLLLLL\
    LLLLLLLLLLL\x0a--\x19L\
    'LLLLLLLLLLLLLLL\
    LLLLLLLLLLL\x08----\
    ----------------\
    ----------------\
    ----------------\
    ----------------\
    ----------------\
    ----------------\
    ----------------\
    ----------------";

// Whether a lead is the kind of a sign.
#[tactic(auto, unfolding(crate::specs::steps::Leads::is_sign_lead, scan::specs::Byte::is_within))]
pub fn is_sign(lead: u8) -> bool
    ensures { result ≡ is_sign_lead lead }
{
    matches!(lead as u16, kinds::T_LEFT_PAREN..=kinds::T_AT)
}

// How many of the first bytes have leads that are `least` or above.
pub fn run_length(leads: &[u8; BYTES], least: u8, s: &[u8]) -> usize
    ensures value { result ≡ run_length (is_from leads.now least) s.now }
    ensures within { result ≤ length s.now }
{
    for (n, &c) in s.iter().enumerate() {
        if leads[c as usize] < least {
            return n;
        }
    }
    s.len()
}
