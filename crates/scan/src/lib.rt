// Texts of bytes: where a run of a class ends, whether two texts are one, and whether a byte stands in a text.
#![tactic(auto)]

pub mod byte;
pub mod separated;
pub mod sign;

ghost use Rattle.std.specs.Prelude.{◌≡◌};
ghost use Rattle.scan.specs.Byte.{is_in};
ghost use Rattle.scan.specs.Run.{run_end};
ghost use Rattle.scan.specs.Text.{same_text, has};

use crate::byte::Class;

// Where the run of the class that starts at `from` ends: there, where no byte of the class stands there.
pub fn run_end(k: Class, s: &[u8], from: usize) -> usize
    ensures { result ≡ run_end (is_in k) s.now from }
{
    for n in from..s.len() {
        if !byte::is_in(k, s[n] as usize) {
            return n;
        }
    }
    from.max(s.len())
}

// Whether two texts are the same.
#[tactic(auto, unfolding(crate::specs::Text::same_text))]
pub fn is_text(text: &[u8], word: &[u8]) -> bool
    ensures { result ≡ same_text text.now word.now }
{
    text == word
}

// Whether a list has the byte.
#[tactic(auto, unfolding(crate::specs::Text::has))]
pub fn contains(s: &[u8], c: u8) -> bool
    ensures { result ≡ has c s.now }
{
    // Of texts as short as these, std's `contains`, which looks at many bytes at once, was slower.
    s.iter().any(|x| *x == c)
}
