// The C functions over `token`: each answers with one number, and writes what else it gives to what is lent.
// A refusal is answered as `packing` makes it one number.
ghost use Rattle.std.specs.Prelude.{◌≡◌, ◌≤◌, length};
ghost use Rattle.utf8.specs.Writing.{left_by};
ghost use Rattle.token.specs.Display.{display_of, displayed};
ghost use Rattle.token.specs.Words.{keyword_of};
ghost use Rattle.token.specs.Label.{is_label};
ghost use Rattle.exports.specs.Packed.{counted_code};
ghost use Rattle.exports.specs.Token.{keyword_code, flag, classes_code};

use crate::packing;

// No kind has this number: a word that has none of its own is answered with it.
const NO_KIND: u64 = 0x1_0000;

// What each class of a kind is worth.
const OPERATOR: u64 = 1;

const COMPARISON_OPERATOR: u64 = 2;

const SET_OPERATOR: u64 = 4;

const AGGREGATOR: u64 = 8;

const AGGREGATOR_WITH_PARAM: u64 = 16;

// The kind of a word in any case of its letters, or NO_KIND.
#[unsafe(no_mangle)]
pub extern "C" fn simmerpath_get_keyword_token(word: &[u8]) -> u64
    ensures { result ≡ keyword_code (keyword_of word.now) }
{
    match token::get_keyword_token(word) {
        Some(kind) => kind as u64,
        None => NO_KIND,
    }
}

// How many bytes of the text that a kind is shown as were written at the front of a lent buffer, or refusal 3.
#[unsafe(no_mangle)]
pub extern "C" fn simmerpath_token_display(kind: u16, out: &mut [u8]) -> u64
    ensures value { result ≡ counted_code (displayed (length out.old) kind) }
    ensures out_after { out.new ≡ left_by (displayed (length out.old) kind) (display_of kind) out.old }
{
    packing::counted(token::token_display(kind, out))
}

// A flag as a number that is worth so much.
fn worth(is: bool, much: u64) -> u64
    ensures value { result ≡ flag is much }
    ensures at_most { result ≤ much }
{
    if is { much } else { 0 }
}

// The classes of a kind, added up.
#[unsafe(no_mangle)]
pub extern "C" fn simmerpath_token_classes(kind: u16) -> u64
    ensures { result ≡ classes_code kind }
{
    let operator = worth(token::is_operator(kind), OPERATOR);
    let comparison = worth(token::is_comparison_operator(kind), COMPARISON_OPERATOR);
    let set = worth(token::is_set_operator(kind), SET_OPERATOR);
    let aggregator = worth(token::is_aggregator(kind), AGGREGATOR);
    let param = worth(token::is_aggregator_with_param(kind), AGGREGATOR_WITH_PARAM);
    operator + comparison + set + aggregator + param
}

// 1 where a text is a label's name, else 0.
#[unsafe(no_mangle)]
pub extern "C" fn simmerpath_is_label(text: &[u8]) -> u64
    ensures { result ≡ flag (is_label text.now) 1 }
{
    worth(token::is_label(text), 1)
}
