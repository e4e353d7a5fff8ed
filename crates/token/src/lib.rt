// Token names and words: the kinds of lexemes, the classes of kinds, the text that a kind is shown as, the words that have a kind of
// their own, and labels. A kind is a number of document 01; every other number has no class and is shown as an unknown token.
#![tactic(auto)]

pub mod kinds;

ghost use Rattle.std.specs.Prelude.{◌≡◌, ◌++◌, map, ◌≤◌, ◌<◌, length, drop};
ghost use Rattle.scan.specs.Byte.{lowered};
ghost use Rattle.utf8.specs.Writing.{left_by};
ghost use Rattle.token.specs.Classes.{is_operator, is_comparison_operator, is_set_operator, is_aggregator, is_aggregator_with_param};
ghost use Rattle.token.specs.Display.{display_of, displayed};
ghost use Rattle.token.specs.Words.{keyword_of};
ghost use Rattle.token.specs.steps.WordRows.{widest_word, word_row, slot_of, word_table, is_row, keyword_in};
ghost use Rattle.token.specs.Label.{is_label};

use scan::byte;
use scan::byte::Class;
use utf8::Refusal;

// An operator.
#[tactic(auto, unfolding(scan::specs::Byte::is_within))]
pub fn is_operator(kind: u16) -> bool
    ensures { result ≡ is_operator kind }
{
    matches!(kind, kinds::T_ADD..=kinds::T_ATAN2)
}

// An operator that compares.
#[tactic(auto, unfolding(scan::specs::Byte::is_within))]
pub fn is_comparison_operator(kind: u16) -> bool
    ensures { result ≡ is_comparison_operator kind }
{
    matches!(kind, kinds::T_EQLC..=kinds::T_GTR)
}

// An operator on sets.
#[tactic(auto, unfolding(scan::specs::Byte::is_within))]
pub fn is_set_operator(kind: u16) -> bool
    ensures { result ≡ is_set_operator kind }
{
    matches!(kind, kinds::T_LAND..=kinds::T_LUNLESS)
}

// An aggregator.
#[tactic(auto, unfolding(scan::specs::Byte::is_within))]
pub fn is_aggregator(kind: u16) -> bool
    ensures { result ≡ is_aggregator kind }
{
    matches!(kind, kinds::T_SUM..=kinds::T_LIMIT_RATIO)
}

// An aggregator that takes a parameter.
#[tactic(auto, unfolding(scan::specs::Byte::is_within))]
pub fn is_aggregator_with_param(kind: u16) -> bool
    ensures { result ≡ is_aggregator_with_param kind }
{
    matches!(kind, kinds::T_TOPK..=kinds::T_LIMIT_RATIO)
}

// The text that a kind is shown as.
#[tactic(auto, unfolding(crate::specs::Display::text_in, crate::specs::Display::displays, crate::specs::Display::wordless, crate::specs::Display::own_kinds, crate::specs::Words::words))]
fn display_of(kind: u16) -> &'static [u8]
    ensures { result.now ≡ display_of kind }
{
    match kind {
        kinds::T_EOF => b"<eof>",
        kinds::T_IDENTIFIER => b"{ID}",
        kinds::T_METRIC_IDENTIFIER => b"{Metric_ID}",
        kinds::T_STRING => b"{Str}",
        kinds::T_NUMBER => b"{Num}",
        kinds::T_DURATION => b"[du]",
        kinds::T_LEFT_PAREN => b"(",
        kinds::T_RIGHT_PAREN => b")",
        kinds::T_LEFT_BRACE => b"{",
        kinds::T_RIGHT_BRACE => b"}",
        kinds::T_LEFT_BRACKET => b"[",
        kinds::T_RIGHT_BRACKET => b"]",
        kinds::T_COMMA => b",",
        kinds::T_COLON => b":",
        kinds::T_EQL => b"=",
        kinds::T_ADD => b"+",
        kinds::T_SUB => b"-",
        kinds::T_MUL => b"*",
        kinds::T_DIV => b"/",
        kinds::T_MOD => b"%",
        kinds::T_POW => b"^",
        kinds::T_EQLC => b"==",
        kinds::T_NEQ => b"!=",
        kinds::T_LTE => b"<=",
        kinds::T_LSS => b"<",
        kinds::T_GTE => b">=",
        kinds::T_GTR => b">",
        kinds::T_EQL_REGEX => b"=~",
        kinds::T_NEQ_REGEX => b"!~",
        kinds::T_AT => b"@",
        kinds::T_LAND => b"and",
        kinds::T_LOR => b"or",
        kinds::T_LUNLESS => b"unless",
        kinds::T_ATAN2 => b"atan2",
        kinds::T_SUM => b"sum",
        kinds::T_AVG => b"avg",
        kinds::T_COUNT => b"count",
        kinds::T_MIN => b"min",
        kinds::T_MAX => b"max",
        kinds::T_GROUP => b"group",
        kinds::T_STDDEV => b"stddev",
        kinds::T_STDVAR => b"stdvar",
        kinds::T_TOPK => b"topk",
        kinds::T_BOTTOMK => b"bottomk",
        kinds::T_COUNT_VALUES => b"count_values",
        kinds::T_QUANTILE => b"quantile",
        kinds::T_LIMITK => b"limitk",
        kinds::T_LIMIT_RATIO => b"limit_ratio",
        kinds::T_OFFSET => b"offset",
        kinds::T_BY => b"by",
        kinds::T_WITHOUT => b"without",
        kinds::T_ON => b"on",
        kinds::T_IGNORING => b"ignoring",
        kinds::T_GROUP_LEFT => b"group_left",
        kinds::T_GROUP_RIGHT => b"group_right",
        kinds::T_BOOL => b"bool",
        kinds::T_SMOOTHED => b"smoothed",
        kinds::T_ANCHORED => b"anchored",
        kinds::T_FILL => b"fill",
        kinds::T_FILL_LEFT => b"fill_left",
        kinds::T_FILL_RIGHT => b"fill_right",
        kinds::T_START => b"start",
        kinds::T_END => b"end",
        _ => b"unknown token",
    }
}

// Copies a text to the front of a buffer that it fits, by a loop: what copies in std would have the archive for C ask for `memmove`.
fn copy(text: &[u8], out: &mut [u8])
    requires { length text.now ≤ length out.old }
    ensures { out.new ≡ text.now ++ drop (length text.now) out.old }
{
    for (i, &byte) in text.iter().enumerate() {
        out[i] = byte;
    }
}

// Writes the text that a kind is shown as at the front of a lent buffer; nothing where it has no room.
pub fn token_display(kind: u16, out: &mut [u8]) -> Result<usize, Refusal>
    ensures value { result ≡ displayed (length out.old) kind }
    ensures out_after { out.new ≡ left_by result (display_of kind) out.old }
{
    let text = display_of(kind);
    let n = text.len();
    if out.len() < n {
        return Err(utf8::at_start(utf8::NO_ROOM));
    }
    copy(text, out);
    Ok(n)
}

// How many words have a kind, the bytes of the longest, and those of a row of their table.
const WORD_COUNT: usize = 35;

const WIDEST_WORD: usize = 12;

const WORD_ROW: usize = WIDEST_WORD + 2;

const KIND_AT: usize = WORD_ROW - 1;

// Behind the rows stand so many slots; what the first letter counts for in the slot of a word.
const SLOTS_FROM: usize = WORD_COUNT * WORD_ROW;

const SLOT_COUNT: usize = 128;

const FIRST_WEIGHT: usize = 4;

pub const WORD_TABLE: usize = SLOTS_FROM + SLOT_COUNT;

// The words in the order of the Rust's KEYWORDS: each padded to WIDEST_WORD bytes, then its length and its kind. Behind them, in the slot of each word
// the number of its row. Padding and free slots hold bytes that differ from their neighbours, which are stored faster than runs of one byte.
const WORDS: [u8; WORD_TABLE] = *b"\
    and3456789ab\x03\x23\
    or23456789ab\x02\x24\
    unless6789ab\x06\x25\
    atan256789ab\x05\x26\
    sum3456789ab\x03\x28\
    avg3456789ab\x03\x29\
    count56789ab\x05\x2a\
    min3456789ab\x03\x2b\
    max3456789ab\x03\x2c\
    group56789ab\x05\x2d\
    stddev6789ab\x06\x2e\
    stdvar6789ab\x06\x2f\
    topk456789ab\x04\x30\
    bottomk789ab\x07\x31\
    count_values\x0c\x32\
    quantile89ab\x08\x33\
    limitk6789ab\x06\x34\
    limit_ratiob\x0b\x35\
    offset6789ab\x06\x3c\
    by23456789ab\x02\x3d\
    without789ab\x07\x3e\
    on23456789ab\x02\x3f\
    ignoring89ab\x08\x40\
    group_leftab\x0a\x41\
    group_rightb\x0b\x42\
    bool456789ab\x04\x43\
    smoothed89ab\x08\x44\
    anchored89ab\x08\x45\
    fill456789ab\x04\x46\
    fill_left9ab\x09\x47\
    fill_rightab\x0a\x48\
    start56789ab\x05\x50\
    end3456789ab\x03\x51\
    inf3456789ab\x03\x04\
    nan3456789ab\x03\x04\
    \x00\x01\x02\x13\x04\x06\x06\x07\x1c\x09\x0a\x0e\x0c\x21\x0e\x0f\
    \x10\x09\x12\x16\x14\x1d\x1e\x17\x18\x19\x17\x18\x1c\x1d\x1e\x1f\
    \x20\x10\x22\x00\x01\x07\x03\x04\x05\x22\x11\x08\x15\x0a\x0b\x08\
    \x01\x0f\x0f\x10\x11\x12\x12\x14\x1a\x16\x17\x03\x04\x1a\x1b\x0c\
    \x1d\x1e\x1f\x20\x0b\x1f\x00\x01\x0a\x03\x04\x05\x06\x02\x08\x09\
    \x0a\x0b\x0c\x0d\x0e\x0f\x10\x14\x12\x13\x14\x15\x16\x17\x18\x19\
    \x1a\x1b\x1c\x1d\x1e\x1f\x20\x21\x22\x00\x01\x00\x03\x04\x05\x06\
    \x1b\x08\x09\x0a\x0b\x0c\x0d\x0e\x19\x10\x0d\x20\x13\x14\x15\x16";

// The table of words, to be lent to `keyword_in` for as many words as there are.
pub fn words() -> [u8; WORD_TABLE]
    ensures { result ≡ word_table }
{
    WORDS
}

// The slot of a word, in any case of its letters: by the first, the last and how many there are.
#[tactic(auto, unfolding(crate::specs::steps::WordRows::slot_of))]
fn slot_of(word: &[u8]) -> usize
    requires { (0 < length word.now) × (length word.now ≤ widest_word) }
    ensures { result ≡ slot_of (map lowered word.now) }
{
    let first = byte::lowered(word[0] as usize);
    let last = byte::lowered(word[word.len() - 1] as usize);
    (first * FIRST_WEIGHT + last + word.len()) % SLOT_COUNT
}

// Whether a row of the table holds a word, in any case of its letters, which are compared where they stand.
#[tactic(auto, unfolding(crate::specs::steps::WordRows::is_row))]
fn is_row(row: &[u8], word: &[u8]) -> bool
    requires { (length row.now ≡ word_row) × (length word.now ≤ widest_word) }
    ensures { result ≡ is_row row.now (map lowered word.now) }
{
    if row[WIDEST_WORD] as usize != word.len() {
        return false;
    }
    for (i, &letter) in word.iter().enumerate() {
        if byte::lowered(letter as usize) != row[i] as usize {
            return false;
        }
    }
    true
}

// The kind that a word has of its own, if any, in any case of its letters, by a table: that of the one row that the word's slot names, if it holds the
// word.
#[tactic(auto, unfolding(crate::specs::steps::WordRows::found_at, crate::specs::steps::WordRows::keyword_in, crate::specs::steps::WordRows::slot_of))]
pub fn keyword_in(table: &[u8], word: &[u8]) -> Option<u16>
    ensures { result ≡ keyword_in table.now word.now }
{
    if word.len() == 0 || WIDEST_WORD < word.len() || table.len() < WORD_TABLE {
        return None;
    }
    let number = table[SLOTS_FROM + slot_of(word)] as usize;
    if WORD_COUNT <= number {
        return None;
    }
    let from = number * WORD_ROW;
    let row = &table[from..from + WORD_ROW];
    if is_row(row, word) {
        Some(row[KIND_AT] as u16)
    } else {
        None
    }
}

// The kind that a word has of its own, if any, in any case of its letters.
#[tactic(auto, using(crate::proofs::Lookup::table_finds))]
pub fn get_keyword_token(word: &[u8]) -> Option<u16>
    ensures { result ≡ keyword_of word.now }
{
    keyword_in(&words(), word)
}

// Whether a text is a label's name.
#[tactic(auto, using(crate::proofs::Labels::label_is))]
pub fn is_label(text: &[u8]) -> bool
    ensures { result ≡ is_label text.now }
{
    byte::is_alpha(byte::peek(text, 0)) && scan::run_end(Class::AlphaNumeric, text, 1) == text.len()
}
