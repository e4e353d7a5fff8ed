// One step of reading a query: what the bytes that are left begin with, by the mode that those before have led to, in a reading.
// Document 01's rows that refuse it are numbered in `refusals`.
#![tactic(auto)]

mod lead;
mod refusals;
mod second;
mod signs;
pub mod tables;
pub mod word;

ghost use Rattle.std.specs.Prelude.{◌≡◌, true, false, ◌<◌, length};
ghost use Rattle.scan.specs.Byte.{peek_at};
ghost use Rattle.munch.specs.Munch.{mode, deeper, number_step, quoted_step, dot_step, comment_step, right_paren_step, end_step, colon_step, step_for, munched};
ghost use Rattle.munch.specs.steps.Leads.{lead_table};
ghost use Rattle.munch.specs.steps.Lent.{word_step_by, brace_word_by, sign_step, other_table, brace_signs, outside_by, brace_by};

use crate::tables::Tables;
use numeral::Numeral;
use scan::byte;
use token::kinds;
use utf8::Reading;

// How many bytes there are, each of which has a lead.
pub const BYTES: usize = 256;

// What is open inside a query's parentheses: nothing, braces, or brackets; of these, whether their colon was seen, and whether they were just
// opened.
#[derive(Clone, Copy)]
pub enum Inside {
    Nothing,
    Braces,
    Brackets { seen: bool, fresh: bool },
}

// How many parentheses are open, and what is in them.
#[derive(Clone, Copy)]
pub struct Mode {
    pub depth: usize,
    pub inside: Inside,
}

// What the bytes that are left begin with: a lexeme, a byte of white space, a comment, what is refused and where, or nothing.
#[derive(Clone, Copy)]
pub enum Step {
    Lexeme {
        kind: u16,
        length: usize,
        mode: Mode,
    },
    Space {
        mode: Mode,
    },
    Comment {
        length: usize,
    },
    Refused {
        number: usize,
        at: usize,
    },
    Finished,
}

// A lexeme of a kind.
fn lexeme(kind: u16, length: usize, mode: Mode) -> Step
    ensures { result ≡ Step.Lexeme kind length mode }
{
    Step::Lexeme { kind, length, mode }
}

// A refusal at an offset.
fn refused(number: usize, at: usize) -> Step
    ensures { result ≡ Step.Refused number at }
{
    Step::Refused { number, at }
}

// One parenthesis more, so far as they can be counted.
#[tactic(auto, unfolding(crate::specs::Munch::deeper))]
fn deeper(depth: usize) -> usize
    ensures { result ≡ deeper depth }
{
    depth.saturating_add(1)
}

// A number, a duration, or neither.
#[tactic(auto, unfolding(crate::specs::Munch::number_step))]
#[inline(always)]
fn number_step(s: &[u8], reading: Reading, mode: Mode) -> Step
    ensures { result ≡ number_step reading mode s.now }
{
    match numeral::scan_number(s, reading) {
        Numeral::Number(length) => lexeme(kinds::T_NUMBER, length, mode),
        Numeral::Duration(length) => lexeme(kinds::T_DURATION, length, mode),
        Numeral::Neither(at) => refused(refusals::NEITHER_NUMBER_NOR_DURATION, at),
    }
}

// A string, or its refusal, one byte on for the opening sign.
#[tactic(auto, unfolding(crate::specs::Munch::quoted_step), using(crate::proofs::Ends::string_there))]
#[inline(always)]
fn quoted_step(s: &[u8], reading: Reading, mode: Mode) -> Step
    requires { 0 < length s.now }
    ensures { result ≡ quoted_step reading mode s.now }
{
    match quoted::accept_string(s[0], &s[1..], reading) {
        Ok(n) => lexeme(kinds::T_STRING, n + 1, mode),
        Err(fault) => refused(fault.number, fault.at + 1),
    }
}

// A comment.
#[tactic(auto, unfolding(crate::specs::Munch::comment_step), using(quoted::proofs::Comments::comment_within))]
fn comment_step(s: &[u8]) -> Step
    requires { 0 < length s.now }
    ensures { result ≡ comment_step s.now }
{
    Step::Comment {
        length: 1 + quoted::comment_end(&s[1..]),
    }
}

// A word outside braces, by the tables of leads and words. It has a colon where it goes on behind the letters and digits that it begins with.
#[tactic(auto, unfolding(crate::specs::steps::Lent::word_step_by))]
fn word_step(leads: &[u8; BYTES], words: &[u8], s: &[u8], mode: Mode) -> Step
    ensures { result ≡ word_step_by leads.now words.now mode s.now }
{
    let label = lead::run_length(leads, lead::DIGIT, s);
    let n = label + lead::run_length(leads, lead::COLON, &s[label..]);
    if label < n {
        return lexeme(kinds::T_METRIC_IDENTIFIER, n, mode);
    }
    let kind = match token::keyword_in(words, &s[..n]) {
        Some(own) => word::kind_by(word::table_rule(own, s, n)),
        None => kinds::T_IDENTIFIER,
    };
    lexeme(kind, n, mode)
}

// A word in braces, by the table of leads.
#[tactic(auto, unfolding(crate::specs::steps::Lent::brace_word_by))]
fn brace_word(leads: &[u8; BYTES], s: &[u8], mode: Mode) -> Step
    ensures { result ≡ brace_word_by leads.now mode s.now }
{
    let n = lead::run_length(leads, lead::DIGIT, s);
    let kind = word::kind_by(word::brace_rule(s, n));
    lexeme(kind, n, mode)
}

// A point outside: a digit has to follow.
#[tactic(auto, unfolding(crate::specs::Munch::dot_step))]
fn dot_step(s: &[u8], reading: Reading, mode: Mode) -> Step
    ensures { result ≡ dot_step reading mode s.now }
{
    let next = byte::peek(s, 1);
    if byte::is_digit(next) {
        number_step(s, reading, mode)
    } else if next == byte::END {
        refused(refusals::END_AFTER_DOT, 0)
    } else {
        refused(refusals::AFTER_DOT, 1)
    }
}

// A closing parenthesis.
#[tactic(auto, unfolding(crate::specs::Munch::right_paren_step))]
fn right_paren(depth: usize) -> Step
    ensures { result ≡ right_paren_step depth }
{
    if depth == 0 {
        refused(refusals::UNMATCHED_PAREN, 0)
    } else {
        let inside = Inside::Nothing;
        lexeme(
            kinds::T_RIGHT_PAREN,
            1,
            Mode {
                depth: depth - 1,
                inside,
            },
        )
    }
}

// The end outside.
#[tactic(auto, unfolding(crate::specs::Munch::end_step))]
fn end_step(depth: usize) -> Step
    ensures { result ≡ end_step depth }
{
    if depth == 0 {
        Step::Finished
    } else {
        refused(refusals::UNCLOSED_PAREN, 0)
    }
}

// A step outside that a sign begins which is whole with its one byte, by its kind.
#[tactic(auto, unfolding(crate::specs::steps::Lent::sign_step))]
fn sign_step(kind: u16, depth: usize) -> Step
    ensures { result ≡ sign_step kind depth }
{
    let (depth, inside) = match kind {
        kinds::T_RIGHT_PAREN => return right_paren(depth),
        kinds::T_LEFT_PAREN => (deeper(depth), Inside::Nothing),
        kinds::T_LEFT_BRACE => (depth, Inside::Braces),
        kinds::T_LEFT_BRACKET => (
            depth,
            Inside::Brackets {
                seen: false,
                fresh: true,
            },
        ),
        _ => (depth, Inside::Nothing),
    };
    lexeme(kind, 1, Mode { depth, inside })
}

// A step outside that a sign begins which others may go on with, or that is refused.
#[tactic(auto, unfolding(crate::specs::steps::Lent::other_table))]
fn other_step(s: &[u8], reading: Reading, here: Mode) -> Step
    requires { 0 < length s.now }
    ensures { result ≡ step_for (other_table reading here) 19 (peek_at s.now 0) s.now }
{
    match s[0] as usize {
        signs::HASH => comment_step(s),
        signs::DOT => dot_step(s, reading, here),
        signs::RIGHT_BRACE => refused(refusals::UNMATCHED_BRACE, 0),
        signs::RIGHT_BRACKET => refused(refusals::UNMATCHED_BRACKET, 0),
        signs::EQUALS => second::equals_step(s, here),
        signs::BANG => second::bang_step(s, here),
        signs::LESS => second::compare_step(s, kinds::T_LTE, kinds::T_LSS, here),
        signs::GREATER => second::compare_step(s, kinds::T_GTE, kinds::T_GTR, here),
        _ => refused(refusals::OTHER, 0),
    }
}

// A step outside braces and brackets, by the tables of leads and words.
#[tactic(auto, unfolding(crate::specs::steps::Lent::outside_by, crate::specs::steps::Lent::outside_led, crate::specs::steps::Leads::starts_word))]
#[inline(always)]
pub fn outside_step(
    leads: &[u8; BYTES],
    words: &[u8],
    s: &[u8],
    reading: Reading,
    depth: usize,
) -> Step
    ensures { result ≡ outside_by reading leads.now words.now depth s.now }
{
    if s.len() == 0 {
        return end_step(depth);
    }
    let here = Mode {
        depth,
        inside: Inside::Nothing,
    };
    match leads[s[0] as usize] {
        lead::WHITE => Step::Space { mode: here },
        sign if lead::is_sign(sign) => sign_step(sign as u16, depth),
        lead::COLON | lead::LETTER => word_step(leads, words, s, here),
        lead::DIGIT => number_step(s, reading, here),
        lead::QUOTE => quoted_step(s, reading, here),
        _ => other_step(s, reading, here),
    }
}

// A step in braces that a sign begins, or that is refused.
#[tactic(auto, unfolding(crate::specs::steps::Lent::brace_signs))]
fn brace_sign(s: &[u8], depth: usize) -> Step
    requires { 0 < length s.now }
    ensures { result ≡ step_for (brace_signs depth) 26 (peek_at s.now 0) s.now }
{
    let here = Mode {
        depth,
        inside: Inside::Braces,
    };
    let outside = Mode {
        depth,
        inside: Inside::Nothing,
    };
    match s[0] as usize {
        signs::HASH => comment_step(s),
        signs::LEFT_BRACE => refused(refusals::BRACE_IN_BRACES, 0),
        signs::RIGHT_BRACE => lexeme(kinds::T_RIGHT_BRACE, 1, outside),
        signs::COMMA => lexeme(kinds::T_COMMA, 1, here),
        signs::EQUALS => second::brace_equals(s, here),
        signs::BANG => second::brace_bang(s, here),
        _ => refused(refusals::OTHER_IN_BRACES, 0),
    }
}

// A step in braces, by the table of leads.
#[tactic(auto, unfolding(crate::specs::steps::Lent::brace_by, crate::specs::steps::Lent::brace_led))]
#[inline(always)]
pub fn brace_step(leads: &[u8; BYTES], s: &[u8], reading: Reading, depth: usize) -> Step
    ensures { result ≡ brace_by reading leads.now depth s.now }
{
    if s.len() == 0 {
        return refused(refusals::END_IN_BRACES, 0);
    }
    let here = Mode {
        depth,
        inside: Inside::Braces,
    };
    match leads[s[0] as usize] {
        lead::WHITE => Step::Space { mode: here },
        lead::LETTER => brace_word(leads, s, here),
        lead::QUOTE => quoted_step(s, reading, here),
        _ => brace_sign(s, depth),
    }
}

// A colon in brackets.
#[tactic(auto, unfolding(crate::specs::Munch::colon_step))]
fn colon_step(depth: usize, seen: bool, fresh: bool) -> Step
    ensures { result ≡ colon_step depth seen fresh }
{
    if seen {
        refused(refusals::SECOND_COLON, 0)
    } else if fresh {
        refused(refusals::COLON_FIRST, 0)
    } else {
        let inside = Inside::Brackets {
            seen: true,
            fresh: false,
        };
        lexeme(kinds::T_COLON, 1, Mode { depth, inside })
    }
}

// A step in brackets.
#[tactic(auto, unfolding(crate::specs::Munch::munched, crate::specs::Munch::step_in, crate::specs::Munch::bracket_table))]
#[inline(always)]
pub fn bracket_step(s: &[u8], reading: Reading, depth: usize, seen: bool, fresh: bool) -> Step
    ensures { result ≡ munched reading (mode depth (Inside.Brackets seen fresh)) s.now }
{
    let here = Mode {
        depth,
        inside: Inside::Brackets { seen, fresh: false },
    };
    let outside = Mode {
        depth,
        inside: Inside::Nothing,
    };
    match byte::peek(s, 0) {
        c if byte::is_space(c) => Step::Space { mode: here },
        c if byte::is_digit(c) => number_step(s, reading, here),
        byte::END => refused(refusals::END_IN_BRACKETS, 0),
        signs::LEFT_BRACKET => refused(refusals::BRACKET_IN_BRACKETS, 0),
        signs::RIGHT_BRACKET => lexeme(kinds::T_RIGHT_BRACKET, 1, outside),
        signs::COLON => colon_step(depth, seen, fresh),
        _ => refused(refusals::OTHER_IN_BRACKETS, 0),
    }
}

// The table of leads, to be lent for as many steps as there are.
pub fn leads() -> [u8; BYTES]
    ensures { result ≡ lead_table }
{
    lead::LEADS
}

// What the bytes that are left begin with.
pub fn munch(s: &[u8], reading: Reading, mode: Mode) -> Step
    ensures { result ≡ munched reading mode s.now }
{
    Tables::new().step(s, reading, mode)
}
