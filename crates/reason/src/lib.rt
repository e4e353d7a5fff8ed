// Why a word of a query has its kind, by the number of its lexeme: document 02, L10. One pass over the query, with the step that lexing has, looks for the
// lexeme and goes on to the end, since a refused query has no lexemes.
#![tactic(auto)]

ghost use Rattle.std.specs.Prelude.{◌≡◌, ◌≤◌, length};
ghost use Rattle.utf8.specs.Answers.{text_limit};
ghost use Rattle.munch.specs.Word.{is_word_start};
ghost use Rattle.reason.specs.Reason.{word_outside, word_in_braces, wording_of, reason_by, reason_of, reasoned};
ghost use Rattle.reason.specs.steps.Search.{searched, Within, answer_of};

use munch::tables::Tables;
use munch::word::Rule;
use munch::{Inside, Mode, Step, word};
use quoted::Fault;
use scan::byte;
use scan::byte::Class;
use utf8::{ByteOffset, Reading, Refusal};

// The refusals of 02's requests that are given here.
const NO_SUCH_LEXEME: usize = 72;

const NOT_A_WORD: usize = 74;

// The reasons, in 02's order.
pub const OR: usize = 1;

pub const IN_BRACES: usize = 2;

pub const TABLE: usize = 3;

pub const FILL_CALLED: usize = 4;

pub const FILL_ALONE: usize = 5;

pub const WITH_COLON: usize = 6;

pub const PLAIN: usize = 7;

// Where a lexeme begins, and what is open there.
#[derive(Clone, Copy)]
struct Found {
    at: usize,
    mode: Mode,
}

// How many lexemes a text has, and where the one looked for begins; EOF begins nowhere, since no step makes it.
#[derive(Clone, Copy)]
struct Sought {
    count: usize,
    found: Option<Found>,
}

// Reads a text to its end, and looks for the lexeme of a number.
fn search(tables: &Tables, query: &[u8], reading: Reading, wanted: usize) -> Result<Sought, Fault>
    requires { length query.now ≤ text_limit }
    ensures value { result ≡ searched reading wanted query.now }
    ensures within { Within query.now result }
{
    let mut at = 0;
    let mut i = 0;
    let mut mode = Mode {
        depth: 0,
        inside: Inside::Nothing,
    };
    let mut found = None;
    loop {
        let s = tables.step(&query[at..], reading, mode);
        match s {
            Step::Lexeme {
                length,
                mode: next,
                ..
            } => {
                if i == wanted {
                    found = Some(Found { at, mode });
                }
                at += length;
                i += 1;
                mode = next;
            }
            Step::Space { mode: next } => {
                at += 1;
                mode = next;
            }
            Step::Comment { length } => at += length,
            Step::Refused { number, at: offset } => {
                return Err(Fault {
                    number,
                    at: at + offset,
                });
            }
            Step::Finished => {
                return Ok(Sought {
                    count: i + 1,
                    found,
                });
            }
        }
    }
}

// What a word outside braces begins with.
fn is_word_start(c: usize) -> bool
    ensures { result ≡ is_word_start c }
{
    byte::is_alpha(c) || c == b':' as usize
}

// The rule of the word that bytes outside braces begin with, if they do.
#[tactic(auto, unfolding(crate::specs::Reason::word_outside), using(scan::proofs::Runs::run_within, crate::proofs::Starts::start_inside))]
fn outside_word(tables: &Tables, s: &[u8]) -> Option<Rule>
    ensures { result ≡ word_outside s.now }
{
    if is_word_start(byte::peek(s, 0)) {
        let n = scan::run_end(Class::Word, s, 1);
        Some(word::rule_by(tables.keyword(&s[..n]), s, n))
    } else {
        None
    }
}

// The rule of the word that bytes in braces begin with, if they do.
#[tactic(auto, unfolding(crate::specs::Reason::word_in_braces))]
fn brace_word(s: &[u8]) -> Option<Rule>
    ensures { result ≡ word_in_braces s.now }
{
    if byte::is_alpha(byte::peek(s, 0)) {
        let n = scan::run_end(Class::AlphaNumeric, s, 1);
        Some(word::brace_rule(s, n))
    } else {
        None
    }
}

// The rule of the word that bytes begin with, by what is open; brackets hold no words.
fn word_at(tables: &Tables, s: &[u8], inside: Inside) -> Option<Rule>
    ensures { result ≡ wording_of inside s.now }
{
    match inside {
        Inside::Nothing => outside_word(tables, s),
        Inside::Braces => brace_word(s),
        Inside::Brackets { .. } => None,
    }
}

// The reason that a rule is.
fn reason_by(rule: Rule) -> usize
    ensures { result ≡ reason_by rule }
{
    match rule {
        Rule::Or => OR,
        Rule::InBraces => IN_BRACES,
        Rule::Table(_) => TABLE,
        Rule::FillCalled(_) => FILL_CALLED,
        Rule::FillAlone => FILL_ALONE,
        Rule::WithColon => WITH_COLON,
        Rule::Plain => PLAIN,
    }
}

// The reason of the word that bytes begin with, with what is open; a lexeme that is no word has none.
fn reason_of(tables: &Tables, s: &[u8], inside: Inside) -> Result<usize, Refusal>
    ensures { result ≡ reason_of (wording_of inside s.now) }
{
    match word_at(tables, s, inside) {
        Some(rule) => Ok(reason_by(rule)),
        None => Err(utf8::at_start(NOT_A_WORD)),
    }
}

// The reason of the lexeme of a number, by a search for it.
fn answer_of(
    tables: &Tables,
    query: &[u8],
    number: usize,
    sought: Result<Sought, Fault>,
) -> Result<usize, Refusal>
    requires { Within query.now sought }
    ensures { result ≡ answer_of query.now number sought }
{
    match sought {
        Err(fault) => Err(utf8::refused_at(query, fault.number, ByteOffset(fault.at))),
        Ok(sought) if sought.count <= number => Err(utf8::at_start(NO_SUCH_LEXEME)),
        Ok(sought) => match sought.found {
            Some(found) => reason_of(tables, &query[found.at..], found.mode.inside),
            None => Err(utf8::at_start(NOT_A_WORD)),
        },
    }
}

// Why the word that is a query's lexeme of a number has its kind: one of seven reasons, numbered from 1 in 02's order.
#[tactic(auto, unfolding(crate::specs::Reason::reasoned, lex::specs::Lex::measured), using(utf8::proofs::Given::admitted_text))]
pub fn word_reason(query: &[u8], reading: Reading, number: usize) -> Result<usize, Refusal>
    ensures { result ≡ reasoned reading number query.now }
{
    utf8::admit(query, utf8::TEXT_LIMIT)?;
    let tables = Tables::new();
    let sought = search(&tables, query, reading, number);
    answer_of(&tables, query, number, sought)
}
