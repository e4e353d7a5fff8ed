// The rule that gives a word its kind. A word is the first n bytes of those that are left.
ghost use Rattle.std.specs.Prelude.{◌≡◌, Some};
ghost use Rattle.munch.specs.Word.{is_fill, has_colon, past_white, rule_by, is_or, brace_rule, kind_by};

use scan::byte;
use scan::byte::Class;
use token::kinds;

// `or` before a space in braces, any other word in braces; outside braces a word of the table that is no fill word, a fill word with `(`
// next, white space aside, and without; a word with a colon, and any other.
#[derive(Clone, Copy)]
pub enum Rule {
    Or,
    InBraces,
    Table(u16),
    FillCalled(u16),
    FillAlone,
    WithColon,
    Plain,
}

// How many bytes `or` has.
const OR_LENGTH: usize = 2;

// The kind of a fill word.
#[tactic(auto, unfolding(crate::specs::Word::is_fill, scan::specs::Byte::is_within))]
fn is_fill(kind: u16) -> bool
    ensures { result ≡ is_fill kind }
{
    matches!(kind, kinds::T_FILL..=kinds::T_FILL_RIGHT)
}

// Whether a word has a colon.
fn has_colon(s: &[u8], n: usize) -> bool
    ensures { result ≡ has_colon s.now n }
{
    scan::contains(&s[..n.min(s.len())], b':')
}

// Where the white space behind a word ends.
fn past_white(s: &[u8], n: usize) -> usize
    ensures { result ≡ past_white s.now n }
{
    scan::run_end(Class::Space, s, n)
}

// The rule of a word of the table outside braces, by its kind.
#[tactic(auto, unfolding(crate::specs::Word::rule_by))]
pub fn table_rule(kind: u16, s: &[u8], n: usize) -> Rule
    ensures { result ≡ rule_by (Some kind) s.now n }
{
    if !is_fill(kind) {
        Rule::Table(kind)
    } else if byte::peek(s, past_white(s, n)) == b'(' as usize {
        Rule::FillCalled(kind)
    } else {
        Rule::FillAlone
    }
}

// The rule of a word outside braces, by the kind that it has of its own.
#[tactic(auto, unfolding(crate::specs::Word::rule_by))]
pub fn rule_by(own: Option<u16>, s: &[u8], n: usize) -> Rule
    ensures { result ≡ rule_by own s.now n }
{
    match own {
        Some(kind) => table_rule(kind, s, n),
        None if has_colon(s, n) => Rule::WithColon,
        None => Rule::Plain,
    }
}

// Whether a word is `or` in any case, with a space next.
#[tactic(auto, using(crate::proofs::word::Words::or_letters, crate::proofs::word::Words::or_other))]
fn is_or(s: &[u8], n: usize) -> bool
    ensures { result ≡ is_or s.now n }
{
    n == OR_LENGTH
        && byte::lowered(byte::peek(s, 0)) == b'o' as usize
        && byte::lowered(byte::peek(s, 1)) == b'r' as usize
        && byte::peek(s, OR_LENGTH) == b' ' as usize
}

// The rule of a word in braces.
#[tactic(auto, unfolding(crate::specs::Word::brace_rule))]
pub fn brace_rule(s: &[u8], n: usize) -> Rule
    ensures { result ≡ brace_rule s.now n }
{
    if is_or(s, n) {
        Rule::Or
    } else {
        Rule::InBraces
    }
}

// The kind that a rule gives.
#[tactic(auto, unfolding(crate::specs::Word::kind_by))]
pub fn kind_by(rule: Rule) -> u16
    ensures { result ≡ kind_by rule }
{
    match rule {
        Rule::Or => kinds::T_LOR,
        Rule::Table(kind) | Rule::FillCalled(kind) => kind,
        Rule::WithColon => kinds::T_METRIC_IDENTIFIER,
        Rule::InBraces | Rule::FillAlone | Rule::Plain => kinds::T_IDENTIFIER,
    }
}
