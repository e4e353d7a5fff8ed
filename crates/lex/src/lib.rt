// Lexing a query, in a reading, to four lent lists. A pass reads it into lists of the lexer's own, so that nothing lent is written before the
// query is measured; where all lexemes had room there they are copied, and otherwise a second pass writes them. A refused query writes nothing.
#![tactic(auto)]

mod query;

ghost use Rattle.std.specs.Prelude.{◌≡◌, ◌++◌, ◌≤◌, length, take, drop};
ghost use Rattle.utf8.specs.Answers.{text_limit};
ghost use Rattle.lex.specs.Lex.{entries_of, measured, roomed, lexed, listed, left_after, kind_of, starts_at, length_of, depth_of, shortest};
ghost use Rattle.lex.specs.steps.Tally.{tally_of, answer_in};

use crate::query::{Query, Run};
use munch::tables::Tables;
use quoted::Fault;
use utf8::{ByteOffset, Reading, Refusal};

// How many lexemes a text has, by a pass over it, or why it is refused.
fn answer_in(query: &[u8], run: Result<Run, Fault>) -> Result<usize, Refusal>
    ensures { result ≡ answer_in query.now run }
{
    match run {
        Ok(run) => Ok(run.count),
        Err(fault) => Err(utf8::refused_at(query, fault.number, ByteOffset(fault.at))),
    }
}

// How many lexemes a query has, its end included, or why it is refused: a pass that has no room.
#[tactic(auto, unfolding(crate::specs::Lex::measured), using(utf8::proofs::Given::admitted_text, crate::proofs::Tallies::tally_measured))]
pub fn measure(query: &[u8], reading: Reading) -> Result<usize, Refusal>
    ensures { result ≡ measured reading query.now }
{
    utf8::admit(query, utf8::TEXT_LIMIT)?;
    let tables = Tables::new();
    let run = Query {
        text: query,
        reading,
        tables: &tables,
    }
    .pass(&mut [], &mut [], &mut [], &mut []);
    answer_in(query, run)
}

// The least of four numbers.
fn shortest(a: usize, b: usize, c: usize, d: usize) -> usize
    ensures { result ≡ shortest a b c d }
{
    a.min(b).min(c).min(d)
}

// Copies the first n of four lists.
fn copy(
    n: usize,
    ks: &[u16],
    ss: &[u32],
    ls: &[u32],
    ds: &[u32],
    kinds: &mut [u16],
    starts: &mut [u32],
    lengths: &mut [u32],
    depths: &mut [u32],
)
    requires filled { (n ≤ length ks.now) × (n ≤ length ss.now) × (n ≤ length ls.now) × (n ≤ length ds.now) }
    requires room { (n ≤ length kinds.old) × (n ≤ length starts.old) × (n ≤ length lengths.old) × (n ≤ length depths.old) }
    ensures kinds_after { kinds.new ≡ take n ks.now ++ drop n kinds.old }
    ensures starts_after { starts.new ≡ take n ss.now ++ drop n starts.old }
    ensures lengths_after { lengths.new ≡ take n ls.now ++ drop n lengths.old }
    ensures depths_after { depths.new ≡ take n ds.now ++ drop n depths.old }
{
    kinds[..n].copy_from_slice(&ks[..n]);
    starts[..n].copy_from_slice(&ss[..n]);
    lengths[..n].copy_from_slice(&ls[..n]);
    depths[..n].copy_from_slice(&ds[..n]);
}

// Writes the n lexemes of a query to the fronts of lists that have room for them.
fn write(
    query: &Query,
    n: usize,
    kinds: &mut [u16],
    starts: &mut [u32],
    lengths: &mut [u32],
    depths: &mut [u32],
)
    requires counted { n ≡ length (entries_of query.now.reading query.now.text.now) }
    requires room { (n ≤ length kinds.old) × (n ≤ length starts.old) × (n ≤ length lengths.old) × (n ≤ length depths.old) }
    ensures kinds_after { kinds.new ≡ listed query.now.reading kind_of query.now.text.now kinds.old }
    ensures starts_after { starts.new ≡ listed query.now.reading starts_at query.now.text.now starts.old }
    ensures lengths_after { lengths.new ≡ listed query.now.reading length_of query.now.text.now lengths.old }
    ensures depths_after { depths.new ≡ listed query.now.reading depth_of query.now.text.now depths.old }
{
    let _ = query.pass(
        &mut kinds[..n],
        &mut starts[..n],
        &mut lengths[..n],
        &mut depths[..n],
    );
}

// Lexes a query to four lent lists, by a pass that writes to lists of the lexer's own first, which have room for N lexemes.
fn lex_text<const N: usize>(
    query: &Query,
    kinds: &mut [u16],
    starts: &mut [u32],
    lengths: &mut [u32],
    depths: &mut [u32],
) -> Result<usize, Refusal>
    requires { N ≤ text_limit }
    ensures value { result ≡ roomed (shortest (length kinds.old) (length starts.old) (length lengths.old) (length depths.old)) (answer_in query.now.text.now (tally_of query.now.reading query.now.text.now)) }
    ensures kinds_after { kinds.new ≡ left_after result (listed query.now.reading kind_of query.now.text.now kinds.old) kinds.old }
    ensures starts_after { starts.new ≡ left_after result (listed query.now.reading starts_at query.now.text.now starts.old) starts.old }
    ensures lengths_after { lengths.new ≡ left_after result (listed query.now.reading length_of query.now.text.now lengths.old) lengths.old }
    ensures depths_after { depths.new ≡ left_after result (listed query.now.reading depth_of query.now.text.now depths.old) depths.old }
{
    let mut ks = [0u16; N];
    let mut ss = [0u32; N];
    let mut ls = [0u32; N];
    let mut ds = [0u32; N];
    let run = query.pass(&mut ks, &mut ss, &mut ls, &mut ds);
    let n = answer_in(query.text, run)?;
    if shortest(kinds.len(), starts.len(), lengths.len(), depths.len()) < n {
        return Err(utf8::at_start(utf8::NO_ROOM));
    }
    if n <= N {
        copy(n, &ks, &ss, &ls, &ds, kinds, starts, lengths, depths);
    } else {
        write(query, n, kinds, starts, lengths, depths);
    }
    Ok(n)
}

// A query of at most so many bytes is short; how many lexemes of it the lexer has lists for, and how many of a longer one.
const SHORT: usize = 256;

const FEW: usize = 64;

const MANY: usize = 1024;

// Lexes a query to four lent lists, which it leaves as they were where it refuses.
#[tactic(auto, unfolding(crate::specs::Lex::lexed, crate::specs::Lex::measured), using(utf8::proofs::Given::admitted_text, crate::proofs::Tallies::tally_measured))]
pub fn lexer(
    query: &[u8],
    reading: Reading,
    kinds: &mut [u16],
    starts: &mut [u32],
    lengths: &mut [u32],
    depths: &mut [u32],
) -> Result<usize, Refusal>
    ensures value { result ≡ lexed reading (shortest (length kinds.old) (length starts.old) (length lengths.old) (length depths.old)) query.now }
    ensures kinds_after { kinds.new ≡ left_after result (listed reading kind_of query.now kinds.old) kinds.old }
    ensures starts_after { starts.new ≡ left_after result (listed reading starts_at query.now starts.old) starts.old }
    ensures lengths_after { lengths.new ≡ left_after result (listed reading length_of query.now lengths.old) lengths.old }
    ensures depths_after { depths.new ≡ left_after result (listed reading depth_of query.now depths.old) depths.old }
{
    utf8::admit(query, utf8::TEXT_LIMIT)?;
    let tables = Tables::new();
    let query = Query {
        text: query,
        reading,
        tables: &tables,
    };
    if query.text.len() <= SHORT {
        lex_text::<FEW>(&query, kinds, starts, lengths, depths)
    } else {
        lex_text::<MANY>(&query, kinds, starts, lengths, depths)
    }
}
