// What the program prints of a query, lexed in the crate reading: a line for each lexeme, or one for the refusal. A text is written whole where
// it fits, and else not at all.
#![tactic(auto)]

ghost use Rattle.std.specs.Prelude.{◌≡◌, ◌+◌, ◌≤◌, length};
ghost use Rattle.writing.specs.Put.{put_at, past_at};
ghost use Rattle.writing.specs.Decimal.{most_digits};
ghost use Rattle.lex.specs.Outcome.{entry};
ghost use Rattle.lex.specs.Lex.{lexed};
ghost use Rattle.lex.specs.steps.Pass.{Alike};
ghost use Rattle.listing.specs.Listing.{most_lexemes, most_numbers, number_then, numbers, refusal, lexeme_text, lexemes_text, zipped, printed_by, printed};
ghost use Rattle.listing.specs.steps.Puts.{most_room, Puts};

use utf8::{Reading, Refusal};

// A longer input is refused.
pub const INPUT_LIMIT: usize = 4_096;

// No input has more lexemes: one for each byte, and its end.
const MOST_LEXEMES: usize = INPUT_LIMIT + 1;

// No lexeme takes more bytes: a number of 16 bits, three of 32 bits, and four signs.
const LONGEST_LEXEME: usize = 39;

// No text that is printed is longer.
const MOST_TEXT: usize = MOST_LEXEMES * LONGEST_LEXEME;

// No line is longer: `refused `, three numbers of 64 bits, and a sign behind each.
const LONGEST_LINE: usize = 71;

// A list of so many bytes has room for a refusal's line behind all that is printed before it, and for four numbers of 64 bits in place of the last lexeme's, so that
// each is written where it stays.
pub const ROOM: usize = MOST_TEXT + LONGEST_LINE;

// Writes a number and what follows it.
fn put_number(out: &mut [u8], at: usize, n: usize, after: &[u8]) -> usize
    requires { at + most_digits + length after.now ≤ length out.old }
    ensures { Puts (number_then n after.now) out.old at result out.new }
{
    let next = writing::put_decimal(out, at, n as u64);
    writing::put_text(out, next, after)
}

// Writes a line's end: three numbers, with a space between them and LF behind.
#[tactic(auto, using(crate::proofs::Few::number_most))]
fn put_numbers(out: &mut [u8], at: usize, first: usize, second: usize, third: usize) -> usize
    requires { at + most_numbers ≤ length out.old }
    ensures { Puts (numbers first second third) out.old at result out.new }
{
    let one = put_number(out, at, first, b" ");
    let two = put_number(out, one, second, b" ");
    put_number(out, two, third, b"\n")
}

// Writes `refused NUMBER BYTE CHARACTER` and LF at `at` where it fits, and answers the offset past it, else `at`.
fn put_refusal(out: &mut [u8], at: usize, r: Refusal) -> usize
    ensures value { result ≡ past_at out.old at (refusal r) }
    ensures out_after { out.new ≡ put_at out.old at (refusal r) }
{
    let mut line = [0u8; LONGEST_LINE];
    let from = writing::put_text(&mut line, 0, b"refused ");
    let end = put_numbers(
        &mut line,
        from,
        r.number,
        r.place.byte.0,
        r.place.character.0,
    );
    writing::put_text(out, at, &line[..end])
}

// Writes a line `KIND START LENGTH DEPTH`.
#[tactic(auto, using(crate::proofs::Few::number_most))]
fn put_lexeme(out: &mut [u8], at: usize, kind: u16, start: u32, size: u32, depth: u32) -> usize
    requires { at + most_digits + 1 + most_numbers ≤ length out.old }
    ensures { Puts (lexeme_text (entry kind start size depth)) out.old at result out.new }
{
    let next = put_number(out, at, kind as usize, b" ");
    put_numbers(out, next, start as usize, size as usize, depth as usize)
}

// Writes a line for each of the lexemes that four lists of one length hold.
fn put_lexemes(
    kinds: &[u16],
    starts: &[u32],
    lengths: &[u32],
    depths: &[u32],
    text: &mut [u8],
) -> usize
    requires kinds_len_bound { (length kinds.now ≤ most_lexemes) × (most_room ≤ length text.old) }
    requires alike { Alike kinds.now starts.now lengths.now depths.now }
    ensures { Puts (lexemes_text (zipped kinds.now starts.now lengths.now depths.now)) text.old 0 result text.new }
{
    let mut at = 0;
    for (i, &kind) in kinds.iter().enumerate() {
        at = put_lexeme(text, at, kind, starts[i], lengths[i], depths[i]);
    }
    at
}

// Writes what is printed of a query, whose lexemes go to the lent lists.
#[tactic(auto, using(crate::proofs::Lexemes::fronts))]
fn lex_to(
    query: &[u8],
    kinds: &mut [u16],
    starts: &mut [u32],
    lengths: &mut [u32],
    depths: &mut [u32],
    text: &mut [u8],
) -> usize
    requires kinds_len { (length kinds.old ≡ most_lexemes) × (length starts.old ≡ most_lexemes) × (length lengths.old ≡ most_lexemes) × (length depths.old ≡ most_lexemes) }
    requires most_room_in_bounds { most_room ≤ length text.old }
    ensures { Puts (printed_by query.now (lexed Reading.Crate most_lexemes query.now)) text.old 0 result text.new }
{
    match lex::lexer(query, Reading::Crate, kinds, starts, lengths, depths) {
        Ok(n) => put_lexemes(&kinds[..n], &starts[..n], &lengths[..n], &depths[..n], text),
        Err(refusal) => put_refusal(text, 0, refusal),
    }
}

// Writes what is printed of an input to a list that has room for it.
#[tactic(auto, unfolding(crate::specs::Listing::printed))]
fn list_to(query: &[u8], text: &mut [u8]) -> usize
    requires { most_room ≤ length text.old }
    ensures { Puts (printed query.now) text.old 0 result text.new }
{
    if query.len() > INPUT_LIMIT {
        return put_refusal(text, 0, utf8::at_start(utf8::TOO_LONG));
    }
    let mut kinds = [0u16; MOST_LEXEMES];
    let mut starts = [0u32; MOST_LEXEMES];
    let mut lengths = [0u32; MOST_LEXEMES];
    let mut depths = [0u32; MOST_LEXEMES];
    lex_to(
        query,
        &mut kinds,
        &mut starts,
        &mut lengths,
        &mut depths,
        text,
    )
}

// Writes what is printed of an input at the front of `out`: all of it and its length, or nothing and 0 where it does not fit.
#[tactic(auto, using(writing::proofs::Writes::past_inside))]
pub fn list_lexemes(query: &[u8], out: &mut [u8]) -> usize
    ensures value { result ≡ past_at out.old 0 (printed query.now) }
    ensures out_after { out.new ≡ put_at out.old 0 (printed query.now) }
    ensures in_bounds { result ≤ length out.new }
{
    if ROOM <= out.len() {
        return list_to(query, out);
    }
    let mut text = [0u8; ROOM];
    let end = list_to(query, &mut text);
    writing::put_text(out, 0, &text[..end])
}
