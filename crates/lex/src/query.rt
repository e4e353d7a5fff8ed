// One pass over a query, which writes its lexemes to four lists.
ghost use Rattle.std.specs.Prelude.{◌≡◌, ◌≤◌, length, set, drop};
ghost use Rattle.utf8.specs.Answers.{text_limit};
ghost use Rattle.munch.specs.Munch.{mode, munched};
ghost use Rattle.munch.specs.laws.Modes.{Opens};
ghost use Rattle.lex.specs.Lex.{kind_of, starts_at, length_of, depth_of};
ghost use Rattle.lex.specs.steps.Tally.{refused_by, tally_of};
ghost use Rattle.lex.specs.steps.Pass.{in_braces, has_colon, inside_by, filled, outcome_at, state, state_behind, Leads, Alike, Reached};

use munch::tables::Tables;
use munch::{Inside, Mode, Step};
use quoted::Fault;
use token::kinds;
use utf8::{ByteOffset, Reading};

// How far a text was read: to a place, with so many lexemes before it.
#[derive(Clone, Copy)]
pub(crate) struct Run {
    pub at: usize,
    pub count: usize,
}

// A lexeme: its kind, its first byte, how many it has, and its depth.
#[derive(Clone, Copy)]
struct Lexeme {
    kind: u16,
    start: ByteOffset,
    length: usize,
    depth: usize,
}

// Writes a lexeme at place i of four equally long lists, where they have it. C lends four lists, so they are not one of lexemes; and a struct of four
// `&mut` would need a clause of its own for each, on every function that hands it on.
fn put(
    kinds: &mut [u16],
    starts: &mut [u32],
    lengths: &mut [u32],
    depths: &mut [u32],
    i: usize,
    lexeme: Lexeme,
)
    requires alike { Alike kinds.old starts.old lengths.old depths.old }
    requires small { (lexeme.start.0 ≤ text_limit) × (lexeme.length ≤ text_limit) × (lexeme.depth ≤ text_limit) }
    ensures kinds_after { kinds.new ≡ set kinds.old i lexeme.kind }
    ensures starts_after { starts.new ≡ set starts.old i lexeme.start.0 }
    ensures lengths_after { lengths.new ≡ set lengths.old i lexeme.length }
    ensures depths_after { depths.new ≡ set depths.old i lexeme.depth }
{
    if i < kinds.len() {
        kinds[i] = lexeme.kind;
        starts[i] = lexeme.start.0 as u32;
        lengths[i] = lexeme.length as u32;
        depths[i] = lexeme.depth as u32;
    }
}

// A text is refused at an offset.
fn refused_by(number: usize, at: usize) -> Result<Run, Fault>
    ensures { result ≡ refused_by number at }
{
    Err(Fault { number, at })
}

// Whether braces are open, and whether brackets that have their colon.
fn in_braces(inside: Inside) -> bool
    ensures { result ≡ in_braces inside }
{
    matches!(inside, Inside::Braces)
}

fn has_colon(inside: Inside) -> bool
    ensures { result ≡ has_colon inside }
{
    matches!(inside, Inside::Brackets { seen: true, .. })
}

// A query within the limit, the reading, and the tables that its steps are told by.
#[derive(Clone, Copy)]
pub(crate) struct Query<'a> {
    pub text: &'a [u8],
    pub reading: Reading,
    pub tables: &'a Tables,
    ghost limited: { length text.now ≤ text_limit },
}

impl Query<'_> {
    // The step at a place in braces, or else in brackets.
    #[inline(always)]
    fn inner_step(&self, at: usize, depth: usize, braces: bool, seen: bool, fresh: bool) -> Step
        requires { at ≤ length self.now.text.now }
        ensures { result ≡ munched self.now.reading (mode depth (inside_by braces seen fresh)) (drop at self.now.text.now) }
    {
        let s = &self.text[at..];
        if braces {
            self.tables.in_braces(s, self.reading, depth)
        } else {
            munch::bracket_step(s, self.reading, depth, seen, fresh)
        }
    }

    // Reads on from a place through the end of what is open there, and writes the lexemes that have room, the first of them at place `first`. The
    // loop goes on by steps: one for both modes was tried and is slower.
    fn opened(
        &self,
        kinds: &mut [u16],
        starts: &mut [u32],
        lengths: &mut [u32],
        depths: &mut [u32],
        next: Mode,
        from: usize,
        first: usize,
    ) -> Result<Run, Fault>
        requires alike { Alike kinds.old starts.old lengths.old depths.old }
        requires opens { Opens next.inside }
        requires placed { (from ≤ length self.now.text.now) × (first ≤ from) × (next.depth ≤ from) }
        ensures reached { Reached self.now.text.now from result }
        ensures leads { Leads (state kinds.old starts.old lengths.old depths.old first (outcome_at self.now.reading self.now.text.now from next)) (state_behind self.now.reading self.now.text.now kinds.new starts.new lengths.new depths.new next.depth result) }
    {
        if let Inside::Nothing = next.inside {
            return Ok(Run {
                at: from,
                count: first,
            });
        }
        let depth = next.depth;
        let braces = in_braces(next.inside);
        let mut seen = false;
        let mut fresh = true;
        let mut at = from;
        let mut i = first;
        loop {
            match self.inner_step(at, depth, braces, seen, fresh) {
                Step::Lexeme { kind, length, mode } => {
                    let lexeme = Lexeme {
                        kind,
                        start: ByteOffset(at),
                        length,
                        depth,
                    };
                    put(kinds, starts, lengths, depths, i, lexeme);
                    at += length;
                    i += 1;
                    if let Inside::Nothing = mode.inside {
                        return Ok(Run { at, count: i });
                    }
                    seen = has_colon(mode.inside);
                    fresh = false;
                }
                Step::Space { .. } => {
                    at += 1;
                    fresh = false;
                }
                Step::Comment { length } => at += length,
                Step::Refused { number, at: offset } => return refused_by(number, at + offset),
                Step::Finished => return Ok(Run { at, count: i }),
            }
        }
    }

    // Reads the query and writes the lexemes that have room, lexeme i at place i; those before a refusal too. The loop goes on by steps.
    pub fn pass(
        &self,
        kinds: &mut [u16],
        starts: &mut [u32],
        lengths: &mut [u32],
        depths: &mut [u32],
    ) -> Result<Run, Fault>
        requires { Alike kinds.old starts.old lengths.old depths.old }
        ensures value { result ≡ tally_of self.now.reading self.now.text.now }
        ensures kinds_after { kinds.new ≡ filled self.now.reading kind_of self.now.text.now kinds.old }
        ensures starts_after { starts.new ≡ filled self.now.reading starts_at self.now.text.now starts.old }
        ensures lengths_after { lengths.new ≡ filled self.now.reading length_of self.now.text.now lengths.old }
        ensures depths_after { depths.new ≡ filled self.now.reading depth_of self.now.text.now depths.old }
    {
        let mut at = 0;
        let mut i = 0;
        let mut depth = 0;
        loop {
            match self.tables.outside(&self.text[at..], self.reading, depth) {
                Step::Lexeme { kind, length, mode } => {
                    let lexeme = Lexeme {
                        kind,
                        start: ByteOffset(at),
                        length,
                        depth: depth.min(mode.depth),
                    };
                    put(kinds, starts, lengths, depths, i, lexeme);
                    depth = mode.depth;
                    let run = self.opened(
                        kinds,
                        starts,
                        lengths,
                        depths,
                        mode,
                        at + length,
                        i + 1,
                    )?;
                    at = run.at;
                    i = run.count;
                }
                Step::Space { .. } => at += 1,
                Step::Comment { length } => at += length,
                Step::Refused { number, at: offset } => return refused_by(number, at + offset),
                Step::Finished => {
                    let end = Lexeme {
                        kind: kinds::T_EOF,
                        start: ByteOffset(at),
                        length: 0,
                        depth: 0,
                    };
                    put(kinds, starts, lengths, depths, i, end);
                    let count = i + 1;
                    return Ok(Run { at, count });
                }
            }
        }
    }
}
