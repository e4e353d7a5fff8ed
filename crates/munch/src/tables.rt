// The tables that a step is told by: what each byte may begin, and the words that have a kind of their own. They are made once, for as many steps as
// there are.
ghost use Rattle.std.specs.Prelude.{◌≡◌, ℕ, List};
ghost use Rattle.token.specs.Words.{keyword_of};
ghost use Rattle.token.specs.steps.WordRows.{word_table};
ghost use Rattle.munch.specs.declared.Inside.TheVariants.{Nothing, Braces};
ghost use Rattle.munch.specs.Munch.{mode, munched};
ghost use Rattle.munch.specs.steps.Leads.{lead_table};

use crate::{BYTES, Inside, Mode, Step};
use std::marker::Model;
use token::WORD_TABLE;
use utf8::Reading;

#[derive(Drop)]
pub struct Tables {
    leads: [u8; BYTES],
    words: [u8; WORD_TABLE],
}

// They are document 01's.
impl Model for Tables {
    ghost Value = { List ℕ × List ℕ };

    ghost view = { λ t. (t.leads, t.words) };

    ghost invariant = { λ t. (t.leads ≡ lead_table) × (t.words ≡ word_table) };
}

impl Tables {
    // The tables of bytes and of words.
    pub fn new() -> Self
        ensures { result ≡ (lead_table, word_table) }
    {
        Tables {
            leads: crate::leads(),
            words: token::words(),
        }
    }

    // The step outside braces and brackets.
    #[tactic(auto, using(crate::proofs::Known::outside_by_tables))]
    #[inline(always)]
    pub fn outside(&self, s: &[u8], reading: Reading, depth: usize) -> Step
        ensures { result ≡ munched reading (mode depth Nothing) s.now }
    {
        crate::outside_step(&self.leads, &self.words, s, reading, depth)
    }

    // The step in braces.
    #[tactic(auto, using(crate::proofs::Known::braces_by_table))]
    #[inline(always)]
    pub fn in_braces(&self, s: &[u8], reading: Reading, depth: usize) -> Step
        ensures { result ≡ munched reading (mode depth Braces) s.now }
    {
        crate::brace_step(&self.leads, s, reading, depth)
    }

    // The step in a mode.
    pub fn step(&self, s: &[u8], reading: Reading, mode: Mode) -> Step
        ensures { result ≡ munched reading mode s.now }
    {
        match mode.inside {
            Inside::Nothing => self.outside(s, reading, mode.depth),
            Inside::Braces => self.in_braces(s, reading, mode.depth),
            Inside::Brackets { seen, fresh } => crate::bracket_step(
                s, reading, mode.depth, seen, fresh,
            ),
        }
    }

    // The kind that a word has of its own, if any.
    #[tactic(auto, using(token::proofs::Lookup::table_finds))]
    pub fn keyword(&self, word: &[u8]) -> Option<u16>
        ensures { result ≡ keyword_of word.now }
    {
        token::keyword_in(&self.words, word)
    }
}
