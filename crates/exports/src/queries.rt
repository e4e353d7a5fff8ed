// The C functions over `lex` and `reason`: each answers with one number; the first writes the lexemes to the four lists that are lent.
// A refusal is answered as `packing` makes it one number.
ghost use Rattle.std.specs.Prelude.{◌≡◌, length};
ghost use Rattle.lex.specs.Lex.{lexed, listed, left_after, kind_of, starts_at, length_of, depth_of, shortest};
ghost use Rattle.reason.specs.Reason.{reasoned};
ghost use Rattle.exports.specs.Packed.{counted_code};
ghost use Rattle.exports.specs.Reading.{reading_of};

use crate::{packing, reading};

// How many lexemes of a query in a reading, its end included, were written to the front of four lent lists, or refusal 1, 2, 10 to 32 or 3.
#[unsafe(no_mangle)]
pub extern "C" fn simmerpath_lexer(
    query: &[u8],
    documented: u32,
    kinds: &mut [u16],
    starts: &mut [u32],
    lengths: &mut [u32],
    depths: &mut [u32],
) -> u64
    ensures value { result ≡ counted_code (lexed (reading_of documented) (shortest (length kinds.old) (length starts.old) (length lengths.old) (length depths.old)) query.now) }
    ensures kinds_after { kinds.new ≡ left_after (lexed (reading_of documented) (shortest (length kinds.old) (length starts.old) (length lengths.old) (length depths.old)) query.now) (listed (reading_of documented) kind_of query.now kinds.old) kinds.old }
    ensures starts_after { starts.new ≡ left_after (lexed (reading_of documented) (shortest (length kinds.old) (length starts.old) (length lengths.old) (length depths.old)) query.now) (listed (reading_of documented) starts_at query.now starts.old) starts.old }
    ensures lengths_after { lengths.new ≡ left_after (lexed (reading_of documented) (shortest (length kinds.old) (length starts.old) (length lengths.old) (length depths.old)) query.now) (listed (reading_of documented) length_of query.now lengths.old) lengths.old }
    ensures depths_after { depths.new ≡ left_after (lexed (reading_of documented) (shortest (length kinds.old) (length starts.old) (length lengths.old) (length depths.old)) query.now) (listed (reading_of documented) depth_of query.now depths.old) depths.old }
{
    let reading = reading::reading_of(documented);
    packing::counted(lex::lexer(query, reading, kinds, starts, lengths, depths))
}

// Why the word that is a query's lexeme of a number, in a reading, has its kind: a reason from 1 to 7; or refusal 1, 2, 10 to 32, 72 or 74.
#[unsafe(no_mangle)]
pub extern "C" fn simmerpath_word_reason(query: &[u8], documented: u32, number: usize) -> u64
    ensures { result ≡ counted_code (reasoned (reading_of documented) number query.now) }
{
    packing::counted(reason::word_reason(query, reading::reading_of(documented), number))
}
