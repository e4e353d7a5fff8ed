// The content of a literal: where it goes wrong, and its text, which is written at the front of a buffer.
ghost use Rattle.std.specs.Prelude.{true, false, ◌≡◌, ◌+◌, ◌^◌, ◌<◌, ◌≤◌, length, drop, ◌==◌, IfSome};
ghost use Rattle.std.specs.List.{position};
ghost use Rattle.std.proofs.lemmas.List.Edits.{sets};
ghost use Rattle.scan.specs.Text.{has};
ghost use Rattle.utf8.specs.Text.{WellFormed};
ghost use Rattle.string.specs.declared.tile.Form.TheVariants.{Letter};
ghost use Rattle.string.specs.Tile.{piece, is_allowed, tile_of};
ghost use Rattle.string.specs.Tiles.{tiles_of, has_bad, gives_byte, piece_bytes, bytes_of};
ghost use Rattle.string.specs.Literal.{has_newline, first_of, has_escape};
ghost use Rattle.string.specs.steps.Measure.{is_plain, GivesOne, is_single, tiles_extent, content_extent, left_sized, left_in};

use crate::tile::Form;
use crate::{Single, Unquoted, tile};
use utf8::{ByteOffset, Reading, encode};

// The longest contents that are read once: their text is written to a buffer of this length, for short ones and for longer ones, and copied
// once all of it is known to be good.
const SHORT: usize = 128;

const LONGER: usize = 4096;

// Whether a text has the byte. Unlike `scan::contains` it looks at all of it, so that many bytes are looked at at once.
#[tactic(auto, using(crate::proofs::Bytes::has_next, crate::proofs::Bytes::has_over))]
fn has_byte(s: &[u8], c: u8) -> bool
    ensures { result ≡ has c s.now }
{
    let mut found = false;
    for &byte in s {
        if byte == c {
            found = true;
        }
    }
    found
}

// Where a byte first stands in a text.
fn position_of(s: &[u8], c: u8) -> Option<usize>
    ensures { result ≡ position (λ x. x == c) s.now }
{
    s.iter().position(|&byte| byte == c)
}

// Where a byte first stands in a text; its end, where it stands nowhere.
fn first_of(s: &[u8], c: u8) -> usize
    ensures { result ≡ first_of c s.now }
{
    position_of(s, c).unwrap_or(s.len())
}

// Whether a byte is ASCII, and neither the sign nor a backslash: it is a tile by itself.
#[tactic(auto, unfolding(crate::specs::steps::Measure::is_plain))]
fn is_plain(sign: u8, c: u8) -> bool
    ensures { result ≡ is_plain sign c }
{
    c != tile::BACKSLASH && c != sign && c.is_ascii()
}

// Whether a tile gives one byte, and not a character.
fn gives_byte(reading: Reading, form: Form) -> bool
    ensures { result ≡ gives_byte reading form }
{
    match reading {
        Reading::Crate => false,
        Reading::Documented => tile::is_byte(form),
    }
}

// Whether what a tile gives is its value as one byte.
#[tactic(auto, unfolding(crate::specs::steps::Measure::is_single))]
fn is_single(reading: Reading, form: Form, value: u32) -> bool
    ensures { result ≡ is_single reading form value }
{
    value <= tile::LAST_ASCII || gives_byte(reading, form)
}

// How many bytes a tile gives.
#[tactic(auto, using(crate::proofs::Contents::single, crate::proofs::Contents::several))]
fn piece_size(reading: Reading, form: Form, value: u32) -> usize
    ensures { result ≡ length (piece_bytes reading form value) }
{
    if is_single(reading, form, value) {
        return 1;
    }
    encode::encoded_size(value)
}

// Writes what a tile gives at a place where it fits, and answers the place past it.
fn put_piece(reading: Reading, form: Form, value: u32, out: &mut [u8], at: usize) -> usize
    requires value_value { is_allowed form value ≡ true }
    requires value_in_bounds { at + length (piece_bytes reading form value) ≤ length out.old }
    ensures value { result ≡ at + length (piece_bytes reading form value) }
    ensures out_after { out.new ≡ sets out.old at (piece_bytes reading form value) }
{
    if is_single(reading, form, value) {
        out[at] = value as u8;
        return at + 1;
    }
    at + encode::encode(value, out, ByteOffset(at)).unwrap()
}

// What stands between the two signs of a literal, which are ASCII, and the reading that it is read in.
#[derive(Clone, Copy)]
pub(crate) struct Content<'a> {
    pub(crate) inner: &'a [u8],
    pub(crate) sign: u8,
    pub(crate) reading: Reading,
    ghost ascii_sign: { sign < 0x80 },
}

impl Content<'_> {
    ghost use Rattle.string.specs.steps.Content.{tiles_in, text_in};

    // Whether there is a line feed where none may be.
    #[tactic(auto, unfolding(crate::specs::Literal::has_newline))]
    fn has_newline(&self) -> bool
        ensures { result ≡ has_newline self.now.sign self.now.inner.now }
    {
        self.sign != tile::BACKQUOTE && has_byte(self.inner, tile::LINE_FEED)
    }

    // Whether there is an escape.
    #[tactic(auto, unfolding(crate::specs::Literal::has_escape))]
    fn has_escape(&self) -> bool
        ensures { result ≡ has_escape self.now.sign self.now.inner.now }
    {
        self.sign != tile::BACKQUOTE && has_byte(self.inner, tile::BACKSLASH)
    }

    // What the letter behind a backslash at a place stands for, where such an escape stands there.
    #[tactic(auto, using(crate::proofs::tile::Letters::letter_tile, crate::proofs::tile::Letters::letter_small))]
    fn letter_at(&self, at: usize) -> Option<u32>
        requires { at < length self.now.inner.now }
        ensures inner_value { IfSome result (λ v. tile_of self.now.sign (drop at self.now.inner.now) ≡ piece Letter v 2) }
        ensures upper_bound { IfSome result (λ v. v ≤ 0x7f) }
    {
        let c = self.inner[at];
        if c != tile::BACKSLASH || c == self.sign || self.sign == tile::BACKQUOTE {
            return None;
        }
        let &letter = self.inner.get(at + tile::BEHIND_BACKSLASH)?;
        tile::letter_value(self.sign, letter)
    }

    // The tile at a place, where it is a plain byte or a letter behind a backslash: of these there are most.
    #[inline(always)]
    fn single_at(&self, at: usize) -> Option<Single>
        requires { at < length self.now.inner.now }
        ensures { IfSome result (λ one. GivesOne self.now.sign (drop at self.now.inner.now) one.value one.size) }
    {
        let c = self.inner[at];
        if is_plain(self.sign, c) {
            return Some(Single { value: c, size: 1 });
        }
        let value = self.letter_at(at)?;
        Some(Single {
            value: value as u8,
            size: tile::BEHIND_LETTER,
        })
    }

    // How many bytes the tiles of a content give, or where the first bad one begins. Where a tile ends is known only once it is read: no `for` goes
    // over them.
    fn measure(&self) -> Result<usize, usize>
        ensures { result ≡ tiles_extent self.now.reading (tiles_in self.now) }
    {
        let mut n = 0;
        let mut from = 0;
        while from < self.inner.len() {
            if let Some(one) = self.single_at(from) {
                n += 1;
                from += one.size;
                continue;
            }
            let Some(piece) = tile::unquote_char(&self.inner[from..], self.sign) else {
                return Err(from);
            };
            n += piece_size(self.reading, piece.form, piece.value);
            from += piece.size;
        }
        Ok(n)
    }

    // Writes what the tiles of a content give at the front of a buffer that it fits, and answers how many bytes that is, or where the first bad
    // one begins. What the tiles before that give is left there. The turns are those of `measure`.
    fn write_pieces(&self, out: &mut [u8]) -> Result<usize, usize>
        requires inner_in_bounds { length (text_in self.now) ≤ length out.old }
        ensures value { result ≡ tiles_extent self.now.reading (tiles_in self.now) }
        ensures out_after { has_bad (tiles_in self.now) ≡ false → out.new ≡ sets out.old 0 (text_in self.now) }
    {
        let mut at = 0;
        let mut from = 0;
        while from < self.inner.len() {
            if let Some(one) = self.single_at(from) {
                out[at] = one.value;
                at += 1;
                from += one.size;
                continue;
            }
            let Some(piece) = tile::unquote_char(&self.inner[from..], self.sign) else {
                return Err(from);
            };
            at = put_piece(self.reading, piece.form, piece.value, out, at);
            from += piece.size;
        }
        Ok(at)
    }

    // Writes the text of a content with escapes where it has room, by way of a buffer of one's own that is no shorter than the content.
    #[tactic(auto, using(crate::proofs::Passed::extent_told, crate::proofs::Contents::bytes_few, proving::proofs::Stores::written_front))]
    fn read_once<const N: usize>(&self, text: &mut [u8]) -> Result<usize, usize>
        requires { (length self.now.inner.now ≤ N) × (N < 2 ^ 63) }
        ensures value { result ≡ tiles_extent self.now.reading (tiles_in self.now) }
        ensures text_after { text.new ≡ left_sized result (text_in self.now) text.old }
    {
        let mut own = [0; N];
        let size = self.write_pieces(&mut own)?;
        if size <= text.len() {
            text[..size].copy_from_slice(&own[..size]);
        }
        Ok(size)
    }

    // The same for a content of any length, which is measured first.
    #[tactic(auto, using(crate::proofs::Passed::extent_told, crate::proofs::Bytes::sets_front))]
    fn read_twice(&self, text: &mut [u8]) -> Result<usize, usize>
        ensures value { result ≡ tiles_extent self.now.reading (tiles_in self.now) }
        ensures text_after { text.new ≡ left_sized result (text_in self.now) text.old }
    {
        let size = self.measure()?;
        if size <= text.len() {
            return self.write_pieces(text);
        }
        Ok(size)
    }

    // The text of a content with escapes: but for a very long one its tiles are read once.
    fn read_tiles(&self, text: &mut [u8]) -> Result<usize, usize>
        ensures value { result ≡ tiles_extent self.now.reading (tiles_in self.now) }
        ensures text_after { text.new ≡ left_sized result (text_in self.now) text.old }
    {
        if self.inner.len() <= SHORT {
            return self.read_once::<SHORT>(text);
        }
        if self.inner.len() <= LONGER {
            return self.read_once::<LONGER>(text);
        }
        self.read_twice(text)
    }

    // What the content between two signs comes to, or where it goes wrong; a text with escapes is written where it has room.
    #[tactic(auto, using(crate::proofs::Literals::unescaped_bad), unfolding(crate::specs::steps::Measure::content_extent, crate::specs::steps::Measure::tiles_extent))]
    pub(crate) fn read(&self, text: &mut [u8]) -> Result<Unquoted, usize>
        requires well_formed { WellFormed self.now.inner.now }
        ensures value { result ≡ content_extent self.now.reading self.now.sign self.now.inner.now }
        ensures text_after { text.new ≡ left_in result (text_in self.now) text.old }
    {
        if self.has_newline() {
            return Err(first_of(self.inner, tile::LINE_FEED));
        }
        if self.has_escape() {
            let size = self.read_tiles(text)?;
            return Ok(Unquoted::Written(size));
        }
        if has_byte(self.inner, self.sign) {
            return Err(first_of(self.inner, self.sign));
        }
        Ok(Unquoted::Inner(self.inner.len()))
    }
}
