// UTF-8 text (RFC 3629): whether bytes are text, the character at an offset, and the number of characters before one; and the places
// and refusals that every reader answers with. The bytes of a code point are written by `encode`.
#![tactic(auto)]

pub mod encode;

ghost use Rattle.std.specs.Prelude.{◌≡◌, true, ◌≤◌, length, take};
ghost use Rattle.utf8.specs.Table.{is_tail, char_length};
ghost use Rattle.utf8.specs.steps.Lead.{size_by, low_second, high_second, with_tails};
ghost use Rattle.utf8.specs.Text.{char_number};
ghost use Rattle.utf8.specs.Code.{code_of};
ghost use Rattle.utf8.specs.Answers.{count, next_start, validity_of, at_start, refused_at, admitted, refusal_of, character_at};
ghost use Rattle.utf8.specs.laws.Ascii.{is_ascii};

use scan::byte;

// How many bytes come before a place.
#[derive(Clone, Copy)]
pub struct ByteOffset(pub usize);

// How many characters of a text begin before a place.
#[derive(Clone, Copy)]
pub struct CharNumber(pub usize);

// A place in a text, by bytes and by characters.
#[derive(Clone, Copy)]
pub struct Place {
    pub byte: ByteOffset,
    pub character: CharNumber,
}

// Why a reader gives no result: the documents' number, and where.
#[derive(Clone, Copy)]
pub struct Refusal {
    pub number: usize,
    pub place: Place,
}

// The most bytes of a query, a literal or a text.
pub const TEXT_LIMIT: usize = 65535;

// Document 01's refusals that readers share: the text is too long, is not UTF-8, or its result has no room.
pub const TOO_LONG: usize = 1;

pub const NOT_UTF8: usize = 2;

pub const NO_ROOM: usize = 3;

// No refusal has this number.
pub const NO_REFUSAL: usize = 0;

// What the bytes from an offset on begin with: a character, nothing since there are none, or no character.
#[derive(Clone, Copy)]
pub enum Character {
    Scalar { code: u32, size: usize },
    Nothing,
    IllFormed,
}

// Whose rules a text is read by where they differ: those of the Rust, or those that Prometheus documents.
#[derive(Clone, Copy)]
pub enum Reading {
    Crate,
    Documented,
}

// The last bytes that begin a character of one byte, none, and one of two, of three and of four.
const LAST_OF_ONE: usize = 0x7f;

const LAST_OF_NONE: usize = 0xc1;

const LAST_OF_TWO: usize = 0xdf;

const LAST_OF_THREE: usize = 0xef;

const LAST_OF_FOUR: usize = 0xf4;

const LAST_ASCII: u8 = 0x7f;

// The first bytes besides LAST_OF_FOUR whose second byte has bounds of its own, and those bounds: no character is written in more bytes
// than it needs, none is a surrogate, and none is above 10FFFF.
const FIRST_OF_THREE: usize = 0xe0;

const BEFORE_SURROGATES: usize = 0xed;

const FIRST_OF_FOUR: usize = 0xf0;

const LOW_OF_THREE: u8 = 0xa0;

const HIGH_BEFORE_SURROGATES: u8 = 0x9f;

const LOW_OF_FOUR: u8 = 0x90;

const HIGH_OF_FOUR: u8 = 0x8f;

// The least and the greatest byte that goes on with a character.
const LOW_TAIL: u8 = 0x80;

const HIGH_TAIL: u8 = 0xbf;

// How many values the bits have that a byte gives to a code point: one that goes on, and the first of one, two, three and four.
const TAIL_BITS: usize = 64;

const BITS_OF_ONE: usize = 128;

const BITS_OF_TWO: usize = 32;

const BITS_OF_THREE: usize = 16;

const BITS_OF_FOUR: usize = 8;

// How many bytes a character has that begins with a, or 0 where none does.
#[tactic(auto, unfolding(crate::specs::steps::Lead::size_by))]
fn size_by(a: usize) -> usize
    ensures { result ≡ size_by a }
{
    match a {
        ..=LAST_OF_ONE => 1,
        ..=LAST_OF_NONE => 0,
        ..=LAST_OF_TWO => 2,
        ..=LAST_OF_THREE => 3,
        ..=LAST_OF_FOUR => 4,
        _ => 0,
    }
}

// The least second byte after the first byte a.
#[tactic(auto, unfolding(crate::specs::steps::Lead::low_second))]
fn low_second(a: usize) -> u8
    ensures { result ≡ low_second a }
{
    match a {
        FIRST_OF_THREE => LOW_OF_THREE,
        FIRST_OF_FOUR => LOW_OF_FOUR,
        _ => LOW_TAIL,
    }
}

// The greatest second byte after the first byte a.
#[tactic(auto, unfolding(crate::specs::steps::Lead::high_second))]
fn high_second(a: usize) -> u8
    ensures { result ≡ high_second a }
{
    match a {
        BEFORE_SURROGATES => HIGH_BEFORE_SURROGATES,
        LAST_OF_FOUR => HIGH_OF_FOUR,
        _ => HIGH_TAIL,
    }
}

// A byte that goes on with a character.
fn is_tail(c: usize) -> bool
    ensures { result ≡ is_tail c }
{
    byte::is_within(LOW_TAIL, HIGH_TAIL, c)
}

// The size n of a character where its third byte and its fourth, so far as it has them, go on with it, else 0.
#[tactic(auto, unfolding(crate::specs::steps::Lead::with_tails))]
fn with_tails(n: usize, s: &[u8]) -> usize
    ensures { result ≡ with_tails n s.now }
{
    if (n <= 2 || is_tail(byte::peek(s, 2))) && (n <= 3 || is_tail(byte::peek(s, 3))) {
        n
    } else {
        0
    }
}

// The length of the character that s begins with, or 0 where none does.
#[tactic(auto, using(crate::proofs::Lead::char_tests))]
fn char_length(s: &[u8]) -> usize
    ensures { result ≡ char_length s.now }
{
    let a = byte::peek(s, 0);
    let n = size_by(a);
    if n <= 1 {
        n
    } else if byte::is_within(low_second(a), high_second(a), byte::peek(s, 1)) {
        with_tails(n, s)
    } else {
        0
    }
}

// Whether all bytes are ASCII.
pub fn is_ascii(text: &[u8]) -> bool
    ensures { result ≡ is_ascii text.now }
{
    // the greatest is sought, so that many bytes are looked at at once
    let mut most = 0;
    for &byte in text {
        most = most.max(byte);
    }
    most <= LAST_ASCII
}

// So many bytes are looked at together.
const BLOCK: usize = 32;

// How many bytes may be passed over at once, of those that are left and of the most that are wanted: some where all of them are ASCII.
fn ascii_run(s: &[u8], most: usize) -> usize
    ensures { (result ≤ length s.now) × (result ≤ most) × (is_ascii (take result s.now) ≡ true) }
{
    if BLOCK <= most && BLOCK <= s.len() && is_ascii(&s[..BLOCK]) {
        BLOCK
    } else {
        0
    }
}

// Where the first character begins that is not before an offset, or the longest well-formed prefix ends.
#[tactic(auto, using(crate::proofs::Chars::char_bound, crate::proofs::Chars::stop_start))]
fn next_start(text: &[u8], to: usize) -> Place
    ensures { result ≡ next_start text.now to }
{
    let mut at = 0;
    let mut count = 0;
    // a block or a character is passed in a turn, so that the places are not those of a `for`
    while at < to {
        let s = &text[at..];
        let run = ascii_run(s, to - at);
        if 0 < run {
            at += run;
            count += run;
            continue;
        }
        let n = char_length(s);
        if n == 0 {
            break;
        }
        at += n;
        count += 1;
    }
    Place {
        byte: ByteOffset(at),
        character: CharNumber(count),
    }
}

// How many characters bytes are, or where the longest prefix ends that is UTF-8 text.
#[tactic(auto, unfolding(crate::specs::Answers::validity_of), using(crate::proofs::Texts::start_all, crate::proofs::Texts::number_end_holds))]
fn walk(text: &[u8]) -> Result<CharNumber, Place>
    ensures { result ≡ validity_of text.now }
{
    let end = next_start(text, text.len());
    if end.byte.0 == text.len() {
        Ok(end.character)
    } else {
        Err(end)
    }
}

// How many characters bytes are, or where the longest prefix ends that is UTF-8 text. Whether they are ASCII is asked first, which is quicker for a
// long text.
#[tactic(auto, using(crate::proofs::Ascii::ascii_places))]
pub fn validate(text: &[u8]) -> Result<CharNumber, Place>
    ensures { result ≡ validity_of text.now }
{
    if is_ascii(text) {
        Ok(CharNumber(text.len()))
    } else {
        walk(text)
    }
}

// A refusal that names no place.
pub fn at_start(number: usize) -> Refusal
    ensures { result ≡ at_start number }
{
    Refusal {
        number,
        place: Place {
            byte: ByteOffset(0),
            character: CharNumber(0),
        },
    }
}

// Takes up a text of at most `limit` bytes, and says how many characters it is: refusals 1 and 2 of every reader.
#[tactic(auto, unfolding(crate::specs::Answers::admitted))]
pub fn admit(text: &[u8], limit: usize) -> Result<CharNumber, Refusal>
    ensures { result ≡ admitted limit text.now }
{
    if limit < text.len() {
        return Err(at_start(TOO_LONG));
    }
    match validate(text) {
        Ok(count) => Ok(count),
        Err(place) => Err(Refusal {
            number: NOT_UTF8,
            place,
        }),
    }
}

// Why a call has no answer; where it has one, a refusal of no number.
pub fn refusal_of<T: Drop>(answer: Result<T, Refusal>) -> Refusal
    ensures { result ≡ refusal_of answer }
{
    answer.err().unwrap_or(at_start(NO_REFUSAL))
}

// How many characters of the longest well-formed prefix begin before an offset; one that it lies inside counts.
pub fn char_number(text: &[u8], to: ByteOffset) -> CharNumber
    ensures { result ≡ count (char_number text.now to.0) }
{
    next_start(text, to.0).character
}

// A refusal at an offset of a text.
pub fn refused_at(text: &[u8], number: usize, byte: ByteOffset) -> Refusal
    ensures { result ≡ refused_at text.now number byte.0 }
{
    let character = char_number(text, byte);
    Refusal {
        number,
        place: Place { byte, character },
    }
}

// The code point of the character of n bytes that s begins with.
#[tactic(auto, unfolding(crate::specs::Code::code_of))]
fn code_of(s: &[u8], n: usize) -> u32
    ensures { result ≡ code_of n s.now }
{
    let a = byte::peek(s, 0);
    let b = byte::peek(s, 1) % TAIL_BITS;
    let c = byte::peek(s, 2) % TAIL_BITS;
    let d = byte::peek(s, 3) % TAIL_BITS;
    let code = match n {
        ..=1 => a % BITS_OF_ONE,
        2 => a % BITS_OF_TWO * TAIL_BITS + b,
        3 => (a % BITS_OF_THREE * TAIL_BITS + b) * TAIL_BITS + c,
        _ => ((a % BITS_OF_FOUR * TAIL_BITS + b) * TAIL_BITS + c) * TAIL_BITS + d,
    };
    code as u32
}

// The character that the bytes from an offset on begin with, whatever stands before it.
#[tactic(auto, unfolding(crate::specs::Answers::character_at))]
pub fn char_at(text: &[u8], at: ByteOffset) -> Character
    ensures { result ≡ character_at text.now at.0 }
{
    if text.len() <= at.0 {
        return Character::Nothing;
    }
    let s = &text[at.0..];
    match char_length(s) {
        0 => Character::IllFormed,
        size => Character::Scalar {
            code: code_of(s, size),
            size,
        },
    }
}
