// Prints the lexemes of the query on standard input, a line each, or the one line of its refusal.
#![tactic(auto)]

use std::io;
use std::io::{Read, Write};

// One byte more than is taken is read, to know that an input is too long.
const MOST_READ: usize = listing::INPUT_LIMIT + 1;

// Reads the query, and prints what is to be said of it.
fn main(rt: HostRuntime) -> io::Result<()> {
    let mut input = [0u8; MOST_READ];
    let mut stdin = rt.stdin();
    let mut n = 0;
    for _ in 0..MOST_READ {
        let read = stdin.read(&mut input[n..])?;
        if read == 0 {
            break;
        }
        n += read;
    }
    let mut text = [0u8; listing::ROOM];
    let end = listing::list_lexemes(&input[..n], &mut text);
    rt.stdout().write_all(&text[..end])
}
