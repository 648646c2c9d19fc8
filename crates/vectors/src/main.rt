// Tries the calls on the cases of standard input, and prints each answer with what was lent or handed back. A case: its kind in one
// byte, a number in four, then in two bytes each a count of words, the place of a word, a count of lent words and the sizes of two
// files, all low byte first, and the files.
//   0  build: the number is T, so many words are lent, each 7; the first file is the site's
//   1  the words of the first file, four bytes each, are held from here on
//   2  plan, over so many of the words held, the word at the place changed to the number; the first file is the pattern
//   3  run, as in 2; the second file is the plan, and so many words are lent for rows, each 7; then whether, of the same
//   4  the chain of the check program: a site's file and a check's, and words lent as in 3
#![tactic(auto)]

ghost use Rattle.std.specs.Prelude.{◌≤◌, length};

mod cases;
mod lending;
mod printing;
mod trying;

use cases::split_case;
use std::io;
use std::io::{BufWriter, Read, Write};
use trying::try_case;

const MOST_CASES: usize = 8000;

const CASE_BYTES: usize = 262144;

const HELD_WORDS: usize = 4096;

// Reads until the buffer is full, the input ends or a read fails, and gives how many bytes stand at its front.
fn read_full<F: Read>(input: &mut F, buffer: &mut [u8]) -> usize
    ensures { result ≤ length buffer.new }
{
    let mut size = 0;
    while size < buffer.len() {
        match input.read(&mut buffer[size..]) {
            Ok(0) | Err(_) => break,
            Ok(count) => size += count,
        }
    }
    size
}

fn main(rt: HostRuntime) -> io::Result<()> {
    let mut buffer = [0u8; CASE_BYTES];
    let size = read_full(&mut rt.reader(), &mut buffer);
    let unread = CASE_BYTES - size;
    let mut held = [0u32; HELD_WORDS];
    let mut out = BufWriter::new(rt.alloc(), io::writer(&rt))?;
    let mut rest = &buffer[..];
    for _ in 0..MOST_CASES {
        if rest.len() <= unread {
            break;
        }
        let Some((case, after)) = split_case(rest) else {
            break;
        };
        try_case(&mut out, &case, &mut held)?;
        rest = after;
    }
    out.flush()
}
