ghost use Rattle.std.specs.Prelude.{◌<◌, ◌^◌};

use crate::cases::Case;
use crate::printing::{LENT, print_answer, print_words};
use model::answer::Answer;
use std::io::Write;
use std::{io, mem};

// Calls with so many words lent, each 7, and prints the answer and what stands in them then. More than WORDS are not lent.
pub fn lend<W: Write, F: FnOnce(&mut [u32]) -> Answer, const WORDS: usize>(
    out: &mut W,
    lent: usize,
    call: F,
) -> io::Result<()>
    requires room { WORDS < 2 ^ 32 }
    requires callable { F.IsAlwaysCallable call }
{
    let mut memory = [LENT; WORDS];
    if WORDS < lent {
        return Ok(());
    }
    let words = &mut memory[..lent];
    print_answer(out, call(words))?;
    print_words(out, words)
}

// Calls with the first words held, one of them changed for this case alone.
pub fn with_changed<F: FnOnce(&[u32]) -> io::Result<()>>(
    case: &Case,
    held: &mut [u32],
    call: F,
) -> io::Result<()>
    requires { F.IsAlwaysCallable call }
{
    if held.len() < case.words {
        return Ok(());
    }
    if held.len() <= case.place {
        return call(&held[..case.words]);
    }
    let kept = mem::replace(&mut held[case.place], case.number);
    let tried = call(&held[..case.words]);
    held[case.place] = kept;
    tried
}
