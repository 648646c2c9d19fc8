use model::answer::{Answer, Planned};
use std::io;
use std::io::Write;

// What each word is when it is lent.
pub const LENT: u32 = 7;

// The words lent, or that each is as before.
pub fn print_words<W: Write>(out: &mut W, words: &[u32]) -> io::Result<()> {
    if words.iter().all(|word| *word == LENT) {
        out.write_all(b" unaltered")?;
    } else {
        for word in words {
            write!(out, " {word}")?;
        }
    }
    out.write_all(b"\n")
}

pub fn print_answer<W: Write>(out: &mut W, answer: Answer) -> io::Result<()> {
    match answer {
        Answer::Built(used) => write!(out, "built {used}"),
        Answer::Refused(number) => write!(out, "refused {number}"),
        Answer::Rows(count, width) => write!(out, "rows {count} {width}"),
        Answer::None => out.write_all(b"none"),
        Answer::Plan => out.write_all(b"plan"),
        Answer::Yes => out.write_all(b"yes"),
        Answer::No => out.write_all(b"no"),
    }
}

// The answer, the count of steps, and all sixteen numbers.
pub fn print_planned<W: Write>(out: &mut W, planned: Planned) -> io::Result<()> {
    print_answer(out, planned.answer)?;
    let plan = planned.plan;
    write!(out, " {}:", plan.count)?;
    for number in plan.steps {
        write!(out, " {number}")?;
    }
    out.write_all(b"\n")
}
