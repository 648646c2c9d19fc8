use crate::cases::{Case, Kind};
use crate::lending::{lend, with_changed};
use crate::printing::{print_answer, print_planned};
use chain::check::check_site;
use closing::calls::{build, plan, run, whether};
use std::io;
use std::io::Write;

const STORE_WORDS: usize = 65536;

const ROW_WORDS: usize = 1024;

// The words of some bytes, four bytes each, low byte first, over the front of others.
fn hold(bytes: &[u8], held: &mut [u32]) {
    let (words, rest) = bytes.as_chunks::<4>();
    for (word, bytes) in held.iter_mut().zip(words) {
        *word = u32::from_le_bytes(*bytes);
    }
    // Of a last word that is not whole the first two bytes count, if both are there.
    if !rest.is_empty() && words.len() < held.len() {
        held[words.len()] = rest
            .first_chunk::<2>()
            .map_or(0, |pair| u32::from(u16::from_le_bytes(*pair)));
    }
}

fn try_run<W: Write>(out: &mut W, case: &Case, store: &[u32]) -> io::Result<()> {
    lend::<_, _, ROW_WORDS>(
        out,
        case.lent,
        |rows| run(store, case.first, case.second, rows),
    )?;
    print_answer(out, whether(store, case.first, case.second))?;
    out.write_all(b"\n")
}

pub fn try_case<W: Write>(out: &mut W, case: &Case, held: &mut [u32]) -> io::Result<()> {
    match case.kind {
        Kind::Build => lend::<_, _, STORE_WORDS>(
            out,
            case.words,
            |store| build(case.number, case.first, store),
        ),
        Kind::Hold => {
            hold(case.first, held);
            Ok(())
        }
        Kind::Plan => with_changed(
            case,
            held,
            |store| print_planned(out, plan(store, case.first)),
        ),
        Kind::Run => with_changed(case, held, |store| try_run(out, case, store)),
        Kind::Chain => lend::<_, _, ROW_WORDS>(
            out,
            case.lent,
            |rows| check_site(case.first, case.second, rows),
        ),
    }
}
