ghost use Rattle.std.specs.Prelude.{◌≡◌, ◌≤◌, ◌+◌, ◌*◌, length, take};
ghost use Rattle.std.proofs.lemmas.List.Edits.{sets};
ghost use Rattle.model.specs.Text.{row_lines, printed, RowsFit};
ghost use Rattle.model.specs.declared.answer.Answer.TheVariants.{Rows};

use crate::lines::{put_first_line, put_row_line};
use model::answer::Answer;

// Puts the lines of the rows at the front of some words at a place, and gives the place after them.
fn put_row_lines(words: &[u32], count: u64, width: u32, out: &mut [u8], at: usize) -> usize
    requires { (count * width ≤ length words.now) × (at + length (row_lines (Rows count width) words.now) ≤ length out.old) }
    ensures value { result ≡ at + length (row_lines (Rows count width) words.now) }
    ensures out_after { out.new ≡ sets out.old at (row_lines (Rows count width) words.now) }
{
    let wide = width as usize;
    let mut next = at;
    for i in 0..count as usize {
        let start = i * wide;
        next = put_row_line(&words[start..start + wide], out, next);
    }
    next
}

// Puts all that is printed of an answer and of the words lent for its rows at the front, and gives its length. There is room: a first
// line has at most 53 bytes, a word at most twenty digits and a byte behind them, and the line of a row of width 0 one byte.
pub fn put_answer(answer: Answer, words: &[u32], out: &mut [u8]) -> usize
    requires { RowsFit answer words.now × (54 + 21 * length words.now ≤ length out.old) }
    ensures { (result ≡ length (printed answer words.now)) × (take result out.new ≡ printed answer words.now) }
{
    let first = put_first_line(answer, out, 0);
    match answer {
        Answer::Rows(count, width) => put_row_lines(words, count, width, out, first),
        Answer::None
        | Answer::Built(_)
        | Answer::Plan
        | Answer::Yes
        | Answer::No
        | Answer::Refused(_) => first,
    }
}
