ghost use Rattle.std.specs.Prelude.{◌≡◌, ◌≤◌, ◌+◌, length};
ghost use Rattle.std.proofs.lemmas.List.Edits.{sets};
ghost use Rattle.model.specs.Text.{first_line, row_line};

use crate::digits::put_decimal;
use model::answer::Answer;

// Puts some bytes at a place, and gives the place after them.
pub fn put_bytes(text: &[u8], out: &mut [u8], at: usize) -> usize
    requires { at + length text.now ≤ length out.old }
    ensures value { result ≡ at + length text.now }
    ensures out_after { out.new ≡ sets out.old at text.now }
{
    let next = at + text.len();
    out[at..next].copy_from_slice(text);
    next
}

// Puts the first line of an answer at a place, and gives the place after it.
pub fn put_first_line(answer: Answer, out: &mut [u8], at: usize) -> usize
    requires { at + length (first_line answer) ≤ length out.old }
    ensures value { result ≡ at + length (first_line answer) }
    ensures out_after { out.new ≡ sets out.old at (first_line answer) }
{
    match answer {
        Answer::Rows(count, width) => {
            let with_rows = put_bytes(b"rows ", out, at);
            let with_count = put_decimal(count, out, with_rows);
            let with_width = put_bytes(b" width ", out, with_count);
            let end = put_decimal(u64::from(width), out, with_width);
            put_bytes(b"\n", out, end)
        }
        Answer::None => put_bytes(b"none\n", out, at),
        Answer::Refused(number) => {
            let with_refused = put_bytes(b"refused ", out, at);
            let end = put_decimal(u64::from(number), out, with_refused);
            put_bytes(b"\n", out, end)
        }
        Answer::Built(_) | Answer::Plan | Answer::Yes | Answer::No => at,
    }
}

// Puts the line of a row at a place, and gives the place after it.
pub fn put_row_line(row: &[u32], out: &mut [u8], at: usize) -> usize
    requires { at + length (row_line row.now) ≤ length out.old }
    ensures value { result ≡ at + length (row_line row.now) }
    ensures out_after { out.new ≡ sets out.old at (row_line row.now) }
{
    let mut next = at;
    for (v, number) in row.iter().enumerate() {
        if 0 < v {
            next = put_bytes(b" ", out, next);
        }
        next = put_decimal(u64::from(*number), out, next);
    }
    put_bytes(b"\n", out, next)
}
