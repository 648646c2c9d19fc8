ghost use Rattle.std.specs.Prelude.{◌≡◌, ◌≤◌, ◌+◌, ◌*◌, [], length, drop};
ghost use Rattle.std.proofs.lemmas.List.Edits.{sets};
ghost use Rattle.model.specs.Reader.{repeated};
ghost use Rattle.model.specs.Site.{row_before};
ghost use Rattle.model.specs.SiteFile.{row};
ghost use Rattle.model.specs.Store.{table_words};
ghost use Rattle.site_elements.specs.Reading.{TakenAs, comes_after};

use crate::term::read_term;
use model::refusal::Refusal;
use row_order::order::row_before;

// A row comes after the last one; any does where none is.
fn comes_after(last: Option<(u32, u32)>, subject: u32, object: u32) -> bool
    ensures { result ≡ comes_after row_before last (subject, object) }
{
    last.is_none_or(|row| row_before(row.0, row.1, subject, object))
}

// The n rows of a table, as words from `to` on. Gives the place after them.
pub fn read_rows(
    s: &[u8],
    at: usize,
    n: usize,
    image: &mut [u32],
    to: usize,
) -> Result<usize, Refusal>
    requires { to + 2 * n ≤ length image.old }
    ensures { TakenAs (repeated row n [] (drop at s.now)) (λ rs. image.new ≡ sets image.old to (table_words rs)) s.now result }
{
    let mut next = at;
    let mut last: Option<(u32, u32)> = None;
    for i in 0..n {
        let (subject, middle) = read_term(s, next, Refusal::RowNotOfTerms)?;
        let (object, after) = read_term(s, middle, Refusal::RowNotOfTerms)?;
        if !comes_after(last, subject, object) {
            return Err(Refusal::RowsNotAscending);
        }
        image[to + 2 * i] = subject;
        image[to + 2 * i + 1] = object;
        last = Some((subject, object));
        next = after;
    }
    Ok(next)
}
