ghost use Rattle.std.specs.Prelude.{◌≡◌, ◌≤◌, [], length, drop, ltb};
ghost use Rattle.std.proofs.lemmas.List.Edits.{sets};
ghost use Rattle.model.specs.Reader.{repeated};
ghost use Rattle.model.specs.Site.{most_predicates};
ghost use Rattle.model.specs.SiteFile.{declaration};
ghost use Rattle.model.specs.Store.{rows_start, vp_entries};
ghost use Rattle.tables.specs.SiteWords.{image_words};
ghost use Rattle.site_elements.specs.Reading.{TakenAs, comes_after};

use crate::term::read_term;
use model::refusal::Refusal;
use numbers::number::read_number;
use tables::layout::{put_table_entry, rows_start};
use tables::limits::MOST_ROWS;

// A term comes after the last one; any does where none is.
fn comes_after(last: Option<u32>, term: u32) -> bool
    ensures { result ≡ comes_after ltb last term }
{
    last.is_none_or(|last| last < term)
}

// The declarations of `count` predicates, as entries from the third word on. Gives the place after them.
pub fn read_declarations(
    s: &[u8],
    at: usize,
    count: usize,
    image: &mut [u32],
) -> Result<usize, Refusal>
    requires { (count ≤ most_predicates) × (image_words ≤ length image.old) }
    ensures { TakenAs (repeated declaration count [] (drop at s.now)) (λ ds. image.new ≡ sets image.old 3 (vp_entries (rows_start count) ds)) s.now result }
{
    let mut next = at;
    let mut total: usize = 0;
    let mut here = rows_start(count);
    let mut last: Option<u32> = None;
    for i in 0..count {
        let (term, middle) = read_term(s, next, Refusal::PredicatesNotAscending)?;
        if !comes_after(last, term) {
            return Err(Refusal::PredicatesNotAscending);
        }
        let Some((rows, after)) = read_number(s, middle) else {
            return Err(Refusal::SiteNumberMalformed);
        };
        let n = rows as usize;
        if MOST_ROWS < total + n {
            return Err(Refusal::TooManyRows);
        }
        put_table_entry(image, i, term, rows, here as u32);
        total += n;
        here += 2 * n;
        last = Some(term);
        next = after;
    }
    Ok(next)
}
