ghost use Rattle.std.specs.Prelude.{◌≡◌, ◌≤◌, [], length, drop};
ghost use Rattle.std.proofs.lemmas.List.Edits.{sets};
ghost use Rattle.model.specs.Reader.{all_read};
ghost use Rattle.model.specs.Site.{most_predicates, most_rows};
ghost use Rattle.model.specs.SiteFile.{tables, read_site};
ghost use Rattle.model.specs.Store.{rows_start, vp_words};
ghost use Rattle.tables.specs.SiteWords.{declared_in, declared_rows, image_words};
ghost use Rattle.site_elements.specs.Reading.{TakenAs};
ghost use Rattle.site_reading.specs.Image.{DeclaredIn, SiteReadAs};

use model::refusal::Refusal;
use numbers::number::read_number;
use site_elements::declarations::read_declarations;
use site_elements::table_rows::read_rows;
use tables::layout::{rows_start, table_entry};
use tables::limits::MOST_PREDICATES;

// The rows of the declared predicates, one table behind the other. Gives the place after them.
fn read_tables(s: &[u8], at: usize, count: usize, image: &mut [u32]) -> Result<usize, Refusal>
    requires { (count ≤ most_predicates) × (image_words ≤ length image.old) × (declared_rows count (drop 3 image.old) ≤ most_rows) }
    ensures { TakenAs (tables (declared_in count (drop 3 image.old)) [] (drop at s.now)) (λ site. image.new ≡ sets image.old (rows_start count) (vp_words site)) s.now result }
{
    let mut next = at;
    let mut to = rows_start(count);
    for i in 0..count {
        let rows = table_entry(image, i).rows;
        next = read_rows(s, next, rows, image, to)?;
        to += 2 * rows;
    }
    Ok(next)
}

// Questions 2 to 8. The site's entries and rows stand in the image; gives the count of its predicates.
pub fn read_site(s: &[u8], image: &mut [u32]) -> Result<usize, Refusal>
    requires { image_words ≤ length image.old }
    ensures { SiteReadAs (read_site s.now) image.new result }
{
    let Some((predicates, at)) = read_number(s, 0) else {
        return Err(Refusal::SiteNumberMalformed);
    };
    let count = predicates as usize;
    if MOST_PREDICATES < count {
        return Err(Refusal::TooManyPredicates);
    }
    let next = read_declarations(s, at, count, image)?;
    read_rest(s, next, count, image)
}

// The tables of a site, and the file's end.
fn read_rest(s: &[u8], at: usize, count: usize, image: &mut [u32]) -> Result<usize, Refusal>
    requires { (count ≤ most_predicates) × (image_words ≤ length image.old) × DeclaredIn count image.old }
    ensures { SiteReadAs (all_read 8 (tables (declared_in count (drop 3 image.old)) [] (drop at s.now))) image.new result }
{
    let end = read_tables(s, at, count, image)?;
    if end < s.len() {
        return Err(Refusal::SiteNotEnded);
    }
    Ok(count)
}
