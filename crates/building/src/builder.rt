ghost use Rattle.std.specs.Prelude.{◌≡◌, ◌≤◌, ◌+◌, length};
ghost use Rattle.std.proofs.lemmas.List.Edits.{sets};
ghost use Rattle.model.specs.Tables.{most_threshold};
ghost use Rattle.model.specs.Store.{semi_joins, semi_join_entries, stored_start, stored_words, layout, vp_entry_at};
ghost use Rattle.model.specs.Calls.{outcome, filled};
ghost use Rattle.model.specs.Results.{build_answer};
ghost use Rattle.tables.specs.SiteWords.{site_in, ImageOf, CountsIn};

use model::refusal::Refusal;
use reducing::semi_join_count::count_semi_join;
use reducing::semi_join_write::write_semi_join;
use tables::kinds::{KINDS, is_stored};
use tables::layout::{
    nth_semi_join_entry_at, put_semi_join_entry, rows_start, semi_join_entry, table_entry,
};
use tables::semi_joins::SemiJoin;

// Where the stored tables' rows begin.
fn stored_start(image: &[u32], count: usize) -> usize
    requires { ImageOf count image.now }
    ensures { result ≡ stored_start (site_in count image.now) }
{
    if count == 0 {
        return rows_start(0);
    }
    let last = table_entry(image, count - 1);
    last.start + 2 * last.rows
}

// The entries of the semi-joins: each row count, and the start of each stored table, the first at `first`. Gives the count of words used.
fn fill_entries(t: usize, count: usize, image: &mut [u32], first: usize) -> usize
    requires { ImageOf count image.old × (t ≤ most_threshold) × (first ≡ stored_start (site_in count image.old)) }
    ensures value { result ≡ length (layout t (site_in count image.old)) }
    ensures image_after { image.new ≡ sets image.old (vp_entry_at count) (semi_join_entries t first (semi_joins (site_in count image.old))) }
{
    let mut here = first;
    for x in 0..count * (count * KINDS) {
        let join = SemiJoin::nth(image, count, x);
        let rows = join.own.rows;
        let left = count_semi_join(image, join);
        if is_stored(t, left, rows) {
            put_semi_join_entry(
                image,
                nth_semi_join_entry_at(count, x),
                left as u32,
                here as u32,
            );
            here += 2 * left;
        } else {
            put_semi_join_entry(image, nth_semi_join_entry_at(count, x), left as u32, 0);
        }
    }
    here
}

// The rows of the stored tables, from `first` on.
fn write_stored(t: usize, count: usize, image: &[u32], store: &mut [u32], first: usize)
    requires image_of { ImageOf count image.now × (t ≤ most_threshold) × CountsIn count image.now }
    requires image_in_bounds { first + length (stored_words t (semi_joins (site_in count image.now))) ≤ length store.old }
    ensures { store.new ≡ sets store.old first (stored_words t (semi_joins (site_in count image.now))) }
{
    let mut next = first;
    for x in 0..count * (count * KINDS) {
        let join = SemiJoin::nth(image, count, x);
        let left = semi_join_entry(image, nth_semi_join_entry_at(count, x)).rows;
        if is_stored(t, left, join.own.rows) {
            next = write_semi_join(image, join, store, next);
        }
    }
}

// Question 9, and then the words: nothing is written before the count of words used, which it gives, is known.
pub fn fill_store(
    t: u32,
    count: usize,
    image: &mut [u32],
    store: &mut [u32],
) -> Result<u32, Refusal>
    requires { ImageOf count image.old × (t ≤ most_threshold) }
    ensures { outcome (build_answer result) store.new ≡ filled t (site_in count image.old) store.old }
{
    let threshold = t as usize;
    let first = stored_start(image, count);
    let used = fill_entries(threshold, count, image, first);
    if store.len() < used {
        return Err(Refusal::StoreTooSmall);
    }
    image[0] = count as u32;
    image[1] = t;
    image[2] = used as u32;
    store[..first].copy_from_slice(&image[..first]);
    write_stored(threshold, count, image, store, first);
    Ok(used as u32)
}
