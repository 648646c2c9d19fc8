ghost use Rattle.std.specs.Prelude.{◌≡◌, ◌<◌, ◌≤◌, ◌+◌, ◌*◌, true, cond, Some, None, length, drop, get_or};
ghost use Rattle.model.specs.Lists.{all};
ghost use Rattle.model.specs.Site.{most_predicates, rows_proper};
ghost use Rattle.model.specs.Store.{rows_start, rows_in, vp_entry_at};
ghost use Rattle.tables.specs.SiteWords.{declared_rows, entries_proper, site_in};

use row_order::order::rows_proper;
use tables::layout::{rows_start, table_entry};
use tables::limits::{MOST_ROWS, MOST_TERM};

// Where the rows of `count` predicates end, if their entries are those of a site.
pub fn rows_end(w: &[u32], count: usize) -> Option<usize>
    requires { (count ≤ most_predicates) × (rows_start count ≤ length w.now) }
    ensures { result ≡ cond (entries_proper count w.now) (Some (rows_start count + 2 * declared_rows count (drop 3 w.now))) None }
{
    let mut here = rows_start(count);
    let mut total: usize = 0;
    let mut last: u32 = 0;
    for i in 0..count {
        let table = table_entry(w, i);
        let term = table.term;
        if MOST_TERM < term {
            return None;
        }
        if 0 < i && term <= last {
            return None;
        }
        let rows = table.rows;
        if MOST_ROWS < total + rows {
            return None;
        }
        if table.start != here {
            return None;
        }
        last = term;
        total += rows;
        here += 2 * rows;
    }
    Some(here)
}

// Whether the rows of the predicate at place i hold terms and ascend.
fn table_proper(w: &[u32], count: usize, i: usize) -> bool
    requires { (count ≤ most_predicates) × (i < count) × (entries_proper count w.now ≡ true) × (rows_start count + 2 * declared_rows count (drop 3 w.now) ≤ length w.now) }
    ensures { result ≡ rows_proper (rows_in (get_or w.now (vp_entry_at i + 1) 0) (drop (get_or w.now (vp_entry_at i + 2) 0) w.now)) }
{
    let table = table_entry(w, i);
    rows_proper(w, table.start, table.rows)
}

// Whether the rows of each predicate hold terms and ascend.
pub fn tables_proper(w: &[u32], count: usize) -> bool
    requires { (count ≤ most_predicates) × (entries_proper count w.now ≡ true) × (rows_start count + 2 * declared_rows count (drop 3 w.now) ≤ length w.now) }
    ensures { result ≡ all (λ t. rows_proper t.rows) (site_in count w.now) }
{
    (0..count).all(|i| table_proper(w, count, i))
}
