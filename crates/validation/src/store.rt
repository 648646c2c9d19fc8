ghost use Rattle.std.specs.Prelude.{◌≡◌};
ghost use Rattle.model.specs.Store.{decoded, is_store_of};

use semi_join_validation::semi_joins::semi_joins_hold;
use site_validation::entries::{rows_end, tables_proper};
use tables::layout::rows_start;
use tables::limits::{MOST_PREDICATES, MOST_THRESHOLD};

// Question 10.
pub fn is_store(w: &[u32]) -> bool
    ensures { result ≡ is_store_of (decoded w.now) w.now }
{
    let [count, t, used, ..] = w else {
        return false;
    };
    let count = *count as usize;
    let t = *t;
    let used = *used as usize;
    if MOST_PREDICATES < count || MOST_THRESHOLD < t {
        return false;
    }
    if w.len() < used || used < rows_start(count) {
        return false;
    }
    let Some(first) = rows_end(w, count) else {
        return false;
    };
    if used < first {
        return false;
    }
    tables_proper(w, count) && semi_joins_hold(t as usize, w, count, first, used)
}
