ghost use Rattle.std.specs.Prelude.{◌≡◌, ◌≤◌, ◌+◌, ◌*◌, length, take, drop};
ghost use Rattle.model.specs.Lists.{filter, same_words};
ghost use Rattle.model.specs.Store.{rows_in, table_words};
ghost use Rattle.searching.specs.Search.{SortedRun};
ghost use Rattle.stored_rows.specs.StoredRows.{is_between};

use searching::search::{guessed_lower_bound, upper_bound};

// Whether the n words at a are those at b. None ends the walk, so that several are compared at once.
fn same_words(w: &[u32], a: usize, b: usize, n: usize) -> bool
    requires { (a + n ≤ length w.now) × (b + n ≤ length w.now) }
    ensures { result ≡ same_words (take n (drop a w.now)) (take n (drop b w.now)) }
{
    let mut same = true;
    for i in 0..n {
        if w[a + i] != w[b + i] {
            same = false;
        }
    }
    same
}

// Whether the k rows at `at` are those of m rows whose subject is between two numbers, in their order: subjects ascend, so that these rows
// stand one behind another.
pub fn compare_between(
    w: &[u32],
    start: usize,
    m: usize,
    lowest: u32,
    highest: u32,
    at: usize,
    k: usize,
) -> bool
    requires { SortedRun w.now start 2 m × (at + 2 * k ≤ length w.now) }
    ensures { result ≡ same_words (take (2 * k) (drop at w.now)) (table_words (filter (λ row. is_between lowest highest row.0) (rows_in m (drop start w.now)))) }
{
    let before = guessed_lower_bound(w, start, 2, m, lowest);
    let first = start + 2 * before;
    let count = upper_bound(w, first, 2, m - before, highest);
    count == k && same_words(w, at, first, 2 * k)
}
