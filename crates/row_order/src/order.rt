ghost use Rattle.std.specs.Prelude.{◌≡◌, ◌<◌, ◌≤◌, ◌+◌, ◌*◌, true, cond, length, take, drop, leb};
ghost use Rattle.model.specs.Lists.{all, ascends};
ghost use Rattle.model.specs.Numbers.{most_term, is_term};
ghost use Rattle.model.specs.Site.{row_before, rows_proper};
ghost use Rattle.model.specs.Store.{rows_in};

use crate::bounds::all_at_most;
use tables::limits::MOST_TERM;

// The row (s, o) comes before the row (t, p).
pub fn row_before(s: u32, o: u32, t: u32, p: u32) -> bool
    ensures { result ≡ row_before (s, o) (t, p) }
{
    s < t || (s == t && o < p)
}

// Terms are below the half of what a word holds.
const HALF: u32 = 2147483648;

// 1 where a is at least b, else 0: by a difference, since a second comparison would keep rows from being asked several at once.
fn at_least(a: u32, b: u32) -> u32
    requires { (a ≤ most_term) × (b ≤ most_term) }
    ensures { (result ≡ cond (leb b a) 1 0) × (result ≤ 1) }
{
    (HALF + a - b) / HALF
}

// Whether the n rows of terms at `start` strictly ascend: where objects do not, subjects must. None ends the walk.
fn rows_ascend(w: &[u32], start: usize, n: usize) -> bool
    requires { (0 < n) × (start + 2 * n ≤ length w.now) × (all is_term (take (2 * n) (drop start w.now)) ≡ true) }
    ensures { result ≡ ascends row_before (rows_in n (drop start w.now)) }
{
    let rows = &w[start..start + 2 * n];
    let mut ascending = true;
    for (row, next) in rows.chunks_exact(2).zip(rows[2..].chunks_exact(2)) {
        if next[0] < row[0] + at_least(row[1], next[1]) {
            ascending = false;
        }
    }
    ascending
}

// Whether the n rows at `start` hold terms and strictly ascend.
pub fn rows_proper(w: &[u32], start: usize, n: usize) -> bool
    requires { start + 2 * n ≤ length w.now }
    ensures { result ≡ rows_proper (rows_in n (drop start w.now)) }
{
    if n == 0 {
        return true;
    }
    all_at_most(w, start, 2 * n, MOST_TERM) && rows_ascend(w, start, n)
}
