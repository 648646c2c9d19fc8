ghost use Rattle.std.specs.Prelude.{◌≡◌, ◌≤◌, ◌+◌, ◌*◌, true, length, drop};
ghost use Rattle.model.specs.Site.{row_total};
ghost use Rattle.tables.specs.SiteWords.{site_in, ImageOf};
ghost use Rattle.statistics.specs.IndexedTables.{CopyOf, IndexedTables};
ghost use Rattle.statistics.specs.Ranges.{is_gapless, AllMeasured};

use crate::compared::are_compared;
use crate::ranges::{ValueRange, is_gapless, objects_reached, range_at};
use rows::sorting::sort_rows;
use tables::columns::Column;
use tables::layout::{rows_start, table_entry};

// Puts the objects of the n rows at `start` into the first n words, in ascending order.
fn copy_sorted(w: &[u32], start: usize, n: usize, copy: &mut [u32])
    requires { (start + 2 * n ≤ length w.now) × (n ≤ length copy.old) }
    ensures { CopyOf w.now start n copy.new × (drop n copy.new ≡ drop n copy.old) }
{
    for r in 0..n {
        copy[r] = w[start + 2 * r + 1];
    }
    sort_rows(copy, 1, n);
}

// The same where they are reached, and then whether no number between the first and the last is missing.
fn copy_reached(w: &[u32], start: usize, n: usize, reached: bool, copy: &mut [u32]) -> bool
    requires { (start + 2 * n ≤ length w.now) × (n ≤ length copy.old) }
    ensures copy_of { reached ≡ true → CopyOf w.now start n copy.new }
    ensures reached_value { result ≡ true → (reached ≡ true) × (is_gapless copy.new 0 1 n ≡ true) }
{
    if !reached {
        return false;
    }
    copy_sorted(w, start, n, copy);
    is_gapless(copy, 0, 1, n)
}

// The objects of each table that other columns compared with them reach, in ascending order: a word for each row, in the order of the tables. With
// them it is told of their range whether numbers are missing.
pub fn copy_objects(w: &[u32], count: usize, ranges: &mut [ValueRange; 32], objects: &mut [u32])
    requires { ImageOf count w.now × (row_total (site_in count w.now) ≤ length objects.old) × AllMeasured w.now ranges.old count × (length ranges.old ≡ 32) }
    ensures { IndexedTables count w.now objects.new ranges.new }
{
    let first = rows_start(count);
    let object = Column::Object.offset();
    let by_subjects = are_compared(Column::Subject.offset(), object);
    let by_objects = are_compared(object, object);
    for i in 0..count {
        let table = table_entry(w, i);
        let n = table.rows;
        let start = table.start;
        let to = (start - first) / 2;
        let reached = objects_reached(ranges, count, by_subjects, by_objects, i);
        let whole = copy_reached(w, start, n, reached, &mut objects[to..]);
        ranges[range_at(i, Column::Object)].whole = whole;
    }
}
