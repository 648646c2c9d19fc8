ghost use Rattle.std.specs.Prelude.{◌≡◌, ◌<◌, ◌≤◌, ◌+◌, ◌*◌, length, set};
ghost use Rattle.model.specs.Site.{most_predicates};
ghost use Rattle.tables.specs.Columns.{offset_of};
ghost use Rattle.tables.specs.SiteWords.{ImageOf};
ghost use Rattle.searching.specs.Search.{SortedRun};
ghost use Rattle.statistics.specs.Compared.{are_compared};
ghost use Rattle.statistics.specs.Ranges.{is_gapless, ColumnRange, range_at, AllMeasured, ranges_apart, meets_other, is_reached, objects_reached};

use tables::columns::Column;
use tables::layout::table_entry;

// Whether each of n ascending words is at most one above the word before it, so that no number between the first and the last is missing.
pub fn is_gapless(words: &[u32], base: usize, stride: usize, n: usize) -> bool
    requires { SortedRun words.now base stride n }
    ensures { result ≡ is_gapless words.now base stride n }
{
    for i in 1..n {
        if 1 < words[base + stride * i] - words[base + stride * (i - 1)] {
            return false;
        }
    }
    true
}

// The range of a column's values: the lowest, the highest, and whether each number between them is known to be a value too. That of no
// values ends before it begins.
#[derive(Clone, Copy)]
pub struct ValueRange {
    pub lowest: u32,
    pub highest: u32,
    pub whole: bool,
}

impl ValueRange {
    pub const NONE: ValueRange = ValueRange {
        lowest: 1,
        highest: 0,
        whole: false,
    };
}

// The ranges of a table's columns. Subjects ascend, so that it is known whether their range is whole; objects are in no order.
#[derive(Clone, Copy)]
pub struct TableRanges {
    pub subjects: ValueRange,
    pub objects: ValueRange,
}

// The ranges of the columns of the n rows at `start`; those of none are empty. No row ends the walk, so that several are looked at at once.
fn column_ranges(w: &[u32], start: usize, n: usize) -> TableRanges
    requires { SortedRun w.now start 2 n }
    ensures subjects { ColumnRange w.now start n 0 result.subjects }
    ensures objects { ColumnRange w.now start n 1 result.objects }
{
    if n == 0 {
        return TableRanges {
            subjects: ValueRange::NONE,
            objects: ValueRange::NONE,
        };
    }
    let first = w[start];
    let mut last = first;
    let mut whole = true;
    let mut lowest = w[start + 1];
    let mut highest = lowest;
    for i in 1..n {
        let subject = w[start + 2 * i];
        let object = w[start + 2 * i + 1];
        if 1 < subject - last {
            whole = false;
        }
        last = subject;
        if object < lowest {
            lowest = object;
        }
        if highest < object {
            highest = object;
        }
    }
    TableRanges {
        subjects: ValueRange {
            lowest: first,
            highest: last,
            whole,
        },
        objects: ValueRange {
            lowest,
            highest,
            whole: false,
        },
    }
}

// Where the range of a column of the table at place p stands among the ranges: that of its subjects, then that of its objects.
pub fn range_at(p: usize, column: Column) -> usize
    requires { p < most_predicates }
    ensures { result ≡ range_at p (offset_of column) }
{
    2 * p + column.offset()
}

// The ranges of the two columns of each table: of its subjects, and of its objects.
pub fn collect_statistics(w: &[u32], count: usize, ranges: &mut [ValueRange; 32])
    requires { ImageOf count w.now × (length ranges.old ≡ 32) }
    ensures { AllMeasured w.now ranges.new count × (length ranges.new ≡ 32) }
{
    for i in 0..count {
        let table = table_entry(w, i);
        let columns = column_ranges(w, table.start, table.rows);
        ranges[range_at(i, Column::Subject)] = columns.subjects;
        ranges[range_at(i, Column::Object)] = columns.objects;
    }
}

// Whether no value can be in both of two columns, by their ranges.
pub fn columns_apart(a: ValueRange, b: ValueRange) -> bool
    ensures { result ≡ ranges_apart a b }
{
    a.highest < b.lowest || b.highest < a.lowest
}

// Whether two ranges are those of two columns, and some value may be in both.
fn meets_other(ranges: &[ValueRange; 32], a: usize, b: usize) -> bool
    requires { (a < 32) × (b < 32) }
    ensures { result ≡ meets_other ranges.now a b }
{
    a != b && !columns_apart(ranges[a], ranges[b])
}

// Whether a column of some table, other than the one whose range stands at a place, is not apart from it.
fn is_reached(ranges: &[ValueRange; 32], count: usize, column: Column, place: usize) -> bool
    requires { (count ≤ most_predicates) × (place < 32) }
    ensures { result ≡ is_reached ranges.now count (offset_of column) place }
{
    (0..count).any(|p| meets_other(ranges, range_at(p, column), place))
}

// Whether another column that is compared with objects is not apart from the objects of table i, told which columns are.
pub fn objects_reached(
    ranges: &[ValueRange; 32],
    count: usize,
    subjects: bool,
    objects: bool,
    i: usize,
) -> bool
    requires { (count ≤ most_predicates) × (i < most_predicates) × (subjects ≡ are_compared 0 1) × (objects ≡ are_compared 1 1) }
    ensures { result ≡ objects_reached ranges.now count i }
{
    let place = range_at(i, Column::Object);
    if subjects && is_reached(ranges, count, Column::Subject, place) {
        return true;
    }
    objects && is_reached(ranges, count, Column::Object, place)
}
