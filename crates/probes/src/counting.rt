ghost use Rattle.std.specs.Prelude.{◌≡◌, ◌≤◌, ◌+◌, length};
ghost use Rattle.tables.specs.SemiJoins.{left_of};
ghost use Rattle.searching.specs.Search.{SortedRun, has_word};
ghost use Rattle.statistics.specs.IndexedTables.{passing, SearchableBy};
ghost use Rattle.statistics.specs.Ranges.{has_side_value, SideRange};
ghost use Rattle.probes.specs.OneHashFilter.{ContainsAll};

use crate::one_hash_filter::{insert_values, should_filter};
use crate::walking::walk_to;
use statistics::ranges::ValueRange;
use tables::columns::Column;
use tables::semi_joins::SemiJoin;

// How many of m ascending words are among n others: these ascend too, so that both are walked once, side by side.
fn count_common(
    own: &[u32],
    from: usize,
    step: usize,
    m: usize,
    words: &[u32],
    base: usize,
    stride: usize,
    n: usize,
    slots: &[u8],
) -> usize
    requires sorted_run { SortedRun own.now from step m }
    requires sorted_run_2 { SortedRun words.now base stride n × ContainsAll (has_word words.now base stride n) slots.now }
    ensures { result ≡ passing own.now from step m (has_word words.now base stride n) }
{
    let mut common: usize = 0;
    let mut place: usize = 0;
    for i in 0..m {
        let value = own[from + step * i];
        match walk_to(words, base, stride, n, slots, place, value) {
            Ok(met) => {
                place = met;
                common += 1;
            }
            Err(next) => place = next,
        }
    }
    common
}

// How many words of a semi-join's own column are values of its partners' column, which is walked in the rows or in the objects' copy.
fn count_values(
    own: &[u32],
    base: usize,
    stride: usize,
    w: &[u32],
    objects: &[u32],
    first: usize,
    join: SemiJoin,
    slots: &[u8],
) -> usize
    requires sorted_run { SortedRun own.now base stride join.own.rows × SearchableBy w.now objects.now first join.partner }
    requires contains_all { ContainsAll (has_side_value w.now join.partner) slots.now }
    ensures { result ≡ passing own.now base stride join.own.rows (has_side_value w.now join.partner) }
{
    let m = join.own.rows;
    let partner = join.partner;
    let n = partner.rows;
    match partner.column {
        Column::Subject => count_common(own, base, stride, m, w, partner.start, 2, n, slots),
        Column::Object => {
            let copy = (partner.start - first) / 2;
            count_common(own, base, stride, m, objects, copy, 1, n, slots)
        }
    }
}

// The same, with a filter of the partners' values or without.
fn count_filtered(
    own: &[u32],
    base: usize,
    stride: usize,
    w: &[u32],
    objects: &[u32],
    first: usize,
    join: SemiJoin,
    filtered: bool,
) -> usize
    requires { SortedRun own.now base stride join.own.rows × SearchableBy w.now objects.now first join.partner }
    ensures { result ≡ passing own.now base stride join.own.rows (has_side_value w.now join.partner) }
{
    if !filtered {
        // Fewer slots than remainders: no filter.
        return count_values(own, base, stride, w, objects, first, join, &[0u8; 1]);
    }
    let mut slots = [0u8; 1024];
    insert_values(w, join.partner, &mut slots);
    count_values(own, base, stride, w, objects, first, join, &slots)
}

// How many rows a semi-join leaves, by the columns that are compared, whose ranges are a and b. By these all may be left; else both
// columns are walked, where they ascend: the subjects in the rows, the objects in the copy.
pub fn count_partnered(
    w: &[u32],
    objects: &[u32],
    first: usize,
    a: ValueRange,
    b: ValueRange,
    join: SemiJoin,
) -> usize
    requires searchable_by { SearchableBy w.now objects.now first join.own × SearchableBy w.now objects.now first join.partner }
    requires own_range { SideRange w.now join.own a }
    requires partner_range { SideRange w.now join.partner b }
    ensures { result ≡ length (left_of w.now join) }
{
    if b.whole && b.lowest <= a.lowest && a.highest <= b.highest {
        return join.own.rows;
    }
    let filtered = should_filter(b, join.partner.rows);
    match join.own.column {
        Column::Subject => count_filtered(w, join.own.start, 2, w, objects, first, join, filtered),
        Column::Object => {
            let copy = (join.own.start - first) / 2;
            count_filtered(objects, copy, 1, w, objects, first, join, filtered)
        }
    }
}
