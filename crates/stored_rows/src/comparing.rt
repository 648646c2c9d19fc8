ghost use Rattle.std.specs.Prelude.{◌≡◌, ◌≢◌, ◌≤◌, ◌+◌, ◌*◌, length, take, drop};
ghost use Rattle.model.specs.Lists.{filter, same_words};
ghost use Rattle.model.specs.Store.{rows_in, table_words};
ghost use Rattle.tables.specs.SemiJoins.{left_of};
ghost use Rattle.searching.specs.Search.{SortedRun, has_word};
ghost use Rattle.statistics.specs.Ranges.{has_side_value, SideRange};
ghost use Rattle.probes.specs.OneHashFilter.{ContainsAll, ToldBy};
ghost use Rattle.probes.specs.Probed.{Probed};
ghost use Rattle.stored_rows.specs.StoredRows.{stands_next};

use crate::between::compare_between;
use probes::one_hash_filter::{insert_values, should_filter};
use probes::values::has_partner;
use probes::walking::walk_to;
use statistics::ranges::ValueRange;
use tables::columns::Column;
use tables::semi_joins::SemiJoin;

// Whether a stored row is left at `next`, and is the one at `row`.
fn stands_next(w: &[u32], next: usize, end: usize, row: usize) -> bool
    requires { (next ≢ end → next + 2 ≤ length w.now) × (row + 2 ≤ length w.now) }
    ensures { result ≡ stands_next w.now next end row }
{
    if next == end {
        return false;
    }
    if w[next] != w[row] {
        return false;
    }
    w[next + 1] == w[row + 1]
}

// Whether the k rows at `at` are those that are left, in their order: each row's partner is looked for, by the filter and the range of the partners'
// values, then by search.
fn compare_searched(
    w: &[u32],
    objects: &[u32],
    first: usize,
    join: SemiJoin,
    slots: &[u8],
    lowest: u32,
    highest: u32,
    at: usize,
    k: usize,
) -> bool
    requires probed { Probed w.now objects.now first join × (at + 2 * k ≤ length w.now) }
    requires told_by { ToldBy (has_side_value w.now join.partner) slots.now lowest highest }
    ensures { result ≡ same_words (take (2 * k) (drop at w.now)) (table_words (left_of w.now join)) }
{
    let own = join.own;
    let column = own.column.offset();
    let end = at + 2 * k;
    let mut next = at;
    for i in 0..own.rows {
        let row = own.start + 2 * i;
        let value = w[row + column];
        if has_partner(
            w,
            objects,
            first,
            slots,
            lowest,
            highest,
            join.partner,
            value,
        ) {
            if !stands_next(w, next, end, row) {
                return false;
            }
            next += 2;
        }
    }
    next == end
}

// Whether the k rows at `at` are those of m rows whose subject is among n words, in their order. Both ascend, so that they are walked once,
// side by side.
fn compare_walked(
    w: &[u32],
    start: usize,
    m: usize,
    words: &[u32],
    base: usize,
    stride: usize,
    n: usize,
    slots: &[u8],
    at: usize,
    k: usize,
) -> bool
    requires sorted_run { SortedRun w.now start 2 m × (at + 2 * k ≤ length w.now) }
    requires sorted_run_2 { SortedRun words.now base stride n × ContainsAll (has_word words.now base stride n) slots.now }
    ensures { result ≡ same_words (take (2 * k) (drop at w.now)) (table_words (filter (λ row. has_word words.now base stride n row.0) (rows_in m (drop start w.now)))) }
{
    let end = at + 2 * k;
    let mut here = at;
    let mut place: usize = 0;
    for i in 0..m {
        let row = start + 2 * i;
        let value = w[row];
        match walk_to(words, base, stride, n, slots, place, value) {
            Ok(met) => {
                if !stands_next(w, here, end, row) {
                    return false;
                }
                here += 2;
                place = met;
            }
            Err(next) => place = next,
        }
    }
    here == end
}

// The rows that are left, compared: where the own column is the subject by a walk, else by search.
fn compare_filtered(
    w: &[u32],
    objects: &[u32],
    first: usize,
    join: SemiJoin,
    slots: &[u8],
    lowest: u32,
    highest: u32,
    at: usize,
    k: usize,
) -> bool
    requires probed { Probed w.now objects.now first join × (at + 2 * k ≤ length w.now) }
    requires told_by { ToldBy (has_side_value w.now join.partner) slots.now lowest highest }
    ensures { result ≡ same_words (take (2 * k) (drop at w.now)) (table_words (left_of w.now join)) }
{
    let own = join.own;
    if own.column == Column::Object {
        return compare_searched(w, objects, first, join, slots, lowest, highest, at, k);
    }
    let start = own.start;
    let m = own.rows;
    let partner = join.partner;
    let n = partner.rows;
    match partner.column {
        Column::Subject => compare_walked(w, start, m, w, partner.start, 2, n, slots, at, k),
        Column::Object => {
            let copy = (partner.start - first) / 2;
            compare_walked(w, start, m, objects, copy, 1, n, slots, at, k)
        }
    }
}

// The same, by the range of the partners' column: where each number of it is a value and the own column is the subject,
// no partner is looked for; else with a filter of the partners' values or without, and with the range.
pub fn compare_partnered(
    w: &[u32],
    objects: &[u32],
    first: usize,
    range: ValueRange,
    join: SemiJoin,
    at: usize,
    k: usize,
) -> bool
    requires probed { Probed w.now objects.now first join × (at + 2 * k ≤ length w.now) }
    requires partner_range { SideRange w.now join.partner range }
    ensures { result ≡ same_words (take (2 * k) (drop at w.now)) (table_words (left_of w.now join)) }
{
    let lowest = range.lowest;
    let highest = range.highest;
    if join.own.column == Column::Subject && range.whole {
        return compare_between(w, join.own.start, join.own.rows, lowest, highest, at, k);
    }
    if !should_filter(range, join.partner.rows) {
        // Fewer slots than remainders: no filter.
        return compare_filtered(w, objects, first, join, &[0u8; 1], lowest, highest, at, k);
    }
    let mut slots = [0u8; 1024];
    insert_values(w, join.partner, &mut slots);
    compare_filtered(w, objects, first, join, &slots, lowest, highest, at, k)
}
