ghost use Rattle.std.specs.Prelude.{◌≡◌, ◌<◌, ◌≤◌, ◌+◌, ◌*◌, cond, Some, None, length};
ghost use Rattle.model.specs.Site.{row_total};
ghost use Rattle.model.specs.Tables.{kind_count, most_threshold};
ghost use Rattle.model.specs.Store.{stored_rows, rows_start, semi_join_place, semi_join_entry_at};
ghost use Rattle.tables.specs.Kinds.{kind_number};
ghost use Rattle.tables.specs.SemiJoins.{left_of};
ghost use Rattle.tables.specs.SiteWords.{site_in, ImageOf, reduced_at};
ghost use Rattle.probes.specs.Probed.{Probed};
ghost use Rattle.statistics.specs.IndexedTables.{IndexedTables};
ghost use Rattle.statistics.specs.Ranges.{SideRange};
ghost use Rattle.semi_join_validation.specs.Joins.{SemiJoinWords, stored_holds, not_stored_holds, join_holds, Joined, joins_hold, HoldUpTo};

use crate::empty_pairs::is_empty_pair;
use crate::told_kinds::tell_kinds;
use probes::counting::count_partnered;
use statistics::objects::copy_objects;
use statistics::ranges::{ValueRange, collect_statistics, columns_apart, range_at};
use stored_rows::comparing::compare_partnered;
use tables::kinds::{Kind, is_stored};
use tables::layout::{rows_start, semi_join_entry};
use tables::semi_joins::SemiJoin;

// Where the `left` rows that a semi-join leaves end, if they stand at `here`, as their entry says by `start`, and end at `used` or before. The
// range of its partners' column is given.
fn stored_end(
    w: &[u32],
    objects: &[u32],
    range: ValueRange,
    first: usize,
    join: SemiJoin,
    start: usize,
    left: usize,
    here: usize,
    used: usize,
) -> Option<usize>
    requires probed { Probed w.now objects.now first join × (left ≤ join.own.rows) × (here ≤ used) × (used ≤ length w.now) }
    requires partner_range { SideRange w.now join.partner range }
    ensures { result ≡ cond (stored_holds w.now (left_of w.now join) start left here used) (Some (here + 2 * left)) None }
{
    let end = here + 2 * left;
    if start != here || used < end {
        return None;
    }
    compare_partnered(w, objects, first, range, join, here, left).then_some(end)
}

// Where the rows end that are stored of none, `here`, if their entry has `counted` for their count and no start.
fn not_stored_end(left: usize, start: usize, counted: usize, here: usize) -> Option<usize>
    ensures { result ≡ cond (not_stored_holds left start counted) (Some here) None }
{
    (left == counted && start == 0).then_some(here)
}

// Where the stored rows of the semi-join of a kind of p against q end, if they and its entry are as they should be and the rows begin at `here`.
fn semi_join_end(
    t: usize,
    w: &[u32],
    objects: &[u32],
    ranges: &[ValueRange; 32],
    first: usize,
    count: usize,
    p: usize,
    q: usize,
    kind: Kind,
    here: usize,
    used: usize,
) -> Option<usize>
    requires image_of { ImageOf count w.now × (p < count) × (q < count) × (t ≤ most_threshold) × (here ≤ used) × (used ≤ length w.now) }
    requires indexed_tables { IndexedTables count w.now objects.now ranges.now × (first ≡ rows_start count) }
    ensures { result ≡ cond (join_holds t w.now (reduced_at (site_in count w.now) (semi_join_place count p q (kind_number kind))) (semi_join_entry_at count p q (kind_number kind)) here used) (Some (here + 2 * length (stored_rows t (reduced_at (site_in count w.now) (semi_join_place count p q (kind_number kind)))))) None }
{
    let join = SemiJoin::of(w, count, p, q, kind);
    let rows = join.own.rows;
    let entry = semi_join_entry(w, join.entry);
    let left = entry.rows;
    let start = entry.start;
    let a = range_at(p, join.own.column);
    let b = range_at(q, join.partner.column);
    if a == b {
        // A column against itself leaves all rows, which are never stored.
        return not_stored_end(left, start, rows, here);
    }
    let range = ranges[a];
    let partner_range = ranges[b];
    if columns_apart(range, partner_range) {
        return not_stored_end(left, start, 0, here);
    }
    if rows < left {
        return None;
    }
    if is_stored(t, left, rows) {
        return stored_end(
            w,
            objects,
            partner_range,
            first,
            join,
            start,
            left,
            here,
            used,
        );
    }
    let counted = count_partnered(w, objects, first, range, partner_range, join);
    not_stored_end(left, start, counted, here)
}

// Where the stored rows of the semi-joins of p against q end, if they and their entries are as they should be and the rows begin at `here`.
fn pair_end(
    t: usize,
    w: &[u32],
    objects: &[u32],
    ranges: &[ValueRange; 32],
    first: usize,
    count: usize,
    p: usize,
    q: usize,
    here: usize,
    used: usize,
) -> Option<usize>
    requires image_of { ImageOf count w.now × (p < count) × (q < count) × (t ≤ most_threshold) × (used ≤ length w.now) }
    requires indexed_tables { IndexedTables count w.now objects.now ranges.now × (first ≡ rows_start count) × Joined t count w.now used here (semi_join_place count p q 0) }
    ensures { HoldUpTo t count w.now used (semi_join_place count p q kind_count) result }
{
    let told = tell_kinds(w, ranges, count, p, q);
    let mut end = here;
    for kind in Kind::ALL {
        if !told[kind.number()] {
            end = semi_join_end(t, w, objects, ranges, first, count, p, q, kind, end, used)?;
        }
    }
    Some(end)
}

// Where the stored rows of the semi-joins of p against each q end, if they and their entries are as they should be and the rows begin at `here`.
fn predicate_end(
    t: usize,
    w: &[u32],
    objects: &[u32],
    ranges: &[ValueRange; 32],
    first: usize,
    count: usize,
    p: usize,
    here: usize,
    used: usize,
) -> Option<usize>
    requires image_of { ImageOf count w.now × (p < count) × (t ≤ most_threshold) × (used ≤ length w.now) }
    requires indexed_tables { IndexedTables count w.now objects.now ranges.now × (first ≡ rows_start count) × Joined t count w.now used here (semi_join_place count p 0 0) }
    ensures { HoldUpTo t count w.now used (semi_join_place count (p + 1) 0 0) result }
{
    let mut end = here;
    for q in 0..count {
        if !is_empty_pair(w, ranges, count, p, q) {
            end = pair_end(t, w, objects, ranges, first, count, p, q, end, used)?;
        }
    }
    Some(end)
}

// Whether the entries and the stored rows of all semi-joins are as they should be, and the last rows end at `used`.
fn each_semi_join_holds(
    t: usize,
    w: &[u32],
    objects: &[u32],
    ranges: &[ValueRange; 32],
    count: usize,
    first: usize,
    used: usize,
) -> bool
    requires semi_join_words { SemiJoinWords t count w.now first used }
    requires indexed_tables { IndexedTables count w.now objects.now ranges.now }
    ensures { result ≡ joins_hold t count w.now used }
{
    let rows = rows_start(count);
    let mut here = first;
    for p in 0..count {
        let Some(next) = predicate_end(t, w, objects, ranges, rows, count, p, here, used) else {
            return false;
        };
        here = next;
    }
    here == used
}

// The same, with a lent word for the object of each row.
fn semi_joins_hold_with(
    t: usize,
    w: &[u32],
    count: usize,
    first: usize,
    used: usize,
    objects: &mut [u32],
) -> bool
    requires { SemiJoinWords t count w.now first used × (row_total (site_in count w.now) ≤ length objects.old) }
    ensures { result ≡ joins_hold t count w.now used }
{
    let mut ranges = [ValueRange {
        lowest: 0,
        highest: 0,
        whole: false,
    }; 32];
    collect_statistics(w, count, &mut ranges);
    copy_objects(w, count, &mut ranges, objects);
    each_semi_join_holds(t, w, objects, &ranges, count, first, used)
}

// The same, with words of its own: few for a small site, where to clear them all would cost more than the question.
pub fn semi_joins_hold(t: usize, w: &[u32], count: usize, first: usize, used: usize) -> bool
    requires { SemiJoinWords t count w.now first used }
    ensures { result ≡ joins_hold t count w.now used }
{
    if first <= rows_start(count) + 2 * 64 {
        let mut few = [0u32; 64];
        return semi_joins_hold_with(t, w, count, first, used, &mut few);
    }
    let mut objects = [0u32; 1024];
    semi_joins_hold_with(t, w, count, first, used, &mut objects)
}
