ghost use Rattle.std.specs.Prelude.{◌≡◌, ◌<◌, ◌≤◌, ◌+◌, length, get_or, map};
ghost use Rattle.tables.specs.Kinds.{kind_number};
ghost use Rattle.tables.specs.SiteWords.{ImageOf};
ghost use Rattle.tables.specs.declared.kinds.TheConstants.Kind.{ALL};
ghost use Rattle.semi_join_validation.specs.Joins.{entry_agrees, is_told};

use statistics::ranges::{ValueRange, columns_apart, range_at};
use tables::kinds::{KINDS, Kind};
use tables::layout::{entry_of_kind, semi_join_entry, table_entry};

// Whether two columns are one, so that all n rows are left, or are apart, so that none is, and the entry at a place says so.
fn entry_agrees(
    w: &[u32],
    ranges: &[ValueRange; 32],
    a: usize,
    b: usize,
    n: usize,
    entry: usize,
) -> bool
    requires { (a < 32) × (b < 32) × (entry + 2 ≤ length w.now) }
    ensures { result ≡ entry_agrees ranges.now a b (get_or w.now entry 0) (get_or w.now (entry + 1) 0) n }
{
    let said = semi_join_entry(w, entry);
    if said.start != 0 {
        return false;
    }
    if a == b {
        return said.rows == n;
    }
    if said.rows != 0 {
        return false;
    }
    columns_apart(ranges[a], ranges[b])
}

// Whether the ranges tell what the semi-join of a kind of p against q leaves, and its entry says so: then no row of it is stored.
fn is_told(
    w: &[u32],
    ranges: &[ValueRange; 32],
    count: usize,
    p: usize,
    q: usize,
    kind: Kind,
) -> bool
    requires { ImageOf count w.now × (p < count) × (q < count) }
    ensures { result ≡ is_told count w.now ranges.now p q (kind_number kind) }
{
    let table = table_entry(w, p);
    let a = range_at(p, kind.own());
    let b = range_at(q, kind.partner());
    entry_agrees(
        w,
        ranges,
        a,
        b,
        table.rows,
        entry_of_kind(count, p, q, kind),
    )
}

// Which kinds of p against q are told. Nothing else is done for a kind here, so that LLVM writes the kinds out one by one and
// the columns of each are constants.
pub fn tell_kinds(
    w: &[u32],
    ranges: &[ValueRange; 32],
    count: usize,
    p: usize,
    q: usize,
) -> [bool; KINDS]
    requires { ImageOf count w.now × (p < count) × (q < count) }
    ensures { result ≡ map (λ kind. is_told count w.now ranges.now p q (kind_number kind)) ALL }
{
    Kind::ALL.map(|kind| is_told(w, ranges, count, p, q, kind))
}
