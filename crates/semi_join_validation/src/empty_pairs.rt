ghost use Rattle.std.specs.Prelude.{◌≡◌, ◌<◌};
ghost use Rattle.model.specs.Site.{most_predicates};
ghost use Rattle.tables.specs.Kinds.{kind_as};
ghost use Rattle.tables.specs.SiteWords.{ImageOf};
ghost use Rattle.semi_join_validation.specs.Joins.{kind_apart, kinds_apart, empty_pair};

use row_order::bounds::all_at_most;
use statistics::ranges::{ValueRange, columns_apart, range_at};
use tables::kinds::{KINDS, Kind};
use tables::layout::entry_of_kind;

// Whether the columns that a kind of p against q compares are apart.
fn kind_apart(ranges: &[ValueRange; 32], p: usize, q: usize, kind: Kind) -> bool
    requires { (p < most_predicates) × (q < most_predicates) }
    ensures { result ≡ kind_apart ranges.now p q (kind_as kind) }
{
    let a = range_at(p, kind.own());
    let b = range_at(q, kind.partner());
    columns_apart(ranges[a], ranges[b])
}

// Whether those of each kind are.
fn kinds_apart(ranges: &[ValueRange; 32], p: usize, q: usize) -> bool
    requires { (p < most_predicates) × (q < most_predicates) }
    ensures { result ≡ kinds_apart ranges.now p q }
{
    Kind::ALL.iter().all(|kind| kind_apart(ranges, p, q, *kind))
}

// Whether, by the ranges, no semi-join of p against q leaves a row, and the entries say so: asked once for all kinds.
pub fn is_empty_pair(w: &[u32], ranges: &[ValueRange; 32], count: usize, p: usize, q: usize) -> bool
    requires { ImageOf count w.now × (p < count) × (q < count) }
    ensures { result ≡ empty_pair count w.now ranges.now p q }
{
    if !kinds_apart(ranges, p, q) {
        return false;
    }
    all_at_most(w, entry_of_kind(count, p, q, Kind::SS), 2 * KINDS, 0)
}
