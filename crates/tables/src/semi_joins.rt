ghost use Rattle.std.specs.Prelude.{◌≡◌, ◌<◌, ◌≤◌, ◌*◌};
ghost use Rattle.model.specs.Tables.{Column, kind_count};
ghost use Rattle.model.specs.Store.{semi_join_place};
ghost use Rattle.tables.specs.Columns.{column_as};
ghost use Rattle.tables.specs.Kinds.{kind_number};
ghost use Rattle.tables.specs.SiteWords.{site_in, ImageOf};
ghost use Rattle.tables.specs.SemiJoins.{SideOf, SidesOf, SemiJoinOf};

use crate::columns::Column;
use crate::kinds::{KINDS, Kind};
use crate::layout::{entry_of_kind, table_entry};

// One side of a semi-join: where its rows start in the words, how many they are, and the column that is compared.
#[derive(Clone, Copy, Debug, PartialEq, Eq)]
pub struct Side {
    pub start: usize,
    pub rows: usize,
    pub column: Column,
}

// The table of the predicate at place i, by a column.
fn side_of(image: &[u32], count: usize, i: usize, column: Column) -> Side
    requires { ImageOf count image.now × (i < count) }
    ensures { SideOf image.now i (column_as column) result }
{
    let table = table_entry(image, i);
    Side {
        start: table.start,
        rows: table.rows,
        column,
    }
}

// A semi-join in an image: where its entry stands, the side whose rows are left, and that of their partners.
#[derive(Clone, Copy, Debug, PartialEq, Eq)]
pub struct SemiJoin {
    pub entry: usize,
    pub own: Side,
    pub partner: Side,
}

impl SemiJoin {
    // The one of a kind of predicate p against predicate q, in an image of `count` predicates.
    pub fn of(image: &[u32], count: usize, p: usize, q: usize, kind: Kind) -> SemiJoin
        requires { ImageOf count image.now × (p < count) × (q < count) }
        ensures semi_join_of { SemiJoinOf (site_in count image.now) image.now (semi_join_place count p q (kind_number kind)) result }
        ensures sides_of { SidesOf image.now p q kind result }
    {
        SemiJoin {
            entry: entry_of_kind(count, p, q, kind),
            own: side_of(image, count, p, kind.own()),
            partner: side_of(image, count, q, kind.partner()),
        }
    }

    // The x-th: for each p, each q, each kind, in that nesting.
    pub fn nth(image: &[u32], count: usize, x: usize) -> SemiJoin
        requires { ImageOf count image.now × (x < count * (count * kind_count)) }
        ensures { SemiJoinOf (site_in count image.now) image.now x result }
    {
        let pair = x / KINDS;
        let kind = Kind::numbered(x % KINDS);
        SemiJoin::of(image, count, pair / count, pair % count, kind)
    }
}
