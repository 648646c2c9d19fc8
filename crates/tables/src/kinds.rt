ghost use Rattle.std.specs.Prelude.{◌≡◌, ◌<◌, ◌≤◌};
ghost use Rattle.model.specs.Site.{most_rows};
ghost use Rattle.model.specs.Tables.{is_stored, kind_count, most_threshold};
ghost use Rattle.tables.specs.Columns.{column_as};
ghost use Rattle.tables.specs.Kinds.{kind_as, kind_number};

use crate::columns::Column;

// The kinds of semi-join: SS, OS, SO, OO.
pub const KINDS: usize = 4;

// A kind of semi-join: the column of the row, and that of its partner.
#[derive(Clone, Copy, Debug, PartialEq, Eq)]
pub enum Kind {
    SS,
    OS,
    SO,
    OO,
}

impl Kind {
    // In the order of their numbers.
    pub const ALL: [Kind; KINDS] = [Kind::SS, Kind::OS, Kind::SO, Kind::OO];

    // The column of the row.
    pub fn own(self) -> Column
        ensures { column_as result ≡ (kind_as self).0 }
    {
        match self {
            Kind::SS | Kind::SO => Column::Subject,
            Kind::OS | Kind::OO => Column::Object,
        }
    }

    // The column of its partner.
    pub fn partner(self) -> Column
        ensures { column_as result ≡ (kind_as self).1 }
    {
        match self {
            Kind::SS | Kind::OS => Column::Subject,
            Kind::SO | Kind::OO => Column::Object,
        }
    }

    // Its number in the layout of a store, and in a choice.
    pub fn number(self) -> usize
        ensures { result ≡ kind_number self }
    {
        self as usize
    }

    // The one with a number.
    pub fn numbered(number: usize) -> Kind
        requires { number < kind_count }
        ensures { kind_number result ≡ number }
    {
        match number {
            0 => Kind::SS,
            1 => Kind::OS,
            2 => Kind::SO,
            _ => Kind::OO,
        }
    }
}

// A table of n rows, reduced from m, is stored at the threshold t: by the product, not by division.
pub fn is_stored(t: usize, n: usize, m: usize) -> bool
    requires { (t ≤ most_threshold) × (n ≤ most_rows) × (m ≤ most_rows) }
    ensures { result ≡ is_stored t n m }
{
    let share = 1000 * n;
    let limit = t * m;
    0 < n && share < limit
}
