ghost use Rattle.std.specs.Prelude.{◌≡◌, true, ◌<◌, length};
ghost use Rattle.model.specs.Site.{table_at};
ghost use Rattle.model.specs.Tables.{semi_join, is_stored};
ghost use Rattle.model.specs.Store.{decoded};
ghost use Rattle.tables.specs.Kinds.{kind_as};
ghost use Rattle.catalog.specs.Lookups.{Validated, place_of, RowsAt};

use tables::kinds::Kind;
use tables::layout::{entry_of_kind, semi_join_entry, table_entry};

// Where a predicate is declared in a store, if it is.
pub fn predicate_place(w: &[u32], term: u32) -> Option<usize>
    requires { Validated w.now }
    ensures { result ≡ place_of (decoded w.now).site term }
{
    let count = w[0] as usize;
    (0..count).find(|i| table_entry(w, *i).term == term)
}

// The threshold of a store.
pub fn threshold(w: &[u32]) -> usize
    requires { Validated w.now }
    ensures { result ≡ (decoded w.now).threshold }
{
    w[1] as usize
}

// The rows of the predicate at place i.
pub fn table_rows(w: &[u32], i: usize) -> usize
    requires { Validated w.now × (i < length (decoded w.now).site) }
    ensures { result ≡ length (table_at (decoded w.now).site i).rows }
{
    table_entry(w, i).rows
}

// The rows that a kind of the predicate at place i against the one at place j leaves, stored or not.
pub fn semi_join_rows(w: &[u32], i: usize, j: usize, kind: Kind) -> usize
    requires { Validated w.now × (i < length (decoded w.now).site) × (j < length (decoded w.now).site) }
    ensures { result ≡ length (semi_join (kind_as kind) (table_at (decoded w.now).site i).rows (table_at (decoded w.now).site j).rows) }
{
    let count = w[0] as usize;
    semi_join_entry(w, entry_of_kind(count, i, j, kind)).rows
}

// Where the rows of the predicate at place i start.
pub fn table_start(w: &[u32], i: usize) -> usize
    requires { Validated w.now × (i < length (decoded w.now).site) }
    ensures rows_at { RowsAt w.now result (table_at (decoded w.now).site i).rows }
    ensures upper_bound { result < 4294967296 }
{
    table_entry(w, i).start
}

// Where the rows start that a kind of the predicate at place i against the one at place j leaves, if they are stored.
pub fn semi_join_start(w: &[u32], i: usize, j: usize, kind: Kind) -> usize
    requires validated { Validated w.now × (i < length (decoded w.now).site) × (j < length (decoded w.now).site) }
    requires i_value { is_stored (decoded w.now).threshold (length (semi_join (kind_as kind) (table_at (decoded w.now).site i).rows (table_at (decoded w.now).site j).rows)) (length (table_at (decoded w.now).site i).rows) ≡ true }
    ensures rows_at { RowsAt w.now result (semi_join (kind_as kind) (table_at (decoded w.now).site i).rows (table_at (decoded w.now).site j).rows) }
    ensures upper_bound { result < 4294967296 }
{
    let count = w[0] as usize;
    semi_join_entry(w, entry_of_kind(count, i, j, kind)).start
}
