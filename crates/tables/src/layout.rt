ghost use Rattle.std.specs.Prelude.{◌≡◌, [], ◌∷◌, ◌<◌, ◌≤◌, ◌+◌, ◌*◌, length};
ghost use Rattle.std.proofs.lemmas.List.Edits.{sets};
ghost use Rattle.model.specs.Site.{most_predicates};
ghost use Rattle.model.specs.Tables.{kind_count};
ghost use Rattle.model.specs.Store.{vp_entry_at, semi_join_entry_at, rows_start};
ghost use Rattle.tables.specs.Entries.{TableEntryAt, SemiJoinEntryAt};
ghost use Rattle.tables.specs.Kinds.{kind_number};

use crate::kinds::{KINDS, Kind};
use crate::limits::{MOST_PREDICATES, MOST_ROWS};

// The layout of a store's words has its owner here: P, T and words used; an entry of three words for each predicate; an entry of two for
// each p, each q, each kind; then rows. No other file computes where one of them stands.

// The first word of the entry of the predicate at place i.
pub fn vp_entry_at(i: usize) -> usize
    requires { i ≤ most_predicates }
    ensures { result ≡ vp_entry_at i }
{
    3 + 3 * i
}

// The first word of the entry of the x-th semi-join of `count` predicates: for each p, each q, each k, in that nesting.
pub fn nth_semi_join_entry_at(count: usize, x: usize) -> usize
    requires { (count ≤ most_predicates) × (x < count * (count * kind_count)) }
    ensures { result ≡ vp_entry_at count + 2 * x }
{
    vp_entry_at(count) + 2 * x
}

// The first word of the entry of a kind of the predicate at place i against the one at place j, of `count` predicates.
pub fn entry_of_kind(count: usize, i: usize, j: usize, kind: Kind) -> usize
    requires { (count ≤ most_predicates) × (i < count) × (j < count) }
    ensures { result ≡ semi_join_entry_at count i j (kind_number kind) }
{
    nth_semi_join_entry_at(count, (i * count + j) * KINDS + kind.number())
}

// Where the rows begin: behind the entries of p predicates and of their semi-joins.
pub fn rows_start(p: usize) -> usize
    requires { p ≤ most_predicates }
    ensures { result ≡ rows_start p }
{
    vp_entry_at(p) + 2 * (p * (p * KINDS))
}

// The words of an image: the front of a store, up to where the stored tables' rows would begin, for the largest site.
pub const IMAGE_WORDS: usize = 3
    + 3 * MOST_PREDICATES
    + 2 * (MOST_PREDICATES * (MOST_PREDICATES * KINDS))
    + 2 * MOST_ROWS;

// The entry of a predicate: its term, its row count, and where its rows start.
#[derive(Clone, Copy)]
pub struct TableEntry {
    pub term: u32,
    pub rows: usize,
    pub start: usize,
}

pub fn table_entry(w: &[u32], i: usize) -> TableEntry
    requires { (i < most_predicates) × (vp_entry_at i + 3 ≤ length w.now) }
    ensures { TableEntryAt w.now i result }
{
    let entry = vp_entry_at(i);
    TableEntry {
        term: w[entry],
        rows: w[entry + 1] as usize,
        start: w[entry + 2] as usize,
    }
}

pub fn put_table_entry(w: &mut [u32], i: usize, term: u32, rows: u32, start: u32)
    requires { (i < most_predicates) × (vp_entry_at i + 3 ≤ length w.old) }
    ensures { w.new ≡ sets w.old (vp_entry_at i) (term ∷ rows ∷ start ∷ []) }
{
    let entry = vp_entry_at(i);
    w[entry] = term;
    w[entry + 1] = rows;
    w[entry + 2] = start;
}

// The entry of a semi-join: the count of the rows that it leaves, and where they start, 0 if they are not stored.
#[derive(Clone, Copy)]
pub struct SemiJoinEntry {
    pub rows: usize,
    pub start: usize,
}

// The one at a place of the words.
pub fn semi_join_entry(w: &[u32], entry: usize) -> SemiJoinEntry
    requires { entry + 2 ≤ length w.now }
    ensures { SemiJoinEntryAt w.now entry result }
{
    SemiJoinEntry {
        rows: w[entry] as usize,
        start: w[entry + 1] as usize,
    }
}

pub fn put_semi_join_entry(w: &mut [u32], entry: usize, rows: u32, start: u32)
    requires { entry + 2 ≤ length w.old }
    ensures { w.new ≡ sets w.old entry (rows ∷ start ∷ []) }
{
    w[entry] = rows;
    w[entry + 1] = start;
}
