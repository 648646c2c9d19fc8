ghost use Rattle.std.specs.Prelude.{◌≡◌, ◌<◌};
ghost use Rattle.model.specs.Plan.{partner, kind_of, may_choose};
ghost use Rattle.model.specs.Planner.{choose_table, chosen_rows};
ghost use Rattle.model.specs.Store.{decoded};
ghost use Rattle.catalog.specs.Lookups.{Validated};
ghost use Rattle.positions.specs.Members.{pattern_in, TableOf, PatternHolds};
ghost use Rattle.tables.specs.Kinds.{kind_as};
ghost use Rattle.choosing.specs.Choices.{PartnerOf, qualifies_by, chooseable_table};

use catalog::lookup::{semi_join_rows, table_rows, threshold};
use model::pattern::TriplePattern;
use positions::pattern::{Member, Pattern};
use positions::positions::{position_at, same_variable};
use tables::kinds::{KINDS, Kind, is_stored};

// Choice 1 + 4j + k, given without its 1, is kind k against place j.
fn against(c: usize) -> (usize, Kind)
    ensures place { result.0 ≡ partner c }
    ensures kind { kind_as result.1 ≡ kind_of c }
{
    (c / KINDS, Kind::numbered(c % KINDS))
}

// What a choice is against: the place and the kind; choice 0, the VP table, is against none.
pub fn partner_of(choice: usize) -> Option<(usize, Kind)>
    ensures { PartnerOf choice result }
{
    choice.checked_sub(1).map(against)
}

// A kind of q at place i qualifies against r at place j: the named positions hold the same variable.
pub fn qualifies(q: TriplePattern, i: usize, r: TriplePattern, j: usize, kind: Kind) -> bool
    ensures { result ≡ qualifies_by q i r j (kind_as kind) }
{
    if i == j {
        return false;
    }
    let own = position_at(q, kind.own());
    let other = position_at(r, kind.partner());
    same_variable(own, other)
}

// The rows of a kind for a at place i against b at place j, if it may be chosen: if it qualifies and is stored.
fn reduced_table(w: &[u32], a: Member, i: usize, b: Member, j: usize, kind: Kind) -> Option<usize>
    requires { Validated w.now × TableOf (decoded w.now).site a × TableOf (decoded w.now).site b }
    ensures { result ≡ chooseable_table (decoded w.now) a i b j (kind_as kind) }
{
    if !qualifies(a.triple, i, b.triple, j, kind) {
        return None;
    }
    let rows = semi_join_rows(w, a.table, b.table, kind);
    is_stored(threshold(w), rows, table_rows(w, a.table)).then_some(rows)
}

// Question 20: choice 0, or a stored table that qualifies.
pub fn may_choose(w: &[u32], pattern: Pattern, i: usize, choice: usize) -> bool
    requires { Validated w.now × PatternHolds (decoded w.now).site pattern × (i < pattern.count) }
    ensures { result ≡ may_choose (decoded w.now) (pattern_in pattern) i choice }
{
    let Some((j, kind)) = partner_of(choice) else {
        return true;
    };
    if pattern.count <= j {
        return false;
    }
    let a = pattern.members[i];
    let b = pattern.members[j];
    reduced_table(w, a, i, b, j, kind).is_some()
}

// The table chosen for a place: its choice, and its rows.
#[derive(Clone, Copy)]
pub struct Choice {
    pub number: usize,
    pub rows: usize,
}

// The table that may be chosen with fewest rows; on a tie VP first, then lowest j, then lowest k.
pub fn choose_table(w: &[u32], pattern: Pattern, i: usize) -> Choice
    requires { Validated w.now × PatternHolds (decoded w.now).site pattern × (i < pattern.count) }
    ensures { (result.number ≡ choose_table (decoded w.now) (pattern_in pattern) i) × (result.rows ≡ chosen_rows (decoded w.now) (pattern_in pattern) i) }
{
    let a = pattern.members[i];
    let mut number: usize = 0;
    let mut fewest = table_rows(w, a.table);
    for c in 0..pattern.count * KINDS {
        let (j, kind) = against(c);
        let b = pattern.members[j];
        if let Some(rows) = reduced_table(w, a, i, b, j, kind)
            && rows < fewest
        {
            number = 1 + c;
            fewest = rows;
        }
    }
    Choice {
        number,
        rows: fewest,
    }
}
