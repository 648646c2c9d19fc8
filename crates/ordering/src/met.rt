ghost use Rattle.std.specs.Prelude.{◌≡◌, cond, [], ◌∷◌, length, ◌≤◌};
ghost use Rattle.model.specs.Lists.{any, filter, concat_map};
ghost use Rattle.model.specs.Pattern.{positions};
ghost use Rattle.model.specs.Planner.{is_fixed};
ghost use Rattle.positions.specs.Members.{pattern_in, PatternCells};
ghost use Rattle.ordering.specs.Met.{HaveCells, met_by, counts_by, meeting, meeting_all, PlacesNoted};

use model::pattern::{Position, TriplePattern};
use positions::pattern::Pattern;

// Which variables are met is kept by variable: met[v] is true where ?v stands in a place taken.

// The variable at a position is met.
fn is_met(x: Position, met: &[bool; 8]) -> bool
    requires { HaveCells (x ∷ []) }
    ensures { result ≡ met_by met.now x }
{
    match x {
        Position::Term(_) => false,
        Position::Var(v) => met[v as usize],
    }
}

fn is_fixed(x: Position) -> bool
    ensures { result ≡ is_fixed x }
{
    match x {
        Position::Term(_) => true,
        Position::Var(_) => false,
    }
}

// S-16: a variable met in an earlier step counts like a term.
fn counts_as_term(x: Position, met: &[bool; 8]) -> bool
    requires { HaveCells (x ∷ []) }
    ensures { result ≡ counts_by met.now x }
{
    let fixed = is_fixed(x);
    let found = is_met(x, met);
    fixed || found
}

fn one_if(holds: bool) -> usize
    ensures { (result ≡ cond holds 1 0) × (result ≤ 1) }
{
    if holds { 1 } else { 0 }
}

// The terms among the three positions.
fn term_count(q: TriplePattern, met: &[bool; 8]) -> usize
    requires { HaveCells (positions q) }
    ensures { result ≡ length (filter (counts_by met.now) (positions q)) }
{
    let subject = q.subject;
    let predicate = q.predicate;
    let object = q.object;
    let in_subject = counts_as_term(subject, met);
    let in_predicate = counts_as_term(predicate, met);
    let in_object = counts_as_term(object, met);
    one_if(in_subject) + one_if(in_predicate) + one_if(in_object)
}

// A triple pattern shares a variable with those taken where a position of it is met.
fn is_joined(q: TriplePattern, met: &[bool; 8]) -> bool
    requires { HaveCells (positions q) }
    ensures { result ≡ any (met_by met.now) (positions q) }
{
    let subject = q.subject;
    let predicate = q.predicate;
    let object = q.object;
    if is_met(subject, met) {
        return true;
    }
    if is_met(predicate, met) {
        return true;
    }
    is_met(object, met)
}

// Notes of each place what a pick goes by: whether it shares a variable with those taken, and its terms.
pub fn note_places(
    pattern: Pattern,
    met: &[bool; 8],
    joined: &mut [bool; 8],
    terms: &mut [usize; 8],
)
    requires pattern_cells { PatternCells pattern × HaveCells (concat_map positions (pattern_in pattern)) }
    requires count_in_bounds { (pattern.count ≤ length joined.old) × (pattern.count ≤ length terms.old) }
    ensures places_noted { PlacesNoted (pattern_in pattern) pattern.count met.now joined.new terms.new }
    ensures joined_len_unchanged { (length joined.new ≡ length joined.old) × (length terms.new ≡ length terms.old) }
{
    for i in 0..pattern.count {
        let member = pattern.members[i];
        joined[i] = is_joined(member.triple, met);
        terms[i] = term_count(member.triple, met);
    }
}

// The variable at a position is met from now on.
fn meet(x: Position, met: &mut [bool; 8])
    requires { HaveCells (x ∷ []) }
    ensures { met.new ≡ meeting met.old x }
{
    match x {
        Position::Term(_) => {}
        Position::Var(v) => {
            met[v as usize] = true;
        }
    }
}

// So are those of a triple pattern.
pub fn meet_variables(q: TriplePattern, met: &mut [bool; 8])
    requires { HaveCells (positions q) }
    ensures { met.new ≡ meeting_all met.old (positions q) }
{
    let subject = q.subject;
    let predicate = q.predicate;
    let object = q.object;
    meet(subject, met);
    meet(predicate, met);
    meet(object, met);
}
