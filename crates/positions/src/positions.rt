ghost use Rattle.std.specs.Prelude.{◌≡◌, ◌≤◌};
ghost use Rattle.model.specs.Pattern.{variables_with, most_variables, position_at, same_variable};
ghost use Rattle.model.specs.PatternFile.{position_of, ask_position};
ghost use Rattle.tables.specs.Columns.{column_as};
ghost use Rattle.model.specs.Results.{asked};

use crate::pattern::MOST_VARIABLES;
use model::pattern::{Position, TriplePattern};
use model::refusal::Refusal;
use tables::columns::Column;
use tables::limits::MOST_TERM;

// A position is 2t for the term t, or 2v + 1 for the variable v.
pub fn position_of(n: u32) -> Position
    ensures { result ≡ position_of n }
{
    if n % 2 == 0 {
        Position::Term(n / 2)
    } else {
        Position::Var(n / 2)
    }
}

// Questions 15 and 16 of a subject or an object, `met` variables before it.
pub fn check_position(x: Position, met: u32) -> Result<(), Refusal>
    ensures { ask_position met x ≡ asked result }
{
    match x {
        Position::Term(t) if MOST_TERM < t => Err(Refusal::PositionNotATerm),
        Position::Var(v) if MOST_VARIABLES <= v || met < v => Err(Refusal::VariableOutOfOrder),
        _ => Ok(()),
    }
}

// How many variables there are with one position more: by first-use order, one above the highest.
pub fn variables_with(met: u32, x: Position) -> u32
    requires { variables_with met x ≤ most_variables }
    ensures { result ≡ variables_with met x }
{
    match x {
        Position::Term(_) => met,
        Position::Var(v) => met.max(v + 1),
    }
}

// The position in a column.
pub fn position_at(q: TriplePattern, column: Column) -> Position
    ensures { result ≡ position_at (column_as column) q }
{
    match column {
        Column::Subject => q.subject,
        Column::Object => q.object,
    }
}

// Equal terms don't count.
pub fn same_variable(x: Position, y: Position) -> bool
    ensures { result ≡ same_variable x y }
{
    match (x, y) {
        (Position::Var(v), Position::Var(w)) => v == w,
        _ => false,
    }
}
