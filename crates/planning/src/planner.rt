ghost use Rattle.std.specs.Prelude.{◌≡◌, ◌≤◌, length, true};
ghost use Rattle.model.specs.Pattern.{is_accepted};
ghost use Rattle.model.specs.Planner.{planned};
ghost use Rattle.model.specs.Calls.{plan_numbers};
ghost use Rattle.model.specs.Store.{decoded};
ghost use Rattle.catalog.specs.Lookups.{Validated};
ghost use Rattle.positions.specs.Members.{pattern_in, PatternHolds};
ghost use Rattle.planning.specs.Choices.{TablesChosen};

use choosing::choosing::choose_table;
use model::plan::Plan;
use ordering::met::{meet_variables, note_places};
use ordering::ordering::pick;
use positions::pattern::Pattern;

// For each place: the choice of its table, and the rows of that table.
fn choose_tables(w: &[u32], pattern: Pattern, choices: &mut [usize; 8], rows: &mut [usize; 8])
    requires validated { Validated w.now × PatternHolds (decoded w.now).site pattern }
    requires count_in_bounds { (pattern.count ≤ length choices.old) × (pattern.count ≤ length rows.old) }
    ensures { TablesChosen (decoded w.now) (pattern_in pattern) pattern.count choices.new rows.new }
{
    for i in 0..pattern.count {
        let chosen = choose_table(w, pattern, i);
        choices[i] = chosen.number;
        rows[i] = chosen.rows;
    }
}

// The plan of a pattern that was accepted.
pub fn plan_pattern(w: &[u32], pattern: Pattern) -> Plan
    requires { Validated w.now × PatternHolds (decoded w.now).site pattern × (is_accepted (decoded w.now).site (pattern_in pattern) ≡ true) }
    ensures { result ≡ plan_numbers (planned (decoded w.now) (pattern_in pattern)) }
{
    let mut choices = [0usize; 8];
    let mut rows = [0usize; 8];
    choose_tables(w, pattern, &mut choices, &mut rows);
    let mut steps = [0u8; 16];
    let mut taken = [false; 8];
    let mut met = [false; 8];
    let mut joined = [false; 8];
    let mut terms = [0usize; 8];
    for n in 0..pattern.count {
        note_places(pattern, &met, &mut joined, &mut terms);
        let i = pick(pattern.count, &taken, &joined, &terms, &rows);
        steps[2 * n] = i as u8;
        steps[2 * n + 1] = choices[i] as u8;
        taken[i] = true;
        let member = pattern.members[i];
        meet_variables(member.triple, &mut met);
    }
    Plan {
        steps,
        count: pattern.count,
    }
}
