ghost use Rattle.std.specs.Prelude.{◌≡◌};
ghost use Rattle.model.specs.PlanFile.{read_plan};
ghost use Rattle.model.specs.Store.{decoded};
ghost use Rattle.catalog.specs.Lookups.{Validated};
ghost use Rattle.positions.specs.Members.{pattern_in, PatternHolds};
ghost use Rattle.plans.specs.Replies.{PlanReadAs};

use choosing::choosing::may_choose;
use model::plan::Plan;
use model::refusal::Refusal;
use numbers::number::read_number;
use positions::pattern::Pattern;

// Questions 18 to 20.
pub fn read_plan(w: &[u32], pattern: Pattern, s: &[u8]) -> Result<Plan, Refusal>
    requires { Validated w.now × PatternHolds (decoded w.now).site pattern }
    ensures { PlanReadAs (read_plan (decoded w.now) (pattern_in pattern) s.now) result }
{
    let mut steps = [0u8; 16];
    let mut taken = [false; 8];
    let mut next: usize = 0;
    for n in 0..pattern.count {
        let Some((first, middle)) = read_number(s, next) else {
            return Err(Refusal::PlanMalformed);
        };
        let place = first as usize;
        if pattern.count <= place || taken[place] {
            return Err(Refusal::PlaceNotFree);
        }
        let Some((second, after)) = read_number(s, middle) else {
            return Err(Refusal::PlanMalformed);
        };
        let choice = second as usize;
        if !may_choose(w, pattern, place, choice) {
            return Err(Refusal::ChoiceNotQualified);
        }
        steps[2 * n] = place as u8;
        steps[2 * n + 1] = choice as u8;
        taken[place] = true;
        next = after;
    }
    if next < s.len() {
        return Err(Refusal::PlanMalformed);
    }
    Ok(Plan {
        steps,
        count: pattern.count,
    })
}
