ghost use Rattle.std.specs.Prelude.{◌≡◌, true, length};
ghost use Rattle.model.specs.Pattern.{is_accepted};
ghost use Rattle.model.specs.PlanFile.{read_plan};
ghost use Rattle.model.specs.Store.{decoded};
ghost use Rattle.catalog.specs.Lookups.{Validated};
ghost use Rattle.positions.specs.Members.{pattern_in, PatternHolds, EndsHold};
ghost use Rattle.running.specs.Prepared.{PreparedAs};

use crate::counts::none_by_counts;
use crate::physical_plan::make_physical_plan;
use model::refusal::Refusal;
use patterns::pattern_reader::PatternRead;
use plans::plan_reader::read_plan;

// What a call goes by beside the steps of the physical plan: how many there are, and V.
#[derive(Clone, Copy)]
pub struct Prepared {
    pub count: usize,
    pub width: u32,
}

// Of an accepted pattern: questions 18 to 20, then the counts, then the physical plan, in the lent steps; none where the counts alone say that
// there is no solution.
pub fn prepare(
    w: &[u32],
    check: &PatternRead,
    plan: &[u8],
    steps: &mut [u32; 32],
) -> Result<Option<Prepared>, Refusal>
    requires validated { Validated w.now × PatternHolds (decoded w.now).site check.now.pattern × (is_accepted (decoded w.now).site (pattern_in check.now.pattern) ≡ true) }
    requires ends_hold { EndsHold check.now.pattern check.now.subjects check.now.objects }
    ensures { PreparedAs w.now steps.new (pattern_in check.now.pattern) (read_plan (decoded w.now) (pattern_in check.now.pattern) plan.now) result }
{
    let pattern = check.pattern;
    let proper = read_plan(w, pattern, plan)?;
    if none_by_counts(w, pattern) {
        return Ok(None);
    }
    make_physical_plan(w, pattern, &check.subjects, &check.objects, proper, steps);
    let count = proper.count;
    let width = pattern.width;
    Ok(Some(Prepared { count, width }))
}
