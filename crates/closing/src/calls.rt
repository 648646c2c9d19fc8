ghost use Rattle.std.specs.Prelude.{◌≡◌};
ghost use Rattle.model.specs.Calls.{outcome, checked as check_reply, build as build_outcome, plan as plan_answer, run as run_outcome, whether as whether_answer};
ghost use Rattle.model.specs.Results.{build_answer, plan_answer as planned_answer, run_answer, whether_answer as told_answer};
ghost use Rattle.closing.specs.Checks.{CheckedAs};

use building::builder::fill_store;
use model::answer::{Answer, Planned, WrittenRows};
use model::plan::Plan;
use model::refusal::Refusal;
use patterns::pattern_reader::{PatternRead, read_pattern};
use planning::planner::plan_pattern;
use running::decider::plan_has_solution;
use running::preparing::prepare;
use running::runner::run_plan;
use site_reading::site_reader::read_site;
use tables::layout::IMAGE_WORDS;
use tables::limits::MOST_THRESHOLD;
use validation::store::is_store;

// Each call's questions in their order: the first that is answered no ends it.

// Questions 1 to 9, and the store: the words used.
fn build_store(t: u32, site: &[u8], store: &mut [u32]) -> Result<u32, Refusal>
    ensures { outcome (build_answer result) store.new ≡ build_outcome t site.now store.old }
{
    if MOST_THRESHOLD < t {
        return Err(Refusal::ThresholdTooHigh);
    }
    let mut image = [0u32; IMAGE_WORDS];
    let count = read_site(site, &mut image)?;
    fill_store(t, count, &mut image, store)
}

// Questions 10 to 17: the store, then the pattern. Every call that is given both begins with them.
fn checked(store: &[u32], pattern: &[u8]) -> Result<PatternRead, Refusal>
    ensures { CheckedAs store.now (check_reply store.now pattern.now) result }
{
    if !is_store(store) {
        return Err(Refusal::NotAStore);
    }
    read_pattern(store, pattern)
}

// The plan of a check: its steps and their count.
fn plan_check(store: &[u32], pattern: &[u8]) -> Result<Plan, Refusal>
    ensures { planned_answer result ≡ plan_answer store.now pattern.now }
{
    let question = checked(store, pattern)?;
    Ok(plan_pattern(store, question.pattern))
}

// The rows of a check by a given plan, written to the lent memory if there are some, and question 21 before.
fn run_check(
    store: &[u32],
    pattern: &[u8],
    plan: &[u8],
    rows: &mut [u32],
) -> Result<Option<WrittenRows>, Refusal>
    ensures { outcome (run_answer result) rows.new ≡ run_outcome store.now pattern.now plan.now rows.old }
{
    let check = checked(store, pattern)?;
    let mut steps = [0u32; 32];
    let Some(given) = prepare(store, &check, plan, &mut steps)? else {
        return Ok(None);
    };
    run_plan(store, &mut steps, given.count, given.width, rows)
}

// Whether a check has a solution, by a given plan. The first solution ends it.
fn has_match(store: &[u32], pattern: &[u8], plan: &[u8]) -> Result<bool, Refusal>
    ensures { told_answer result ≡ whether_answer store.now pattern.now plan.now }
{
    let inquiry = checked(store, pattern)?;
    let mut steps = [0u32; 32];
    let Some(asked) = prepare(store, &inquiry, plan, &mut steps)? else {
        return Ok(false);
    };
    Ok(plan_has_solution(store, &mut steps, asked.count, asked.width))
}

// Builds the store of a site's file at the threshold t: Built with the words used, or a refusal 1 to 9 that leaves the store as it was.
pub fn build(t: u32, site: &[u8], store: &mut [u32]) -> Answer
    ensures { outcome result store.new ≡ build_outcome t site.now store.old }
{
    Answer::from(build_store(t, site, store))
}

// Plans a check over a store: Plan with its steps and their count, or a refusal 10 to 17 with zeros beside it.
pub fn plan(store: &[u32], pattern: &[u8]) -> Planned
    ensures { result ≡ plan_answer store.now pattern.now }
{
    Planned::from(plan_check(store, pattern))
}

// Runs a given plan of a check over a store: Rows with their count and width, None, or a refusal 10 to 21; only Rows alters the rows' memory.
pub fn run(store: &[u32], pattern: &[u8], plan: &[u8], rows: &mut [u32]) -> Answer
    ensures { outcome result rows.new ≡ run_outcome store.now pattern.now plan.now rows.old }
{
    Answer::from(run_check(store, pattern, plan, rows))
}

// Tells whether a check over a store has a solution, by a given plan: Yes or No, or a refusal 10 to 20. The first solution ends it.
pub fn whether(store: &[u32], pattern: &[u8], plan: &[u8]) -> Answer
    ensures { result ≡ whether_answer store.now pattern.now plan.now }
{
    Answer::from(has_match(store, pattern, plan))
}
