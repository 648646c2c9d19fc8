ghost use Rattle.std.specs.Prelude.{◌≡◌, []};
ghost use Rattle.model.specs.Calls.{seen, seen_of, seen_of_answer, seen_of_plan, build as build_outcome, plan as plan_answer, run as run_outcome, whether as whether_answer};

use closing::calls::{build, plan, run, whether};
use reporting::report::report;

// `build` for C: returns 0, or the refusal's number and then neither the store nor the answer is altered.
#[unsafe(no_mangle)]
pub extern "C" fn closing_build(
    t: u32,
    site: &[u8],
    store: &mut [u32],
    answer: &mut [u64; 4],
) -> u32
    ensures { seen result store.new answer.new ≡ seen_of (build_outcome t site.now store.old) answer.old }
{
    let made = build(t, site, store);
    report(made, 0, answer)
}

// `plan` for C: returns 0, or the refusal's number and then neither the steps nor the answer is altered.
#[unsafe(no_mangle)]
pub extern "C" fn closing_plan(
    store: &[u32],
    pattern: &[u8],
    steps: &mut [u8; 16],
    answer: &mut [u64; 4],
) -> u32
    ensures { seen result steps.new answer.new ≡ seen_of_plan (plan_answer store.now pattern.now) steps.old answer.old }
{
    let made = plan(store, pattern);
    let reply = made.answer;
    let planned = made.plan;
    let number = report(reply, planned.count, answer);
    if number == 0 {
        let all = planned.steps;
        *steps = all;
    }
    number
}

// `run` for C: returns 0, or the refusal's number and then neither the rows nor the answer is altered.
#[unsafe(no_mangle)]
pub extern "C" fn closing_run(
    store: &[u32],
    pattern: &[u8],
    plan: &[u8],
    rows: &mut [u32],
    answer: &mut [u64; 4],
) -> u32
    ensures { seen result rows.new answer.new ≡ seen_of (run_outcome store.now pattern.now plan.now rows.old) answer.old }
{
    let found = run(store, pattern, plan, rows);
    report(found, 0, answer)
}

// `whether` for C: returns 0, or the refusal's number and then the answer is not altered.
#[unsafe(no_mangle)]
pub extern "C" fn closing_whether(
    store: &[u32],
    pattern: &[u8],
    plan: &[u8],
    answer: &mut [u64; 4],
) -> u32
    ensures { seen result [] answer.new ≡ seen_of_answer (whether_answer store.now pattern.now plan.now) answer.old }
{
    let told = whether(store, pattern, plan);
    report(told, 0, answer)
}
