ghost use Rattle.std.specs.Prelude.{◌≡◌};
ghost use Rattle.model.specs.Calls.{outcome};
ghost use Rattle.model.specs.Chain.{is_refused, plan_and_run, chain, NoMatch};
ghost use Rattle.model.specs.Text.{RowsFit};
ghost use Rattle.model.specs.declared.answer.Answer.TheVariants.{None};

use closing::calls::{build, plan, run};
use model::answer::Answer;

const THRESHOLD: u32 = 1000;

const STORE_WORDS: usize = 8192;

#[tactic(auto, unfolding(model::specs::Chain::is_refused))]
fn is_refused(answer: Answer) -> bool
    ensures { result ≡ is_refused answer }
{
    matches!(answer, Answer::Refused(_))
}

// Over a store: plans a check, and runs that plan, whose numbers are its bytes.
fn plan_and_run(store: &[u32], check: &[u8], rows: &mut [u32]) -> Answer
    ensures { outcome result rows.new ≡ plan_and_run store.now check.now rows.old }
{
    let planned = plan(store, check);
    let answer = planned.answer;
    if is_refused(answer) {
        return answer;
    }
    let made = planned.plan;
    let steps = made.steps;
    run(store, check, &steps[..2 * made.count], rows)
}

// The first refusal, or what the run answers. The store is the chain's own, so that a late refusal alters nothing lent.
pub fn check_site(site: &[u8], check: &[u8], rows: &mut [u32]) -> Answer
    ensures rows_after { outcome result rows.new ≡ chain site.now check.now rows.old }
    ensures rows_fit { RowsFit result rows.old }
    ensures no_match { result ≡ None → NoMatch site.now check.now }
{
    let mut store = [0u32; STORE_WORDS];
    let built = build(THRESHOLD, site, &mut store);
    if is_refused(built) {
        return built;
    }
    plan_and_run(&store, check, rows)
}
