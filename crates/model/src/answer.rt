ghost use Rattle.std.specs.Prelude.{◌≡◌};
ghost use Rattle.model.specs.Results.{refusal_number, build_answer, plan_answer, run_answer, whether_answer};
ghost use Rattle.model.specs.declared.answer.Answer.TheVariants.{Refused};

use crate::plan::Plan;
use crate::refusal::Refusal;

// What a call answers.
#[derive(Clone, Copy)]
pub enum Answer {
    // The count of rows, at least 1, and the width of each.
    Rows(u64, u32),
    None,
    // The count of the store's words used.
    Built(u32),
    // The plan itself stands beside it, in Planned.
    Plan,
    // Whether a check has a solution.
    Yes,
    No,
    // The number of the question that was answered no.
    Refused(u32),
}

// What the planner hands back: beside a refusal the plan's numbers are 0.
#[derive(Clone, Copy)]
pub struct Planned {
    pub answer: Answer,
    pub plan: Plan,
}

// The rows that a run wrote to the words lent for them: how many, at least 1, and the width of each.
#[derive(Clone, Copy)]
pub struct WrittenRows {
    pub count: u64,
    pub width: u32,
}

impl From<Refusal> for Answer {
    ghost from_gives = { λ refusal answer. answer ≡ Refused (refusal_number refusal) };

    fn from(refusal: Refusal) -> Answer {
        Answer::Refused(u32::from(refusal))
    }
}

// Of a build: the words used.
impl From<Result<u32, Refusal>> for Answer {
    ghost from_gives = { λ built answer. answer ≡ build_answer built };

    fn from(built: Result<u32, Refusal>) -> Answer {
        match built {
            Ok(used) => Answer::Built(used),
            Err(refusal) => Answer::from(refusal),
        }
    }
}

// Of the planner: the plan.
impl From<Result<Plan, Refusal>> for Planned {
    ghost from_gives = { λ made planned. planned ≡ plan_answer made };

    fn from(made: Result<Plan, Refusal>) -> Planned {
        match made {
            Ok(plan) => Planned {
                answer: Answer::Plan,
                plan,
            },
            Err(refusal) => Planned {
                answer: Answer::from(refusal),
                plan: Plan {
                    steps: [0u8; 16],
                    count: 0,
                },
            },
        }
    }
}

// Of a run: the rows written, if there is one.
impl From<Result<Option<WrittenRows>, Refusal>> for Answer {
    ghost from_gives = { λ found answer. answer ≡ run_answer found };

    fn from(found: Result<Option<WrittenRows>, Refusal>) -> Answer {
        match found {
            Ok(Some(rows)) => Answer::Rows(rows.count, rows.width),
            Ok(None) => Answer::None,
            Err(refusal) => Answer::from(refusal),
        }
    }
}

// Of whether a check has a solution.
impl From<Result<bool, Refusal>> for Answer {
    ghost from_gives = { λ told answer. answer ≡ whether_answer told };

    fn from(told: Result<bool, Refusal>) -> Answer {
        match told {
            Ok(true) => Answer::Yes,
            Ok(false) => Answer::No,
            Err(refusal) => Answer::from(refusal),
        }
    }
}
