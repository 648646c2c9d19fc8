// What the check program runs: builds, plans, runs that plan.
#![tactic(auto)]

pub mod check;
