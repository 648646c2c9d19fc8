// The reader of a given plan, questions 18 to 20.
#![tactic(auto)]

pub mod plan_reader;
