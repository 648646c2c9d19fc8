// What a caller in C sees of an answer.
#![tactic(auto)]

pub mod report;
