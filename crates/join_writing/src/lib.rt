// The rows of a join of a physical plan, written.
#![tactic(auto)]

pub mod join_write;
