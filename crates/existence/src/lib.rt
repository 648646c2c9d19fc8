// The join of a physical plan: whether there is a solution.
#![tactic(auto)]

pub mod exists;
