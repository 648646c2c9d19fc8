// The join of a physical plan: how many solutions there are.
#![tactic(auto)]

pub mod join_count;
