// The order of a plan: which variables are met, what is noted of each place, and the next place.
#![tactic(auto)]

pub mod met;
pub mod ordering;
