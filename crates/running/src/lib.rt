// The run of a check by a given plan: none by the counts, or the join of the plan's tables, counted, written and sorted, or only asked for.
#![tactic(auto)]

pub mod counts;
pub mod decider;
pub mod physical_plan;
pub mod preparing;
pub mod runner;
pub mod whole_table;
