// The planner: the table of each triple pattern, and their order.
#![tactic(auto)]

pub mod planner;
