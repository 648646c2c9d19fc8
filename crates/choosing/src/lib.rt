// What may be chosen for a triple pattern, question 20, and the table that the planner chooses.
#![tactic(auto)]

pub mod choosing;
