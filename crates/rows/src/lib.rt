// Rows of words: their order, and sorting them in place.
#![tactic(auto)]

pub mod row_order;
pub mod sorting;
