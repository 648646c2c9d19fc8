// The semi-join: the rows that are left, counted, and written.
#![tactic(auto)]

pub mod semi_join_count;
pub mod semi_join_write;
