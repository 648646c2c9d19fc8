// Question 10, the entries of the semi-joins and the stored rows: whether they are those of the site and T.
#![tactic(auto)]

mod empty_pairs;
pub mod semi_joins;
mod told_kinds;
