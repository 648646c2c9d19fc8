// Question 10: whether words are what some site and some T give.
#![tactic(auto)]

pub mod store;
