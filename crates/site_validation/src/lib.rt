// Question 10, the entries of the predicates and their rows: whether they are those of a site.
#![tactic(auto)]

pub mod entries;
