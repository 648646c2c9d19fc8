// From the image of a site to the words of its store.
#![tactic(auto)]

pub mod builder;
