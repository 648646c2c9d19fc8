// The connected components of a plan: steps linked by shared variables, each component asked alone.
#![tactic(auto)]

pub mod components;
