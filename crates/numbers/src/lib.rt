// A number at a place of some bytes.
#![tactic(auto)]

pub mod number;
