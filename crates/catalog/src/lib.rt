// Look-ups in validated words.
#![tactic(auto)]

pub mod lookup;
