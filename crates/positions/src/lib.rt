// A pattern in memory, and the tests on its positions.
#![tactic(auto)]

pub mod pattern;
pub mod positions;
