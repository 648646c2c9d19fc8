// The text of an answer, line by line.
#![tactic(auto)]

pub mod answers;
pub mod digits;
pub mod lines;
