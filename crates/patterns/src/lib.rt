// The reader of a pattern: questions 11 to 17.
#![tactic(auto)]

pub mod pattern_reader;
