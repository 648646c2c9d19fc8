// The rows of an answer: counted, then question 21, then written and sorted; or a table copied.
#![tactic(auto)]

pub mod results;
