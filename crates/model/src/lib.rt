// The types that the definitions and the engine share. No function stands here but conversions.
#![tactic(auto)]

pub mod answer;
pub mod pattern;
pub mod plan;
pub mod refusal;
