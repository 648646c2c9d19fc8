// Statistics of the columns of a site's tables in words: their ranges, and their objects in ascending order.
#![tactic(auto)]

pub mod compared;
pub mod objects;
pub mod ranges;
