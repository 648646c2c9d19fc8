// The stored rows of a semi-join, compared with those that it leaves.
#![tactic(auto)]

mod between;
pub mod comparing;
