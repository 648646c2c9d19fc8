// The wrappers for C of the public calls, as one archive. No `requires` stands in this crate.
#![tactic(auto)]

pub mod exports;
