// The public calls. Their wrappers for C stand in `closing_c`. No `requires` stands in this crate.
#![tactic(auto)]

pub mod calls;
