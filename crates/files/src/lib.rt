// The files of the check program: read to their end, and taken whole or not at all.
#![tactic(auto)]

pub mod reading;
