// Probes, which values have partners: one value searched, the rows that are left counted.
#![tactic(auto)]

pub mod counting;
pub mod one_hash_filter;
pub mod values;
pub mod walking;
