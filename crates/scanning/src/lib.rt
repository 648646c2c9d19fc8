// The steps of a physical plan, scanned: which rows may agree, the next one that does, and the cells that it binds.
#![tactic(auto)]

pub mod cells;
pub mod cursor;
pub mod scan;
