// The order of a table's rows: which row comes first, whether words hold terms and the rows in them strictly ascend.
#![tactic(auto)]

pub mod bounds;
pub mod order;
