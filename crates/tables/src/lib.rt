// The layout of a store and the operands of its semi-joins, in words.
#![tactic(auto)]

pub mod columns;
pub mod copying;
pub mod kinds;
pub mod layout;
pub mod limits;
pub mod semi_joins;
