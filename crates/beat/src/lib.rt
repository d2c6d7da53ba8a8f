// The calls on shelves: open, lay, split and join.
#![tactic(auto)]

pub mod cells;
pub mod joining;
pub mod laying;
pub mod opening;
pub mod shelves;
pub mod splitting;
