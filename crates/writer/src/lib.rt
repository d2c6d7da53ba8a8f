// The file of a shelf's notes, written into an output that it fits.
#![tactic(auto)]

pub mod dense;
pub mod few;
pub mod files;
pub mod many;
mod tables;
pub mod take;
pub mod wide;
