// The halves of a take, and two takes joined, written into a shelf straight from their own notes and cells.
#![tactic(auto)]

pub mod counting;
pub mod halves;
pub mod joined;
pub mod lanes;
pub mod lasts;
mod lines;
pub mod seam;
