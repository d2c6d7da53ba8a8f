// The calls on files: load and write.
#![tactic(auto)]

pub mod loading;
pub mod writing;
