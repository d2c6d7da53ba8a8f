// A file's track: where it is, its notes and cells counted, and its notes put at their places in a shelf.
#![tactic(auto)]

pub mod chunks;
pub mod counting;
pub mod placing;
pub mod sounding;
