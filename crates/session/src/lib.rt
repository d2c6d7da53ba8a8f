// A session as a list of words: its header and the place of a shelf, notes and cells, a note list, the frame of a shelf, and
// question 4 with the rules for cells.
#![tactic(auto)]

pub mod beats;
pub mod cells;
pub mod clear;
pub mod header;
pub mod layout;
pub mod list;
pub mod neighbours;
pub mod notes;
pub mod room;
pub mod rules;
pub mod runs;
pub mod shelf;
pub mod slices;
pub mod sound;
pub mod view;
