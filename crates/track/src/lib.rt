// Events as bytes: written one event at a time, and read by a cursor.
#![tactic(auto)]

pub mod bytes;
pub mod cursor;
pub mod putting;
pub mod quantities;
