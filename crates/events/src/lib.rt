// The bytes of a take's events in the order of the file: counted and written window by window, or bucket by bucket in the output itself.
#![tactic(auto)]

pub mod bucketing;
pub mod emitting;
pub mod stored;
pub mod tight;
pub mod tracks;
pub mod windows;
