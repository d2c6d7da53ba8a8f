// Lines of hexadecimal digits to calls, and their answers as lines; the program over standard input.
#![tactic(auto)]

pub mod answers;
pub mod buffer;
pub mod calls;
pub mod digits;
pub mod input;
pub mod program;
pub mod sessions;
