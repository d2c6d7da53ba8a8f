// The session that the program keeps.
ghost use Rattle.std.specs.Prelude.{◌≤◌, length};
ghost use Rattle.frames.specs.Lines.{open_of, change_of};
ghost use Rattle.frames.specs.Calling.{Changed};

use crate::buffer::Buffer;
use crate::calls;
use crate::calls::Refusal;

// The words of the largest session.
pub const MAX_SESSION: usize = 8192;

// An open session, seen as its words; none before an accepted open.
pub type Session = Buffer<u32, MAX_SESSION>;

impl Buffer<u32, MAX_SESSION> {
    // Open: δ, ε, K, W. A refused open keeps the earlier session, an accepted one starts afresh.
    pub fn open(&mut self, bytes: &[u8]) -> Result<(), Refusal>
        ensures { Changed self.old (open_of bytes.now) self.new result }
    {
        let done = calls::open_frame(&mut self.items, self.count, bytes);
        self.count = done.size;
        done.outcome
    }

    // The calls that change an open session.
    pub fn change(&mut self, call: u8, bytes: &[u8]) -> Result<(), Refusal>
        requires { length bytes.now ≤ 2000 }
        ensures { Changed self.old (change_of call bytes.now) self.new result }
    {
        calls::change(&mut self.items[..self.count], call, bytes)
    }
}
