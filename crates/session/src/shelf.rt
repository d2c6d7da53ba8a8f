// The frame of a shelf: the three counts ahead of its notes and cells, and the zeros behind them.
ghost use Rattle.std.specs.Prelude.{◌≡◌, ◌+◌, ◌≤◌, length};
ghost use Rattle.model.specs.Takes.{words_used};
ghost use Rattle.session.specs.Framing.{framed};

use crate::layout;

// Makes a shelf of notes and cells that stand in their places: n, N and C ahead of them, zeros behind them.
pub fn put_frame(s: &mut [u32], at: usize, words: usize, beats: u32, notes: u32, cells: u32)
    requires { (at + words ≤ length s.old) × (words_used notes cells ≤ words) }
    ensures { s.new ≡ framed s.old at words beats notes cells }
{
    words::put(s, at, [beats, notes, cells]);
    let used = layout::words_used(notes, cells);
    words::zero_fill(s, at + used, at + words);
}
