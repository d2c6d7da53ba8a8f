// The cells of notes: those on one line, of one note, of all notes that stand in a shelf.
ghost use Rattle.std.specs.Prelude.{◌≡◌, ◌+◌, ◌*◌, ◌≤◌, ◌<◌, length};
ghost use Rattle.words.specs.Splice.{splice};
ghost use Rattle.model.specs.Lists.{gather};
ghost use Rattle.model.specs.Limits.{max_beats};
ghost use Rattle.model.specs.Pieces.{cell_at, cells_of_note};
ghost use Rattle.model.specs.Takes.{cell_words};
ghost use Rattle.cuts.specs.Making.{Made, touched_cells, crossed_cells, cells_behind, LinesAsks, NoteAsks, CellsAsks, cells_at};

use model::{Cell, Note};
use session::beats::Divisor;
use session::notes;

// The cell of a note on a line of a beat.
#[tactic(auto, unfolding(model::specs::Pieces::cell_at))]
fn put_cell(s: &mut [u32], at: usize, n: Note, beat: u32, side: u32, line: u32)
    requires { (at + 6 ≤ length s.old) × (n.start ≤ line) × (line ≤ n.end) }
    ensures { s.new ≡ splice s.old at (cell_words (cell_at n beat side line)) }
{
    let c = Cell {
        lane: n.lane,
        beat,
        side,
        before: line - n.start,
        after: n.end - line,
        velocity: n.velocity,
    };
    words::put(s, at, c.into());
}

// That the note lies about the line is asked here and found out below by the tests: each function knows another half of it, so that a type with both
// would ask more.

// The cell on the opening line of a note's first beat, if the note starts there. Returns the place behind it.
fn put_first(s: &mut [u32], at: usize, n: Note, beat: u32, line: u32) -> usize
    requires { (at + 6 * length (touched_cells n beat 0 line) ≤ length s.old) × (line ≤ n.end) }
    ensures { Made s.old at (touched_cells n beat 0 line) s.new result }
{
    if line < n.start {
        return at;
    }
    put_cell(s, at, n, beat, 0, line);
    at + 6
}

// The cell on the closing line of a note's last beat, if the note ends there. Returns the place behind it. One function for this and put_first
// is no plainer: it would look at both ends of the note at either line.
fn put_last(s: &mut [u32], at: usize, n: Note, beat: u32, line: u32) -> usize
    requires { (at + 6 * length (touched_cells n beat 1 line) ≤ length s.old) × (n.start ≤ line) }
    ensures { Made s.old at (touched_cells n beat 1 line) s.new result }
{
    if n.end < line {
        return at;
    }
    put_cell(s, at, n, beat, 1, line);
    at + 6
}

// The two cells on a line that a note crosses: the closing one of a beat and the opening one of the next.
fn put_line(s: &mut [u32], at: usize, n: Note, beat: u32, line: u32)
    requires { (at + 12 ≤ length s.old) × (n.start ≤ line) × (line ≤ n.end) × (beat < max_beats) }
    ensures { s.new ≡ splice s.old at (gather cell_words (crossed_cells n beat line)) }
{
    put_cell(s, at, n, beat, 1, line);
    put_cell(s, at + 6, n, beat + 1, 0, line);
}

// The cells of a note from a beat's closing line on, line by line. Returns the place behind them.
fn put_lines(s: &mut [u32], at: usize, delta: u32, n: Note, first: u32, next: u32) -> usize
    requires { LinesAsks s.old at delta n first next }
    ensures { Made s.old at (cells_behind delta n first) s.new result }
{
    // A `for` over the lines is no plainer: the beat and the line behind the last turn are needed below.
    let mut beat = first;
    let mut line = next;
    let mut to = at;
    while line < n.end {
        put_line(s, to, n, beat, line);
        to += 12;
        beat += 1;
        line += delta;
    }
    put_last(s, to, n, beat, line)
}

// The cells of a note. Returns the place behind them.
fn put_note(s: &mut [u32], at: usize, by: Divisor, n: Note) -> usize
    requires { NoteAsks s.old at by.delta n }
    ensures { Made s.old at (cells_of_note by.delta n) s.new result }
{
    let first = by.beat_of(n.start);
    let line = first * by.delta;
    let to = put_first(s, at, n, first, line);
    put_lines(s, to, by.delta, n, first, line + by.delta)
}

// The cells of `count` notes that stand from place `at` on, written behind them. Returns the place behind the cells. A place and a count, no slice:
// the notes stand in the session that is written.
pub fn put_cells(s: &mut [u32], at: usize, count: usize, delta: u32) -> usize
    requires { CellsAsks s.old at count delta }
    ensures { Made s.old (at + 4 * count) (cells_at delta s.old at count) s.new result }
{
    let end = at + 4 * count;
    let by = Divisor::new(delta);
    let mut to = end;
    for k in 0..count {
        let n = notes::note_at(s, at + 4 * k);
        to = put_note(s, to, by, n);
    }
    to
}
