// The notes of a join, lane by lane: copied from both takes, and at the seam decided by the rules.
ghost use Rattle.std.specs.Prelude.{◌≡◌, ◌≤◌, length};
ghost use Rattle.laws.specs.JoinWalk.{least_lane, note_run, cell_run, cell_rest};
ghost use Rattle.laws.specs.Seam.{bound_at, ending_at, starting_at0, up_to, from_on};
ghost use Rattle.session.specs.Reading.{last_notes, last_cells};
ghost use Rattle.session.specs.Sliced.{cells_of};
ghost use Rattle.cuts.specs.Seams.{NoteRunAsks, NoteRunPut, RunRead, OverAsks, over_seam, InPlace, lane_of};

use crate::halves::Contents;
use crate::lasts::{LastCells, LastNotes};
use model::{Cell, Header, Note};
use session::slices::CellWords;
use session::{notes, rules};

// The notes of a lane in front of the last notes, so many ticks later. Returns those that are left.
// One generic function for this and joined::put_lower is no plainer: it would take closures for reading, the test and the words.
pub fn put_note_run(s: &mut [u32], to: usize, lane: u32, ticks: u32, notes: LastNotes) -> LastNotes
    requires { NoteRunAsks s.old to lane ticks notes.end notes.left }
    ensures put { NoteRunPut s.old to lane ticks notes.end notes.left s.new result.left }
    ensures end_is { result.end ≡ notes.end }
{
    // The place moves on beside the loop, which counts the notes that are left.
    let mut at = to;
    for rest in (1..=notes.left).rev() {
        let n = notes::note_at(s, notes.end - 4 * rest);
        if n.lane != lane {
            return notes.keep(rest);
        }
        let later = Note {
            start: n.start + ticks,
            end: n.end + ticks,
            ..n
        };
        words::put(s, at, later.into());
        at += 4;
    }
    notes.keep(0)
}

// So many cells of a lane are in front.
pub(crate) fn count_run(cells: &[CellWords], lane: u32) -> usize
    ensures { result ≡ length (cell_run lane (cells_of cells.now)) }
{
    let other = cells.iter().position(|words| words[0] != lane);
    other.unwrap_or(cells.len())
}

// The cells that are left behind those of a lane in front.
pub fn behind_cell_run(s: &[u32], cells: LastCells, lane: u32) -> LastCells
    requires { cells.end ≤ length s.now }
    ensures run { (last_cells s.now cells.end result.left ≡ cell_rest lane (last_cells s.now cells.end cells.left)) × (result.left ≤ cells.left) }
    ensures end_is { result.end ≡ cells.end }
{
    cells.keep(cells.left - count_run(cells.arrays(s), lane))
}

// Are two cells on the line between the takes, behind so many beats of the first, and bound? A cell's side stays a word, since a session from C
// may hold any.
#[tactic(auto, unfolding(laws::specs::Seam::bound_at))]
pub fn bound_over(h: Header, beats: u32, c: Cell, d: Cell) -> bool
    ensures { result ≡ bound_at h beats c d }
{
    c.side == 1
        && (c.beat as u64) + 1 == (beats as u64)
        && d.side == 0
        && d.beat == 0
        && rules::is_bound(h, c, d)
}

// ---- the note that goes over the line

// A closing cell's note up to the line.
fn ending(line: u32, c: Cell) -> Note
    ensures { result ≡ ending_at line c }
{
    Note {
        lane: c.lane,
        start: line.saturating_sub(c.before),
        end: line,
        velocity: c.velocity,
    }
}

// An opening cell's note from a line at tick 0 on.
fn starting(d: Cell) -> Note
    ensures { result ≡ starting_at0 d }
{
    Note {
        lane: d.lane,
        start: 0,
        end: d.after,
        velocity: d.velocity,
    }
}

// The note that goes over the line, up to it. Of the last notes those of the cell's lane in front are read, and `rest` are left.
pub fn up_to(s: &[u32], h: Header, line: u32, c: Cell, notes: LastNotes, rest: LastNotes) -> Note
    requires { RunRead s.now c.lane notes.end notes.left rest.left }
    ensures { result ≡ up_to h line c (note_run c.lane (last_notes s.now notes.end notes.left)) }
{
    if rest.left == notes.left {
        return ending(line, c);
    }
    if rules::stands_alone(h, c) {
        return notes::note_at(s, notes.end - 4 * (rest.left + 1));
    }
    ending(line, c)
}

// The note that goes over the line, from it on, in the second take: of its last notes, those of the cell's lane in front.
pub fn from_on(s: &[u32], h: Header, d: Cell, notes: LastNotes) -> Note
    requires { notes.end ≤ length s.now }
    ensures { result ≡ from_on h d (note_run d.lane (last_notes s.now notes.end notes.left)) }
{
    if notes.left == 0 {
        return starting(d);
    }
    let n = notes::note_at(s, notes.place());
    if n.lane != d.lane {
        return starting(d);
    }
    if rules::stands_alone(h, d) {
        return n;
    }
    starting(d)
}

// What happens at the seam of a lane where a note goes over the line: two answers of a rule, one for each take, and a note.
#[derive(Clone, Copy)]
pub struct Seam {
    // Is the last of the first take's notes a part of it?
    pub held: bool,
    // Is the first of the second take's notes a part of it?
    pub skipped: bool,
    // That note.
    pub note: Note,
}

// The seam where a note goes over the line: c and d are the lane's cells on it. Of the first's notes of the lane, all but `rest` are read.
pub fn seam_over(
    s: &[u32],
    h: Header,
    line: u32,
    c: Cell,
    d: Cell,
    first: LastNotes,
    rest: LastNotes,
    second: LastNotes,
) -> Seam
    requires { OverAsks s.now h line c d first.end first.left rest.left second.end second.left }
    ensures { result ≡ over_seam h line c d (note_run c.lane (last_notes s.now first.end first.left)) (note_run d.lane (last_notes s.now second.end second.left)) }
{
    let n = up_to(s, h, line, c, first, rest);
    let m = from_on(s, h, d, second);
    Seam {
        held: rules::stands_alone(h, c),
        skipped: rules::stands_alone(h, d),
        note: Note {
            end: m.end + line,
            ..n
        },
    }
}

// ---- the lane that is next

// The least lane in front of a take's notes and cells: 2,048 if there are none.
fn lane_of(s: &[u32], from: Contents) -> u32
    requires { InPlace s.now from }
    ensures { result ≡ lane_of s.now from }
{
    from.notes.lane(s).min(from.cells.lane(s))
}

// The least lane in front of both takes' notes and cells: 2,048 if there are none.
pub fn least_lane(s: &[u32], first: Contents, second: Contents) -> u32
    requires { InPlace s.now first × InPlace s.now second }
    ensures { result ≡ least_lane (last_notes s.now first.notes.end first.notes.left) (last_cells s.now first.cells.end first.cells.left) (last_notes s.now second.notes.end second.notes.left) (last_cells s.now second.cells.end second.cells.left) }
{
    lane_of(s, first).min(lane_of(s, second))
}
