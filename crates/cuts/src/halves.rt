// Both halves of a take, written into two other shelves of the session in one pass over the take's own notes and cells.
ghost use Rattle.std.specs.Prelude.{◌≡◌, ◌+◌, ◌-◌, ◌*◌, ◌/◌, ◌≤◌, ◌<◌, length};
ghost use Rattle.words.specs.Splice.{splice};
ghost use Rattle.model.specs.Limits.{max_beats, max_delta};
ghost use Rattle.model.specs.Lists.{gather};
ghost use Rattle.model.specs.Takes.{note_words, cell_words, words_of};
ghost use Rattle.model.specs.Session.{shelf_at};
ghost use Rattle.model.specs.Questions.{take_at};
ghost use Rattle.laws.specs.Cutting.{closing_cell, first_cell};
ghost use Rattle.session.specs.Framing.{framed};
ghost use Rattle.session.specs.Reading.{last_cells};
ghost use Rattle.session.specs.Sliced.{cells_of};
ghost use Rattle.cuts.specs.Halving.{HalfOk, left_half, right_half, half_of, line_cell, crossed_note, across_parts, max_session, contents_by, contents_at, notes_left, Noted};
ghost use Rattle.cuts.specs.BothHalves.{max_place, cell_place, left_cell, right_cell, left_cells, right_cells, BothPut, Sides, PartsAsks, PartsPut, NotesAsks, CellsAsks, CountsAsks, BothAsks};

use crate::lasts::{Last, LastCells, LastNotes};
use model::{Cell, Header, Note};
use session::slices::CellWords;
use session::view::SessionView;
use session::{clear, header, notes, rules, shelf};

// The half before the beat of a split, or the half from that beat on.
#[derive(Clone, Copy)]
pub enum Side {
    Left,
    Right,
}

// One half of a take that is split at a beat.
#[derive(Clone, Copy)]
pub struct Half {
    pub side: Side,
    // The beat of the split, and the tick of its opening line.
    pub beat: u32,
    pub line: u32,
    // The half's own beat at that line.
    pub edge: u32,
    // How many beats the half has.
    pub beats: u32,
}

// The beats before a beat.
pub fn left_half(delta: u32, beat: u32) -> Half
    requires { (delta ≤ max_delta) × (beat ≤ max_beats) }
    ensures { result ≡ left_half delta beat }
{
    Half {
        side: Side::Left,
        beat,
        line: beat * delta,
        edge: beat.saturating_sub(1),
        beats: beat,
    }
}

// The beats from a beat on, in a take of so many beats.
pub fn right_half(delta: u32, beat: u32, beats: u32) -> Half
    requires { (delta ≤ max_delta) × (beats ≤ max_beats) × (beat ≤ beats) }
    ensures { result ≡ right_half delta beat beats }
{
    Half {
        side: Side::Right,
        beat,
        line: beat * delta,
        edge: beat,
        beats: beats - beat,
    }
}

// The notes of a shelf, and its cells, or those of both that are left.
#[derive(Clone, Copy)]
pub struct Contents {
    pub notes: LastNotes,
    pub cells: LastCells,
}

// The notes and cells of a shelf at a place, by its counts.
fn counted(at: usize, notes: u32, cells: u32) -> Contents
    requires { at ≤ max_session }
    ensures { result ≡ contents_by at notes cells }
{
    let notes = notes as usize;
    let cells = cells as usize;
    let middle = at + 3 + 4 * notes;
    Contents {
        notes: Last {
            end: middle,
            left: notes,
        },
        cells: Last {
            end: middle + 6 * cells,
            left: cells,
        },
    }
}

// The notes and cells of the shelf at a place.
pub fn contents_at(s: &[u32], at: usize) -> Contents
    requires { (at ≤ max_session) × (at + 3 ≤ length s.now) }
    ensures { result ≡ contents_at s.now at }
{
    counted(at, s[at + 1], s[at + 2])
}

// The notes and cells of the take in a shelf.
pub fn contents_of(s: SessionView, take: u32) -> Contents
    requires { take < s.header.shelves }
    ensures { result ≡ contents_at s.entry.words.now (shelf_at s.entry.header take) }
{
    contents_at(s.words, header::shelf_at(s.header, take))
}

// ---- notes

// The cells from the closing cell of the beat in front on: behind its opening cell, if that stands there.
#[tactic(auto, unfolding(laws::specs::Cutting::first_cell, laws::specs::Cutting::closing_cell, session::specs::Reading::cell_at))]
fn closing_cells(cells: &[CellWords]) -> &[CellWords]
    ensures { first_cell (cells_of result.now) ≡ closing_cell (cells_of cells.now) }
{
    let Some((first, behind)) = cells.split_first() else {
        return cells;
    };
    if Cell::from(*first).side == 0 {
        behind
    } else {
        cells
    }
}

// The cells from the half's own cell on the line on: its beat's opening cell for the right half, its beat's closing cell for the left.
#[tactic(auto, unfolding(crate::specs::Halving::line_cell))]
fn line_cells(half: Half, cells: &[CellWords]) -> &[CellWords]
    ensures { first_cell (cells_of result.now) ≡ line_cell half (cells_of cells.now) }
{
    match half.side {
        Side::Left => closing_cells(cells),
        Side::Right => cells,
    }
}

// The half's part of a note that crosses the line. The right half's has the velocity of its cell.
fn crossed(half: Half, n: Note, velocity: u32) -> Note
    requires { half.line ≤ n.end }
    ensures { result ≡ crossed_note half n velocity }
{
    match half.side {
        Side::Left => Note {
            end: half.line,
            ..n
        },
        Side::Right => Note {
            start: 0,
            end: n.end - half.line,
            velocity,
            ..n
        },
    }
}

// The half's part of a note that crosses the line, if its cell there stands alone. Returns the place behind it.
fn put_across(s: &mut [u32], to: usize, h: Header, half: Half, n: Note, cells: LastCells) -> usize
    requires { (to + 4 * length (across_parts h half n (last_cells s.old cells.end cells.left)) ≤ length s.old) × (cells.end ≤ length s.old) × (half.line ≤ n.end) }
    ensures { Noted s.old to (across_parts h half n (last_cells s.old cells.end cells.left)) s.new result }
{
    let Some(words) = line_cells(half, cells.arrays(s)).first() else {
        return to;
    };
    let c = Cell::from(*words);
    if !rules::stands_alone(h, c) {
        return to;
    }
    let part = crossed(half, n, c.velocity);
    words::put(s, to, part.into());
    to + 4
}

// The places behind what is written of each half.
#[derive(Clone, Copy)]
pub struct Ends {
    pub left: usize,
    pub right: usize,
}

// Where each half's next note goes, and the cells, up to the same place, among which the left half's closing cells on the line are looked
// for, and the right half's opening cells.
#[derive(Drop)]
pub struct Cursors {
    pub to: Ends,
    pub closings: LastCells,
    pub openings: LastCells,
}

// A split: both halves of a take in a session with this header.
#[derive(Clone, Copy)]
struct Split {
    pub h: Header,
    pub before: Half,
    pub behind: Half,
    ghost sides: { Sides before behind },
    ghost before_ok: { HalfOk h.delta before },
    ghost behind_ok: { HalfOk h.delta behind },
}

// Both halves' parts of a note that crosses the line. The search for the opening cell goes on where the closing cell was found.
fn put_crossed(s: &mut [u32], split: Split, n: Note, at: Cursors) -> Cursors
    requires { PartsAsks s.old split.h split.before split.behind n at × (split.before.line < n.end) × (n.start < split.before.line) }
    ensures { PartsPut s.old split.h split.before split.behind n at s.new result }
{
    let Split { h, before, behind } = split;
    let end = at.closings.end;
    let closing = clear::cells_from(s, end, at.closings.left, n.lane, before.edge);
    let ahead = closing.min(at.openings.left);
    let opening = clear::cells_from(s, end, ahead, n.lane, behind.edge);
    let closings = at.closings.keep(closing);
    let openings = at.openings.keep(opening);
    let left = put_across(s, at.to.left, h, before, n, closings);
    let right = put_across(s, at.to.right, h, behind, n, openings);
    Cursors {
        to: Ends { left, right },
        closings,
        openings,
    }
}

// Both halves' parts of a note: all of it to the one or to the other, or a part to each.
fn put_parts(s: &mut [u32], split: Split, n: Note, at: Cursors) -> Cursors
    requires { PartsAsks s.old split.h split.before split.behind n at }
    ensures { PartsPut s.old split.h split.before split.behind n at s.new result }
{
    let line = split.before.line;
    if n.end <= line {
        words::put(s, at.to.left, n.into());
        let to = Ends {
            left: at.to.left + 4,
            ..at.to
        };
        return Cursors { to, ..at };
    }
    if line <= n.start {
        let part = Note {
            start: n.start - line,
            end: n.end - line,
            ..n
        };
        words::put(s, at.to.right, part.into());
        let to = Ends {
            right: at.to.right + 4,
            ..at.to
        };
        return Cursors { to, ..at };
    }
    put_crossed(s, split, n, at)
}

// Both halves' parts of a shelf's notes, in one pass over its notes and cells. Returns the places behind them.
fn put_notes(s: &mut [u32], split: Split, from: Contents, to: Ends) -> Ends
    requires { NotesAsks s.old split.h split.before split.behind from to }
    ensures { BothPut s.old to (gather note_words (notes_left split.h split.before s.old from from.notes.left from.cells.left)) (gather note_words (notes_left split.h split.behind s.old from from.notes.left from.cells.left)) s.new result }
{
    let mut at = Cursors {
        to,
        closings: from.cells,
        openings: from.cells,
    };
    for left in (1..=from.notes.left).rev() {
        let n = notes::note_at(s, from.notes.end - 4 * left);
        at = put_parts(s, split, n, at);
    }
    at.to
}

// ---- cells

// Where a cell of a take goes, its beat there, and the places behind each half's cells then.
#[derive(Drop)]
pub struct CellPlace {
    pub to: usize,
    pub beat: u32,
    pub behind: Ends,
}

// A cell of beat `own` goes to its half, counted from the half's first beat. Only the place is chosen here, so that the write behind it needs
// no branch.
fn cell_place(beat: u32, own: u32, at: Ends) -> CellPlace
    requires { (at.left ≤ max_place) × (at.right ≤ max_place) }
    ensures { result ≡ cell_place beat own at }
{
    if own < beat {
        return CellPlace {
            to: at.left,
            beat: own,
            behind: Ends {
                left: at.left + 6,
                ..at
            },
        };
    }
    CellPlace {
        to: at.right,
        beat: own - beat,
        behind: Ends {
            right: at.right + 6,
            ..at
        },
    }
}

// A cell, written to its half, counted from the half's first beat. Returns the places behind each half's cells.
fn put_cell(s: &mut [u32], beat: u32, c: Cell, at: Ends) -> Ends
    requires { (at.left + 6 * length (left_cell beat c) ≤ length s.old) × (at.right + 6 * length (right_cell beat c) ≤ length s.old) }
    ensures { BothPut s.old at (gather cell_words (left_cell beat c)) (gather cell_words (right_cell beat c)) s.new result }
{
    let place = cell_place(beat, c.beat, at);
    let put = Cell {
        beat: place.beat,
        ..c
    };
    words::put(s, place.to, put.into());
    place.behind
}

// Both halves' cells of a shelf's cells. Returns the places behind them.
fn put_cells(s: &mut [u32], beat: u32, from: Contents, to: Ends) -> Ends
    requires { CellsAsks s.old beat from to }
    ensures { BothPut s.old to (gather cell_words (left_cells beat s.old from from.cells.left)) (gather cell_words (right_cells beat s.old from from.cells.left)) s.new result }
{
    let mut at = to;
    for left in (1..=from.cells.left).rev() {
        let c = notes::cell_at(s, from.cells.end - 6 * left);
        at = put_cell(s, beat, c, at);
    }
    at
}

// ---- the halves

// The counts and zeros of a shelf at a place, whose notes stand up to `middle` and whose cells up to `end`.
pub fn put_counts(s: &mut [u32], at: usize, words: u32, beats: u32, middle: usize, end: usize)
    requires { CountsAsks s.old at words middle end }
    ensures { s.new ≡ framed s.old at words beats ((middle - (at + 3)) / 4) ((end - middle) / 6) }
{
    let notes = (middle - (at + 3)) / 4;
    let cells = (end - middle) / 6;
    shelf::put_frame(s, at, words as usize, beats, notes as u32, cells as u32);
}

// Both halves of the take in one shelf, each written into another shelf: notes, then cells behind them, then the counts and zeros.
pub fn put_both(
    s: &mut [u32],
    h: Header,
    before: Half,
    behind: Half,
    take: u32,
    left: u32,
    right: u32,
)
    requires { BothAsks s.old h before behind take left right }
    ensures { s.new ≡ splice (splice s.old (shelf_at h left) (words_of h (half_of h.delta before (take_at h s.old take)))) (shelf_at h right) (words_of h (half_of h.delta behind (take_at h s.old take))) }
{
    let read = SessionView {
        words: s,
        header: h,
    };
    let from = contents_of(read, take);
    let l = header::shelf_at(h, left);
    let r = header::shelf_at(h, right);
    let first = Ends {
        left: l + 3,
        right: r + 3,
    };
    let split = Split { h, before, behind };
    let middle = put_notes(s, split, from, first);
    let end = put_cells(s, before.beat, from, middle);
    put_counts(s, l, h.words, before.beats, middle.left, end.left);
    put_counts(s, r, h.words, behind.beats, middle.right, end.right);
}
