// Two takes joined, written into another shelf of the session straight from their own notes and cells. The first and the second take stand one by one,
// as in the definitions.
ghost use Rattle.std.specs.Prelude.{◌≡◌, ◌<◌};
ghost use Rattle.cuts.specs.Making.{Made};
ghost use Rattle.words.specs.Splice.{splice};
ghost use Rattle.model.specs.Questions.{take_at};
ghost use Rattle.model.specs.Session.{shelf_at};
ghost use Rattle.model.specs.Takes.{join_takes, words_of};
ghost use Rattle.cuts.specs.Joined.{LowerAsks, Lowered, BeforeAsks, PutBefore, JoinedAsks, cells_joined, PutAsks};

use crate::lasts::LastCells;
use crate::{halves, lanes};
use model::{Cell, Header};
use session::view::SessionView;
use session::{header, notes};

// ---- cells

// The second take's cells of lower lanes, so many beats later: those in front of its last cells. Returns those that are left.
fn put_lower(s: &mut [u32], to: usize, lane: u32, beats: u32, cells: LastCells) -> LastCells
    requires { LowerAsks s.old to lane beats cells.end cells.left }
    ensures put { Lowered s.old to lane beats cells.end cells.left s.new result.left }
    ensures end_is { result.end ≡ cells.end }
{
    let mut at = to;
    for rest in (1..=cells.left).rev() {
        let c = notes::cell_at(s, cells.end - 6 * rest);
        if lane <= c.lane {
            return cells.keep(rest);
        }
        let later = Cell {
            beat: beats + c.beat,
            ..c
        };
        words::put(s, at, later.into());
        at += 6;
    }
    cells.keep(0)
}

// A cell of the first take, and before it the second's of lower lanes. Returns those of the second's that are left.
fn put_before(s: &mut [u32], to: usize, c: Cell, beats: u32, cells: LastCells) -> LastCells
    requires { BeforeAsks s.old to c beats cells.end cells.left }
    ensures put { PutBefore s.old to c beats cells.end cells.left s.new result.left }
    ensures end_is { result.end ≡ cells.end }
{
    let rest = put_lower(s, to, c.lane, beats, cells);
    let at = to + 6 * (cells.left - rest.left);
    words::put(s, at, c.into());
    rest
}

// The joined cells: in each lane the first take's, then the second's, so many beats later. Returns the place behind them.
pub fn put_joined_cells(
    s: &mut [u32],
    to: usize,
    beats: u32,
    first: LastCells,
    second: LastCells,
) -> usize
    requires { JoinedAsks s.old to beats first second }
    ensures { Made s.old to (cells_joined beats s.old first second first.left second.left) s.new result }
{
    let mut at = to;
    let mut rest = second;
    for left in (1..=first.left).rev() {
        let c = notes::cell_at(s, first.end - 6 * left);
        let next = put_before(s, at, c, beats, rest);
        at += 6 * (rest.left - next.left) + 6;
        rest = next;
    }
    let over = put_lower(s, at, Header::LANES, beats, rest);
    at + 6 * (rest.left - over.left)
}

// ---- the join

// The beats of the take in a shelf.
pub fn beats_at(s: SessionView, take: u32) -> u32
    requires { take < s.header.shelves }
    ensures { result ≡ (take_at s.entry.header s.entry.words.now take).beats }
{
    s.shelf(take)[0]
}

// The join of the takes in two shelves, written into another: notes, then cells behind them, then the counts and zeros.
pub fn put_joined(s: &mut [u32], h: Header, first: u32, second: u32, res: u32)
    requires { PutAsks s.old h first second res }
    ensures { s.new ≡ splice s.old (shelf_at h res) (words_of h (join_takes h.delta (take_at h s.old first) (take_at h s.old second))) }
{
    let read = SessionView {
        words: s,
        header: h,
    };
    let beats = beats_at(read, first);
    let total = beats + beats_at(read, second);
    let a = halves::contents_of(read, first);
    let b = halves::contents_of(read, second);
    let at = header::shelf_at(h, res);
    let middle = lanes::put_joined_notes(s, at + 3, h, beats, a, b);
    let end = put_joined_cells(s, middle, beats, a.cells, b.cells);
    halves::put_counts(s, at, h.words, total, middle, end);
}
