// What soundness asks of each cell by itself and of each cell and the next.
ghost use Rattle.std.specs.Prelude.{◌≡◌, ◌&&◌, ◌||◌, not};
ghost use Rattle.model.specs.Lists.{every};
ghost use Rattle.model.specs.Binding.{fills};
ghost use Rattle.model.specs.Soundness.{cell_in_range, has_ticks, memory_within, filled, partners};
ghost use Rattle.laws.specs.Chain.{cell_ok, neighbours, cells_sound};
ghost use Rattle.session.specs.Sliced.{cells_of};

use crate::slices::{CellWords, first_cell};
use crate::{notes, rules};
use model::{Cell, Header};
use std::cmp::Ordering;

// Are lane, beat, side and velocity in range?
#[tactic(auto, unfolding(model::specs::Soundness::cell_in_range))]
fn in_range(beats: u32, c: Cell) -> bool
    ensures { result ≡ cell_in_range beats c }
{
    c.lane < Header::LANES
        && c.beat < beats
        && c.side <= 1
        && notes::velocity_ok(c.lane, c.velocity)
}

// Is before + after at most 4,096 × δ?
#[tactic(auto, unfolding(model::specs::Soundness::memory_within))]
fn memory_within(delta: u32, c: Cell) -> bool
    ensures { result ≡ memory_within delta c }
{
    let ticks = (c.before as u64) + (c.after as u64);
    let most = (Header::BEATS as u64) * (delta as u64);
    ticks <= most
}

// Has the cell's piece a tick in its beat?
#[tactic(auto, unfolding(model::specs::Soundness::has_ticks))]
fn has_ticks(c: Cell) -> bool
    ensures { result ≡ has_ticks c }
{
    if c.side == 0 {
        0 < c.after
    } else {
        0 < c.before
    }
}

// What is asked of a cell by itself.
#[tactic(auto, unfolding(laws::specs::Chain::cell_ok))]
fn cell_ok(delta: u32, beats: u32, c: Cell) -> bool
    ensures { result ≡ cell_ok delta beats c }
{
    in_range(beats, c) && memory_within(delta, c) && has_ticks(c)
}

// Are they the opening and the closing cell of one piece that fills its beat?
#[tactic(auto, unfolding(model::specs::Soundness::partners))]
fn are_partners(delta: u32, c: Cell, d: Cell) -> bool
    ensures { result ≡ partners delta c d }
{
    c.lane == d.lane
        && c.beat == d.beat
        && c.side == 0
        && d.side != 0
        && (d.before as u64) == (c.before as u64) + (delta as u64)
        && (d.after as u64) + (delta as u64) == (c.after as u64)
        && c.velocity == d.velocity
}

// What is asked of two cells of two beats: neither is of a piece that fills its beat.
fn two_beats_ok(delta: u32, c: Cell, d: Cell) -> bool
    ensures { result ≡ not (fills delta c || filled delta d) }
{
    !(rules::is_filling(delta, c) || rules::is_filled(delta, d))
}

// What is asked of a cell and the next one of the same beat: their pieces are one piece, or do not overlap.
#[tactic(auto, unfolding(laws::specs::Chain::neighbours, laws::specs::Chain::same_beat, model::specs::Soundness::cell_before))]
fn one_beat_ok(delta: u32, c: Cell, d: Cell) -> bool
    requires { (c.lane ≡ d.lane) × (c.beat ≡ d.beat) }
    ensures { result ≡ neighbours delta c d }
{
    if d.side <= c.side {
        return false;
    }
    if rules::is_filling(delta, c) || rules::is_filled(delta, d) {
        return are_partners(delta, c, d);
    }
    (c.after as u64) + (d.before as u64) <= (delta as u64)
}

// What is asked of a cell and the next one.
fn neighbours_ok(delta: u32, c: Cell, d: Cell) -> bool
    ensures { result ≡ neighbours delta c d }
{
    let c_at = rules::lane_order(c.lane, c.beat);
    let d_at = rules::lane_order(d.lane, d.beat);
    match c_at.cmp(&d_at) {
        Ordering::Less => two_beats_ok(delta, c, d),
        Ordering::Equal => one_beat_ok(delta, c, d),
        Ordering::Greater => false,
    }
}

// What is asked of the first cell: it is not the second one of a piece.
fn first_ok(delta: u32, beats: u32, c: Cell) -> bool
    ensures { result ≡ (cell_ok delta beats c && not (filled delta c)) }
{
    cell_ok(delta, beats, c) && !rules::is_filled(delta, c)
}

// What is asked of a cell d behind a cell c.
fn next_ok(delta: u32, beats: u32, c: Cell, d: Cell) -> bool
    ensures { result ≡ (cell_ok delta beats d && neighbours delta c d) }
{
    cell_ok(delta, beats, d) && neighbours_ok(delta, c, d)
}

// What is asked of the cells.
pub fn cells_ok(delta: u32, beats: u32, cells: &[CellWords]) -> bool
    ensures { result ≡ (every (cell_ok delta beats) (cells_of cells.now) && cells_sound delta (cells_of cells.now)) }
{
    let Some((first, behind)) = first_cell(cells) else {
        return true;
    };
    if !first_ok(delta, beats, first) {
        return false;
    }
    let mut last = first;
    for words in behind {
        let c = Cell::from(*words);
        if !next_ok(delta, beats, last, c) {
            return false;
        }
        last = c;
    }
    !rules::is_filling(delta, last)
}
