// A note that touches no line, against the pieces at the lines of its beat.
ghost use Rattle.std.specs.Prelude.{◌≡◌, ◌*◌, ◌<◌, ◌≤◌, length};
ghost use Rattle.model.specs.Pieces.{first_beat};
ghost use Rattle.laws.specs.Chain.{clear};
ghost use Rattle.laws.specs.Sweep.{earlier, skip, clear_two};
ghost use Rattle.session.specs.Reading.{last_cells};
ghost use Rattle.session.specs.Sliced.{cells_of};

use crate::rules;
use crate::slices::{CellWords, first_cell, from_first};
use model::{Cell, Note};

// Does the cell lie before the beat of the lane?
fn is_earlier(lane: u32, beat: u32, c: Cell) -> bool
    ensures { result ≡ earlier lane beat c }
{
    rules::lane_order(c.lane, c.beat) < rules::lane_order(lane, beat)
}

// The cells from beat `beat` of the lane on.
pub fn from_beat(cells: &[CellWords], lane: u32, beat: u32) -> &[CellWords]
    ensures { cells_of result.now ≡ skip lane beat (cells_of cells.now) }
{
    from_first(cells, |c, _| !is_earlier(lane, beat, c))
}

// The same among the last `left` cells up to place `end`: how many are left from that cell on. A later search goes on from there. Places and a count,
// no slices: split writes into the session that it reads from meanwhile, which C passes as one list.
pub fn cells_from(part: &[u32], end: usize, left: usize, lane: u32, beat: u32) -> usize
    requires { (6 * left ≤ end) × (end ≤ length part.now) }
    ensures { (last_cells part.now end result ≡ skip lane beat (last_cells part.now end left)) × (result ≤ left) }
{
    let (cells, _) = part[end - 6 * left..end].as_chunks::<6>();
    from_beat(cells, lane, beat).len()
}

// Are the note, which starts in beat `beat`, and the cell's piece apart?
fn is_clear(delta: u32, beat: u32, n: Note, c: Cell) -> bool
    requires { (0 < delta) × (beat ≡ first_beat delta n) }
    ensures { result ≡ clear delta n c }
{
    if n.lane != c.lane || beat != c.beat {
        return true;
    }
    let line = (beat as u64) * (delta as u64);
    if c.side == 0 {
        line + (c.after as u64) <= (n.start as u64)
    } else {
        (n.end as u64) + (c.before as u64) <= line + (delta as u64)
    }
}

// Is the note clear of the first two cells? A beat of a lane has no more than two. A note with its beat, as one value, would need δ too, and that it
// is the header's.
pub fn is_clear_of_two(delta: u32, beat: u32, n: Note, cells: &[CellWords]) -> bool
    requires { (0 < delta) × (beat ≡ first_beat delta n) }
    ensures { result ≡ clear_two delta n (cells_of cells.now) }
{
    let Some((c, behind)) = first_cell(cells) else {
        return true;
    };
    let Some((d, _)) = first_cell(behind) else {
        return is_clear(delta, beat, n, c);
    };
    is_clear(delta, beat, n, c) && is_clear(delta, beat, n, d)
}
