// The rules for cells: their order, which stand alone, which are bound, where their pieces lie; and which notes touch no line.
// They hold for any words: sums and products are of 64 bits. Cells, header, δ and beats stand one by one, in the order of the definitions: a cell with
// its header is no thing of the paper.
ghost use Rattle.std.specs.Prelude.{◌≡◌, ◌+◌, ◌*◌};
ghost use Rattle.model.specs.Binding.{stands_alone, meet, none_alone, bound, fills, start_of, end_of};
ghost use Rattle.model.specs.Pieces.{first_beat, inside};
ghost use Rattle.model.specs.Soundness.{filled};

use model::{Cell, Header, Note};

// Where a beat, or a tick, of a lane comes in the order of lanes, then beats or ticks: a word is below 2^32, so the two are one number.
pub fn lane_order(lane: u32, word: u32) -> u64
    ensures { result ≡ lane * 4294967296 + word }
{
    (lane as u64) * 4294967296 + (word as u64)
}

// Does the cell stand alone?
#[tactic(auto, unfolding(model::specs::Binding::stands_alone))]
pub fn stands_alone(h: Header, c: Cell) -> bool
    ensures { result ≡ stands_alone h c }
{
    if c.side == 0 {
        h.epsilon <= c.after || c.before == 0
    } else {
        h.epsilon <= c.before || c.after == 0
    }
}

// Do the cells meet: in one lane, a beat's closing line and the opening line of the next?
#[tactic(auto, unfolding(model::specs::Binding::meet))]
pub fn meets(c: Cell, d: Cell) -> bool
    ensures { result ≡ meet c d }
{
    c.lane == d.lane && c.side == 1 && d.side == 0 && (d.beat as u64) == (c.beat as u64) + 1
}

// Are two cells that meet bound, if neither stands alone?
fn is_bound_short(h: Header, c: Cell, d: Cell) -> bool
    ensures { result ≡ none_alone h c d }
{
    c.before == d.before && c.after == d.after
        || (h.epsilon as u64) <= (c.before as u64) + (d.after as u64)
}

// Are two cells that meet bound?
#[tactic(auto, unfolding(model::specs::Binding::bound))]
pub fn is_bound(h: Header, c: Cell, d: Cell) -> bool
    ensures { result ≡ bound h c d }
{
    match (stands_alone(h, c), stands_alone(h, d)) {
        (true, true) => 0 < c.after && 0 < d.before,
        (false, false) => is_bound_short(h, c, d),
        _ => true,
    }
}

// Is it the opening cell of a piece that fills its beat?
#[tactic(auto, unfolding(model::specs::Binding::fills))]
pub fn is_filling(delta: u32, c: Cell) -> bool
    ensures { result ≡ fills delta c }
{
    c.side == 0 && delta <= c.after
}

// Is it the closing cell of a piece that fills its beat?
#[tactic(auto, unfolding(model::specs::Soundness::filled))]
pub fn is_filled(delta: u32, d: Cell) -> bool
    ensures { result ≡ filled delta d }
{
    d.side != 0 && delta <= d.before
}

// The tick where the cell's piece starts; 0 if it remembers more ticks than the take has ahead of its line.
#[tactic(auto, unfolding(model::specs::Binding::start_of))]
pub fn start_of(delta: u32, c: Cell) -> u64
    ensures { result ≡ start_of delta c }
{
    if c.side == 0 {
        (c.beat as u64) * (delta as u64)
    } else {
        (((c.beat as u64) + 1) * (delta as u64)).saturating_sub(c.before as u64)
    }
}

// The tick where the cell's piece ends.
#[tactic(auto, unfolding(model::specs::Binding::end_of))]
pub fn end_of(delta: u32, c: Cell) -> u64
    ensures { result ≡ end_of delta c }
{
    if c.side == 0 {
        (c.beat as u64) * (delta as u64) + (c.after as u64)
    } else {
        ((c.beat as u64) + 1) * (delta as u64)
    }
}

// Does the note, which starts in beat `beat`, touch no line?
pub fn is_inside(delta: u32, beat: u32, n: Note) -> bool
    requires { beat ≡ first_beat delta n }
    ensures { result ≡ inside delta n }
{
    let line = (beat as u64) * (delta as u64);
    line < (n.start as u64) && (n.end as u64) < line + (delta as u64)
}
