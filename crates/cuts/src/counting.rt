// Question 8 of a join: does its result fit a shelf? Its notes are counted from those of both takes and from the cells at the seam.
ghost use Rattle.std.specs.Prelude.{◌≡◌, ◌+◌, ◌*◌, ◌≤◌, min, leb};
ghost use Rattle.model.specs.Limits.{lane_count};
ghost use Rattle.model.specs.Questions.{fits, take_at};
ghost use Rattle.model.specs.Takes.{join_takes};
ghost use Rattle.laws.specs.JoinCount.{seams};
ghost use Rattle.laws.specs.JoinWalk.{cell_rest, cell_run};
ghost use Rattle.laws.specs.Seam.{seam_of};
ghost use Rattle.session.specs.Sliced.{cells_of};
ghost use Rattle.cuts.specs.Counting.{count_of, pair_at, SeamsAsks, CountsAsks, counted_words, FitAsks};

use crate::halves::Contents;
use crate::{halves, joined, lasts, seam};
use model::{Cell, Header};
use session::rules;
use session::slices::CellWords;
use session::view::SessionView;

// ---- the pair of a lane

// Pairs of cells that are bound over the line between two takes.
#[derive(Clone, Copy, Default)]
pub struct SeamCount {
    // How many pairs.
    pub pairs: usize,
    // How many of their cells stand alone.
    pub alone: usize,
}

// The pair of two cells, if they are bound over the line.
fn pair_count(h: Header, beats: u32, c: Cell, d: Cell) -> SeamCount
    ensures { result ≡ count_of h (pair_at h beats c d) }
{
    if !seam::bound_over(h, beats, c, d) {
        return SeamCount::default();
    }
    SeamCount {
        pairs: 1,
        alone: usize::from(rules::stands_alone(h, c)) + usize::from(rules::stands_alone(h, d)),
    }
}

// The cells of a lane in front, and those behind them.
fn lane_run(cells: &[CellWords], lane: u32) -> (&[CellWords], &[CellWords])
    ensures run { cells_of result.0.now ≡ cell_run lane (cells_of cells.now) }
    ensures rest { cells_of result.1.now ≡ cell_rest lane (cells_of cells.now) }
{
    cells.split_at(seam::count_run(cells, lane))
}

// The pair of a lane's cells: the last of the first take's and the first of the second's, if they are bound over the line.
fn run_count(h: Header, beats: u32, first: &[CellWords], second: &[CellWords]) -> SeamCount
    ensures { result ≡ count_of h (seam_of h beats (cells_of first.now) (cells_of second.now)) }
{
    let (Some(c), Some(d)) = (first.last(), second.first()) else {
        return SeamCount::default();
    };
    pair_count(h, beats, Cell::from(*c), Cell::from(*d))
}

// ---- all lanes

// The pairs of two takes' cells, the first of so many beats: one walk over both, the least lane in front next.
fn count_seams(h: Header, beats: u32, first: &[CellWords], second: &[CellWords]) -> SeamCount
    requires { SeamsAsks h beats (cells_of first.now) (cells_of second.now) }
    ensures { result ≡ count_of h (seams h beats (cells_of first.now) (cells_of second.now)) }
{
    let mut left = first;
    let mut over = second;
    let mut pairs = 0;
    let mut alone = 0;
    // No `for`: each turn goes behind all cells of a lane, and both takes go on together, so that an iterator would have to hold both.
    while !left.is_empty() {
        let lane = lasts::lane_ahead(left).min(lasts::lane_ahead(over));
        let (a, behind) = lane_run(left, lane);
        let (b, rest) = lane_run(over, lane);
        let next = run_count(h, beats, a, b);
        pairs += next.pairs;
        alone += next.alone;
        left = behind;
        over = rest;
    }
    SeamCount { pairs, alone }
}

// ---- the question

// No more pairs of cells are bound over the line than there are lanes, or cells in the take that has fewer.
fn most_pairs(first: Contents, second: Contents) -> usize
    ensures { result ≡ min lane_count (min first.cells.left second.cells.left) }
{
    (Header::LANES as usize).min(first.cells.left.min(second.cells.left))
}

// Do the three counts, two takes' notes and cells, and so many notes more, fit a shelf where so many notes are fewer?
#[tactic(auto, unfolding(crate::specs::Counting::counted_words))]
fn counts_fit(h: Header, first: Contents, second: Contents, more: usize, fewer: usize) -> bool
    requires { CountsAsks h first second more fewer }
    ensures { result ≡ leb (counted_words first second more) (h.words + 4 * fewer) }
{
    let notes = first.notes.left + second.notes.left + more;
    let cells = first.cells.left + second.cells.left;
    3 + 4 * notes + 6 * cells <= (h.words as usize) + 4 * fewer
}

// Question 8: does the join of the takes in two sound shelves fit a shelf? Yes at once where it fits with a note more for each pair that
// there can be; else its notes are counted.
pub fn join_fits(s: SessionView, first: u32, second: u32) -> bool
    requires { FitAsks s.words.now s.header first second }
    ensures { result ≡ fits s.entry.header (join_takes s.entry.header.delta (take_at s.entry.header s.entry.words.now first) (take_at s.entry.header s.entry.words.now second)) }
{
    let h = s.header;
    let a = halves::contents_of(s, first);
    let b = halves::contents_of(s, second);
    if counts_fit(h, a, b, most_pairs(a, b), 0) {
        return true;
    }
    let seams = count_seams(
        h,
        joined::beats_at(s, first),
        a.cells.arrays(s.words),
        b.cells.arrays(s.words),
    );
    counts_fit(h, a, b, seams.pairs, seams.alone)
}
