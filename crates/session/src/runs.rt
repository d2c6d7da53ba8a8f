// The notes that cells give: each is a run of pieces, each linked to the next.
ghost use Rattle.std.specs.Prelude.{◌≡◌, ◌||◌, []};
ghost use Rattle.model.specs.Binding.{stands_alone};
ghost use Rattle.laws.specs.Walk.{linked};
ghost use Rattle.session.specs.Checking.{given_by};
ghost use Rattle.session.specs.Running.{from_shown, from_last, note_of_run, same_note, behind_run};
ghost use Rattle.session.specs.Sliced.{cells_of, cells_of_option};

use crate::rules;
use crate::slices::{CellWords, first_cell, from_first};
use model::{Cell, Header, Note};

// Does the cell's piece go on in the next cell: are they one piece, or bound?
fn is_linked(h: Header, c: Cell, behind: &[CellWords]) -> bool
    ensures { result ≡ linked h c (cells_of behind.now) }
{
    if c.side == 0 {
        return h.delta <= c.after;
    }
    let Some((d, _)) = first_cell(behind) else {
        return false;
    };
    rules::meets(c, d) && rules::is_bound(h, c, d)
}

// Is the cell's piece shown, if no piece before it is linked to it?
fn is_shown(h: Header, c: Cell, behind: &[CellWords]) -> bool
    ensures { result ≡ (stands_alone h c || linked h c (cells_of behind.now)) }
{
    rules::stands_alone(h, c) || is_linked(h, c, behind)
}

// Passes hidden pieces: the cells from the first of the next run on, or none.
pub fn first_of_run(h: Header, cells: &[CellWords]) -> &[CellWords]
    ensures { cells_of result.now ≡ from_shown h (cells_of cells.now) }
{
    from_first(cells, |c, behind| is_shown(h, c, behind))
}

// Passes linked cells: the cells from the last of the run on, or none if the cells end with a linked one.
pub fn last_of_run(h: Header, cells: &[CellWords]) -> &[CellWords]
    ensures { cells_of result.now ≡ from_last h (cells_of cells.now) }
{
    from_first(cells, |c, behind| !is_linked(h, c, behind))
}

// Is n the note of a run from the piece of cell c to the piece of cell d?
#[tactic(auto, unfolding(crate::specs::Running::same_note, crate::specs::Running::note_of_run))]
pub fn is_note_of_run(delta: u32, n: Note, c: Cell, d: Cell) -> bool
    ensures { result ≡ same_note n (note_of_run delta c d) }
{
    n.lane == c.lane
        && (n.start as u64) == rules::start_of(delta, c)
        && (n.end as u64) == rules::end_of(delta, d)
        && n.velocity == c.velocity
}

// The cells behind the next run, if n is its note.
pub fn behind_run(h: Header, n: Note, cells: &[CellWords]) -> Option<&[CellWords]>
    ensures { cells_of_option result ≡ behind_run h n (cells_of cells.now) }
{
    let first = first_of_run(h, cells);
    // No run is left. A way out by itself, and no `?`, so that an edit can turn it alone.
    let Some((c, _)) = first_cell(first) else {
        return None;
    };
    let (d, behind) = first_cell(last_of_run(h, first))?;
    if is_note_of_run(h.delta, n, c, d) {
        Some(behind)
    } else {
        None
    }
}

// Do the cells give no note?
pub fn gives_none(h: Header, cells: &[CellWords]) -> bool
    ensures { result ≡ given_by h [] (cells_of cells.now) }
{
    last_of_run(h, first_of_run(h, cells)).is_empty()
}
