// Notes and cells in words, as slices of arrays: the library cuts the words of a shelf into them.
ghost use Rattle.std.specs.Prelude.{◌≡◌, ℕ, Bool, List};
ghost use Rattle.std.specs.Borrow.{Bor};
ghost use Rattle.model.specs.declared.Cell.{Cell};
ghost use Rattle.session.specs.Passing.{fewer};
ghost use Rattle.session.specs.Running.{from_first};
ghost use Rattle.session.specs.Sliced.{cells_of, first_cell};

use model::Cell;

// The words of a note.
pub type NoteWords = [u32; 4];

// The words of a cell.
pub type CellWords = [u32; 6];

// The first cell and those behind it; none if there is none.
#[tactic(auto, unfolding(crate::specs::Reading::cell_at))]
pub(crate) fn first_cell(cells: &[CellWords]) -> Option<(Cell, &[CellWords])>
    ensures { cells_of cells.now ≡ first_cell result }
{
    let (words, behind) = cells.split_first()?;
    Some((Cell::from(*words), behind))
}

// The cells from the first one on at which the test holds, or none. The test is given the cells behind each cell too, which that of `position` is not:
// so this is a loop over what is left.
pub(crate) fn from_first<'a, F: Fn(Cell, &'a [CellWords]) -> bool>(
    cells: &'a [CellWords],
    test: F,
) -> &'a [CellWords]
    requires { F.IsAlwaysCallable test }
    ensures { (p : Cell → List Cell → Bool) → ((c : Cell) (behind : Bor (List (List ℕ))) (r : Bool) → F.post test c behind r → r ≡ p c (cells_of behind.now)) → cells_of result.now ≡ from_first p (cells_of cells.now) }
{
    let mut left = cells;
    while let Some((c, behind)) = first_cell(left) {
        if test(c, behind) {
            return left;
        }
        left = behind;
    }
    left
}

// These cells, if they are fewer than the others; else the others. The library's `min_by_key` is no plainer here, and with it no edit can be wrong just
// where these are fewer.
pub(crate) fn fewer<'a>(cells: &'a [CellWords], others: &'a [CellWords]) -> &'a [CellWords]
    ensures { cells_of result.now ≡ fewer (cells_of cells.now) (cells_of others.now) }
{
    if cells.len() < others.len() {
        return cells;
    }
    others
}
