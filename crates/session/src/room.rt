// Question 8: the room of a shelf.
ghost use Rattle.std.specs.Prelude.{◌≡◌, ◌≤◌, leb};
ghost use Rattle.model.specs.Limits.{max_words};
ghost use Rattle.model.specs.Takes.{words_used};

use crate::layout;

// Do the three counts, so many notes and so many cells fit a shelf of so many words?
pub fn fits(shelf_words: u32, notes: u64, cells: u64) -> bool
    requires { shelf_words ≤ max_words }
    ensures { result ≡ leb (words_used notes cells) shelf_words }
{
    let room = shelf_words as u64;
    notes <= room
        && cells <= room
        && layout::words_used(notes as u32, cells as u32) <= shelf_words as usize
}
