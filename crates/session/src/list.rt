// Question 7: the check of a lent note list.
ghost use Rattle.std.specs.Prelude.{◌≡◌, ◌≤◌, ◌<◌};
ghost use Rattle.model.specs.Limits.{max_beats, max_delta};
ghost use Rattle.model.specs.Numbers.{answer_of};
ghost use Rattle.session.specs.Listing.{count_words, list_asked};

use crate::beats::Divisor;
use crate::notes;
use model::questions::Question;
use model::{Header, Note};

// Are they whole notes, in range, in order and without overlap in a lane? One pass, which also counts their cells.
pub fn check_list(h: Header, beats: u32, list: &[u32]) -> Result<u64, Question>
    requires { (0 < h.delta) × (h.delta ≤ max_delta) × (beats ≤ max_beats) }
    ensures { answer_of count_words result ≡ list_asked h beats list.now }
{
    let (notes, rest) = list.as_chunks::<4>();
    if !rest.is_empty() {
        return Err(Question::ListInOrder);
    }
    let by = Divisor::new(h.delta);
    // Every note may stand behind this one.
    let mut last = Note::default();
    let mut cells: u64 = 0;
    for words in notes {
        let note = Note::from(*words);
        if !notes::in_order(h.delta, beats, last, note) {
            return Err(Question::ListInOrder);
        }
        cells += by.cell_count(note) as u64;
        last = note;
    }
    Ok(cells)
}
