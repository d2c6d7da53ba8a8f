// Lay: a lent note list becomes a recording in a shelf.
ghost use Rattle.std.specs.Prelude.{◌≡◌, ◌≤◌, ◌<◌};
ghost use Rattle.words.specs.Splice.{splice};
ghost use Rattle.model.specs.Limits.{max_delta};
ghost use Rattle.model.specs.Session.{shelf_at};
ghost use Rattle.model.specs.Machine.{lay_call};
ghost use Rattle.model.specs.Numbers.{answer_of, answer_number};
ghost use Rattle.model.specs.Questions.{number, after};
ghost use Rattle.session.specs.Listing.{count_words};
ghost use Rattle.beat.specs.Laying.{recording_asked, laid_words, LayAsks};

use crate::cells;
use model::Header;
use model::questions::Question;
use session::{header, list, room, shelf};

// Questions 6 and 7: how many cells the list's notes have, or the first that is answered no.
fn asked(h: Header, beats: u32, notes: &[u32]) -> Result<u64, Question>
    requires { (0 < h.delta) × (h.delta ≤ max_delta) }
    ensures { answer_of count_words result ≡ recording_asked h beats notes.now }
{
    if Header::BEATS < beats {
        return Err(Question::BeatsFew);
    }
    list::check_list(h, beats, notes)
}

// The notes copied, their cells behind them, the counts ahead and zeros to the shelf's end.
fn put_list(s: &mut [u32], h: Header, shelf: u32, beats: u32, notes: &[u32], cells: u32)
    requires { LayAsks s.old h shelf beats notes.now cells }
    ensures { s.new ≡ splice s.old (shelf_at h shelf) (laid_words h beats notes.now) }
{
    let at = header::shelf_at(h, shelf);
    let count = notes.len() / 4;
    words::copy_from(s, at + 3, notes);
    cells::put_cells(s, at + 3, count, h.delta);
    shelf::put_frame(s, at, h.words as usize, beats, count as u32, cells);
}

// Lays a note list of so many beats in a shelf, with all its cells. Refuses with the first question that is answered no.
pub fn take_lay(session: &mut [u32], shelf: u32, beats: u32, notes: &[u32]) -> Result<(), Question>
    ensures number { answer_number result ≡ number session.old (lay_call shelf beats notes.now) }
    ensures words { session.new ≡ after session.old (lay_call shelf beats notes.now) }
{
    let header = header::enter(session, shelf)?;
    let cells = asked(header, beats, notes)?;
    let count = (notes.len() / 4) as u64;
    if !room::fits(header.words, count, cells) {
        return Err(Question::ResultFits);
    }
    put_list(session, header, shelf, beats, notes, cells as u32);
    Ok(())
}
