// Load: a file's notes are laid.
ghost use Rattle.std.specs.Prelude.{◌≡◌};
ghost use Rattle.model.specs.Numbers.{answer_number};
ghost use Rattle.midi.specs.Reading.{read_track};
ghost use Rattle.file.specs.Calls.{loaded, load_number, load_after};
ghost use Rattle.file.specs.Loading.{read_number, read_after, ShelfAsks, RecordingAsks};

use beat::cells;
use model::Header;
use model::questions::Question;
use reader::{chunks, counting, placing};
use session::{header, room, shelf};

// A recording that fits is laid: its notes, read again, each at its place; their cells behind them, the counts ahead and zeros to the shelf's end.
fn put_recording(
    s: &mut [u32],
    h: Header,
    shelf: u32,
    track: &[u8],
    counts: &mut [u32],
    beats: u32,
    notes: u32,
    cells: u32,
)
    requires { RecordingAsks s.old h shelf track.now counts.old beats notes cells }
    ensures { s.new ≡ loaded h s.old shelf (read_track h.delta track.now) }
{
    placing::first_places(counts);
    placing::put_notes(s, h, shelf, track, counts);
    let at = header::shelf_at(h, shelf);
    cells::put_cells(s, at + 3, notes as usize, h.delta);
    shelf::put_frame(s, at, h.words as usize, beats, notes, cells);
}

// Questions 12 to 14 and 8 of a track; if all are answered yes, its recording is laid.
#[tactic(auto, using(crate::proofs::Loads::times, crate::proofs::Loads::few_words, crate::proofs::Loads::track_room, crate::proofs::Loads::track_asks))]
fn load_track(s: &mut [u32], h: Header, shelf: u32, track: &[u8]) -> Result<(), Question>
    requires { ShelfAsks s.old h shelf }
    ensures number { answer_number result ≡ read_number h (read_track h.delta track.now) }
    ensures words { s.new ≡ read_after h s.old shelf (read_track h.delta track.now) }
{
    let mut counts = [0u32; 2048];
    // A refusal is passed on by a `match`, and no `?`, so that an edit can turn it alone.
    let counted = match counting::count_track(track, h.delta, &mut counts) {
        Ok(counted) => counted,
        Err(question) => return Err(question),
    };
    if !room::fits(h.words, counted.notes, counted.cells) {
        return Err(Question::ResultFits);
    }
    let notes = counted.notes as u32;
    let cells = counted.cells as u32;
    put_recording(s, h, shelf, track, &mut counts, counted.beats, notes, cells);
    Ok(())
}

// Loads a file in a shelf: its notes are laid. Refuses with the first question that is answered no.
#[tactic(auto, using(crate::proofs::Loads::track_inside))]
pub fn take_load(session: &mut [u32], shelf: u32, file: &[u8]) -> Result<(), Question>
    ensures number { answer_number result ≡ load_number session.old shelf file.now }
    ensures words { session.new ≡ load_after session.old shelf file.now }
{
    let header = header::enter(session, shelf)?;
    let track = chunks::track_in(header.delta, file)?;
    load_track(session, header, shelf, &file[track.at..track.end])
}
