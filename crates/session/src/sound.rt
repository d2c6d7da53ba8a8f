// Question 4: is a shelf sound? One pass over the words behind the cells, one over the cells, one over the notes beside the cells.
ghost use Rattle.std.specs.Prelude.{◌≡◌, true, false, ◌&&◌, ◌*◌, ◌<◌, ◌≤◌, length};
ghost use Rattle.model.specs.Limits.{max_beats, max_delta, min_words};
ghost use Rattle.model.specs.Lists.{every};
ghost use Rattle.model.specs.Pieces.{first_beat};
ghost use Rattle.model.specs.Soundness.{sound_shelf};
ghost use Rattle.laws.specs.Chain.{cell_ok, cells_sound};
ghost use Rattle.session.specs.Checking.{notes_asked};
ghost use Rattle.session.specs.Passing.{passed_inner, passed_line, passed};
ghost use Rattle.session.specs.Sliced.{notes_of, cells_of};
ghost use Rattle.session.specs.Beside.{left_of};

use crate::beats::Divisor;
use crate::slices::{CellWords, NoteWords, fewer};
use crate::{clear, layout, neighbours, notes, rules, runs};
use model::{Header, Note};

// The cells that are left for the notes that are left.
#[derive(Clone, Copy)]
pub struct Left<'a> {
    // For the search beside the next note that touches no line.
    pub beside: &'a [CellWords],
    // For the run of the next note at a line.
    pub line: &'a [CellWords],
}

// A note that touches no line: is it clear of the pieces in its beat? The cells that are left behind it.
fn pass_inner(h: Header, n: Note, beat: u32, left: Left) -> Option<Left>
    requires { (0 < h.delta) × (beat ≡ first_beat h.delta n) }
    ensures { left_of result ≡ passed_inner h n (cells_of left.entry.beside.now) (cells_of left.entry.line.now) }
{
    let beside = clear::from_beat(left.beside, n.lane, beat);
    if !clear::is_clear_of_two(h.delta, beat, n, beside) {
        return None;
    }
    Some(Left {
        beside,
        line: left.line,
    })
}

// A note touching or crossing a line: is it the next run of the cells? The notes behind it lie behind the run, so the search beside
// them goes on there.
fn pass_line(h: Header, n: Note, left: Left) -> Option<Left>
    ensures { left_of result ≡ passed_line h n (cells_of left.entry.beside.now) (cells_of left.entry.line.now) }
{
    let line = runs::behind_run(h, n, left.line)?;
    Some(Left {
        beside: fewer(line, left.beside),
        line,
    })
}

// Does the note stand rightly beside the cells?
fn pass(h: Header, by: Divisor, n: Note, left: Left) -> Option<Left>
    requires { (by.delta ≡ h.delta) × (n.start ≤ max_beats * h.delta) }
    ensures { left_of result ≡ passed h n (cells_of left.entry.beside.now) (cells_of left.entry.line.now) }
{
    let beat = by.beat_of(n.start);
    if rules::is_inside(h.delta, beat, n) {
        return pass_inner(h, n, beat, left);
    }
    pass_line(h, n, left)
}

// What is asked of the notes beside cells that passed: ranges, order, and that they stand rightly beside them.
pub fn notes_ok(h: Header, beats: u32, notes: &[NoteWords], cells: &[CellWords]) -> bool
    requires { (0 < h.delta) × (h.delta ≤ max_delta) × (beats ≤ max_beats) × (every (cell_ok h.delta beats) (cells_of cells.now) && cells_sound h.delta (cells_of cells.now) ≡ true) }
    ensures { result ≡ notes_asked h beats (notes_of notes.now) (cells_of cells.now) }
{
    let by = Divisor::new(h.delta);
    // Every note may stand behind this one.
    let mut last = Note::default();
    let mut left = Left {
        beside: cells,
        line: cells,
    };
    for words in notes {
        let n = Note::from(*words);
        if !notes::in_order(h.delta, beats, last, n) {
            return false;
        }
        let Some(passed) = pass(h, by, n, left) else {
            return false;
        };
        last = n;
        left = passed;
    }
    runs::gives_none(h, left.line)
}

// Are the words of a shelf sound? For any words, in time linear in their number.
pub fn sound(h: Header, part: &[u32]) -> bool
    requires { (0 < h.delta) × (h.delta ≤ max_delta) × (h.epsilon ≤ h.delta) × (min_words ≤ h.words) × (length part.now ≡ h.words) }
    ensures { result ≡ sound_shelf h part.now }
{
    if !layout::layout_ok(part) {
        return false;
    }
    let beats = part[0];
    let behind_notes = 3 + 4 * (part[1] as usize);
    let end = layout::words_used(part[1], part[2]);
    let (cells, _) = part[behind_notes..end].as_chunks::<6>();
    if !neighbours::cells_ok(h.delta, beats, cells) {
        return false;
    }
    let (notes, _) = part[3..behind_notes].as_chunks::<4>();
    notes_ok(h, beats, notes, cells)
}
