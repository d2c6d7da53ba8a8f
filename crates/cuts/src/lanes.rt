// The notes of a join, written lane by lane: the first take's, the note that goes over the line, the second's.
ghost use Rattle.std.specs.Prelude.{◌≡◌, ◌+◌, ◌*◌, ◌≤◌, length};
ghost use Rattle.cuts.specs.Halving.{Noted};
ghost use Rattle.cuts.specs.Seams.{lane_by, lane_notes};
ghost use Rattle.cuts.specs.LaneNotes.{SeamAsks, kept_by, SeamPut, seam_end, BackFrom, Joinable, FirstPut, LanePut, JoinNotesAsks, lane_joined, lanes_joined};

use crate::halves::Contents;
use crate::lasts::LastNotes;
use crate::lines::Line;
use crate::seam;
use crate::seam::Seam;
use model::Header;
use session::notes;

// ---- the seam of a lane

// The seam of a lane, if a note goes over the line. Of the first take, all but `rest` is read.
fn seam_of(
    s: &[u32],
    at: Line,
    lane: u32,
    first: Contents,
    rest: Contents,
    second: Contents,
) -> Option<Seam>
    requires { SeamAsks s.now at.h at.beats at.tick lane first rest.notes.left rest.cells.left second }
    ensures { lane_joined at.h at.beats lane s.now first second ≡ lane_by result at.tick (lane_notes lane s.now first) (lane_notes lane s.now second) }
{
    if rest.cells.left == first.cells.left {
        return None;
    }
    if second.cells.left == 0 {
        return None;
    }
    let d = notes::cell_at(s, second.cells.place());
    if d.lane != lane {
        return None;
    }
    let c = notes::cell_at(s, first.cells.end - 6 * (rest.cells.left + 1));
    if !seam::bound_over(at.h, at.beats, c, d) {
        return None;
    }
    Some(seam::seam_over(
        s,
        at.h,
        at.tick,
        c,
        d,
        first.notes,
        rest.notes,
        second.notes,
    ))
}

// How many of so many notes stay in front of the note that goes over the line.
fn kept_notes(seam: Seam, count: usize) -> usize
    ensures { result ≡ kept_by seam count }
{
    if seam.held {
        return count.saturating_sub(1);
    }
    count
}

// The note that goes over the line, if one does, behind so many notes from place `to` on, which stand in the session that is written. Returns the
// place behind it.
fn put_seam(s: &mut [u32], to: usize, count: usize, seam: Option<Seam>) -> usize
    requires { (to + 4 * count ≤ length s.old) × (to + 4 * seam_end seam count ≤ length s.old) }
    ensures { SeamPut s.old to count seam s.new result }
{
    let Some(over) = seam else {
        return to + 4 * count;
    };
    let at = to + 4 * kept_notes(over, count);
    words::put(s, at, over.note.into());
    at + 4
}

// The last notes from where those of a lane behind its seam begin.
fn behind_seam(s: &[u32], seam: Option<Seam>, lane: u32, from: LastNotes) -> LastNotes
    requires { from.end ≤ length s.now }
    ensures back { BackFrom s.now seam lane from.end from.left result.left }
    ensures end_is { result.end ≡ from.end }
{
    let Some(over) = seam else {
        return from;
    };
    if !over.skipped {
        return from;
    }
    if from.left == 0 {
        return from;
    }
    let n = notes::note_at(s, from.place());
    if n.lane != lane {
        return from;
    }
    from.keep(from.left - 1)
}

// ---- a lane

// What the first take has in a lane is written up to place `at`, with the note that goes over the line: this is left of the take.
#[derive(Drop)]
pub struct Front {
    pub at: usize,
    pub rest: Contents,
    pub seam: Option<Seam>,
}

// The first take's notes of a lane, and the note that goes over the line.
fn put_front(
    s: &mut [u32],
    to: usize,
    line: Line,
    lane: u32,
    first: Contents,
    second: Contents,
) -> Front
    requires { Joinable s.old to line.h line.beats line.tick first second (lane_joined line.h line.beats lane s.old first second) }
    ensures { FirstPut s.old to line.h line.beats line.tick lane first second s.new result }
{
    let notes = seam::put_note_run(s, to, lane, 0, first.notes);
    let cells = seam::behind_cell_run(s, first.cells, lane);
    let rest = Contents { notes, cells };
    let seam = seam_of(s, line, lane, first, rest, second);
    let at = put_seam(s, to, first.notes.left - notes.left, seam);
    Front { at, rest, seam }
}

// The joined notes are written up to place `at`, and this is left of both takes.
#[derive(Drop)]
pub struct Rests {
    pub at: usize,
    pub first: Contents,
    pub second: Contents,
}

// The joined notes of a lane that stands in front of what is left of both takes.
fn put_lane(s: &mut [u32], line: Line, lane: u32, from: Rests) -> Rests
    requires { Joinable s.old from.at line.h line.beats line.tick from.first from.second (lane_joined line.h line.beats lane s.old from.first from.second) }
    ensures { LanePut s.old from.at line.h line.beats lane from.first from.second s.new result }
{
    let front = put_front(s, from.at, line, lane, from.first, from.second);
    let behind = behind_seam(s, front.seam, lane, from.second.notes);
    let notes = seam::put_note_run(s, front.at, lane, line.tick, behind);
    let cells = seam::behind_cell_run(s, from.second.cells, lane);
    Rests {
        at: front.at + 4 * (behind.left - notes.left),
        first: front.rest,
        second: Contents { notes, cells },
    }
}

// ---- all lanes

// The notes of two takes joined: so many beats has the first. Returns the place behind them.
pub fn put_joined_notes(
    s: &mut [u32],
    to: usize,
    h: Header,
    beats: u32,
    first: Contents,
    second: Contents,
) -> usize
    requires { JoinNotesAsks s.old to h beats first second }
    ensures { Noted s.old to (lanes_joined h beats s.old first second) s.new result }
{
    let line = Line {
        h,
        beats,
        tick: beats * h.delta,
    };
    let mut rests = Rests {
        at: to,
        first,
        second,
    };
    let mut lane = seam::least_lane(s, first, second);
    // No `for`: each turn goes to the next lane that has a note or a cell, which shows only when the lane before it is written.
    while lane < Header::LANES {
        rests = put_lane(s, line, lane, rests);
        lane = seam::least_lane(s, rests.first, rests.second);
    }
    rests.at
}
