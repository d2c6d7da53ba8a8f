// Reading a note and a cell, and the rules for one note of a list. δ and the beats are asked in range where products must fit, here and in the other
// files: the definitions and other functions take any, and a type that says both would ask it of those too. Words are read one by one: an array of
// them, for `From`, would be cut out first.
ghost use Rattle.std.specs.Prelude.{◌≡◌, ◌&&◌, ◌+◌, ◌≤◌, length};
ghost use Rattle.model.specs.Limits.{max_beats, max_delta, velocity_ok};
ghost use Rattle.model.specs.Soundness.{note_ok, follows};
ghost use Rattle.session.specs.Reading.{note_at, cell_at};

use crate::rules;
use model::{Cell, Header, Note};

// The note whose four words begin at place `at`.
#[tactic(auto, unfolding(crate::specs::Reading::note_at))]
pub fn note_at(s: &[u32], at: usize) -> Note
    requires { at + 4 ≤ length s.now }
    ensures { result ≡ note_at s.now at }
{
    Note {
        lane: s[at],
        start: s[at + 1],
        end: s[at + 2],
        velocity: s[at + 3],
    }
}

// The cell whose six words begin at place `at`.
#[tactic(auto, unfolding(crate::specs::Reading::cell_at))]
pub fn cell_at(s: &[u32], at: usize) -> Cell
    requires { at + 6 ≤ length s.now }
    ensures { result ≡ cell_at s.now at }
{
    Cell {
        lane: s[at],
        beat: s[at + 1],
        side: s[at + 2],
        before: s[at + 3],
        after: s[at + 4],
        velocity: s[at + 5],
    }
}

// Is the word a velocity of the lane?
#[tactic(auto, unfolding(model::specs::Limits::velocity_ok))]
pub fn velocity_ok(lane: u32, word: u32) -> bool
    ensures { result ≡ velocity_ok lane word }
{
    1 <= word && word <= 127
}

// Is the note in range in a take of so many beats?
#[tactic(auto, unfolding(model::specs::Soundness::note_ok))]
pub fn note_ok(delta: u32, beats: u32, n: Note) -> bool
    requires { (delta ≤ max_delta) × (beats ≤ max_beats) }
    ensures { result ≡ note_ok delta beats n }
{
    n.lane < Header::LANES
        && n.start < n.end
        && n.end <= beats * delta
        && velocity_ok(n.lane, n.velocity)
}

// May n stand behind m: in a later lane, or in m's lane from m's end on? One comparison, since where a lane ends can't be foreseen.
pub fn note_follows(m: Note, n: Note) -> bool
    ensures { result ≡ follows m n }
{
    rules::lane_order(m.lane, m.end) <= rules::lane_order(n.lane, n.start)
}

// What is asked of a note by itself and behind the note before it.
pub(crate) fn in_order(delta: u32, beats: u32, last: Note, n: Note) -> bool
    requires { (delta ≤ max_delta) × (beats ≤ max_beats) }
    ensures { result ≡ (note_ok delta beats n && follows last n) }
{
    note_ok(delta, beats, n) && note_follows(last, n)
}
