// The events of a take's notes in the order of the file: by tick, ends before starts, then by lane. An event is one number with that order.
// Each lane's events are in order already, so that those of a window of time are the first ones of each lane.
#![tactic(auto)]

ghost use Rattle.std.specs.Prelude.{◌≡◌, ◌*◌, ◌≤◌, ◌<◌, length, take};
ghost use Rattle.order.specs.Events.{event, velocity_of, Ordered};
ghost use Rattle.order.specs.Notes.{events_of};
ghost use Rattle.order.specs.Runs.{Run, Split};

pub mod lanes;
pub mod notes;
pub mod taking;
pub mod windows;

use notes::Notes;

// An event's number: kind 0 is an end, 1 a start. It is computed from the kind's number, so that no branch waits for the kind.
fn number(tick: u32, kind: u64, lane: u32, velocity: u32) -> u64
    requires { kind < 2 }
    ensures { result ≡ event tick kind lane velocity }
{
    tick as u64 * 524288 + kind * 262144 + lane as u64 * 128 + velocity as u64
}

// The velocity of an event: a start, at an even place, has its note's, an end 64.
fn velocity_at(odd: usize, velocity: u32) -> u32
    ensures { result ≡ velocity_of odd velocity }
{
    if odd == 0 { velocity } else { 64 }
}

// Writes the events of all notes, each note's start and then its end.
pub fn put_all(notes: Notes, a: &mut [u64])
    requires { 2 * notes.count ≤ length a.old }
    ensures { take (2 * notes.entry.count) a.new ≡ events_of notes.entry }
{
    let events = &mut a[..2 * notes.count];
    for (e, event) in events.iter_mut().enumerate() {
        *event = notes.event_at(e);
    }
}

// The first note from a note on that is not of the lane.
fn run_end(notes: Notes, from: usize, lane: usize) -> usize
    requires { from ≤ notes.count }
    ensures { Run notes.entry.words.now notes.entry.count from lane result }
{
    for i in from..notes.count {
        if notes.words[4 * i] as usize != lane {
            return i;
        }
    }
    notes.count
}

// Where the events of each lane that has notes begin and end, in the order of the lanes. Returns how many lanes these are. Each turn passes all notes
// of a lane: a `for` over the notes would have to tell in each whether it is the first or the last of its lane, and is no plainer.
pub fn runs(notes: Notes, starts: &mut [u32], ends: &mut [u32]) -> usize
    requires { Ordered notes.words.now notes.count × (2048 ≤ length starts.old) × (2048 ≤ length ends.old) }
    ensures { Split notes.entry.words.now notes.entry.count starts.new ends.new result × (result ≤ 2048) }
{
    let mut i: usize = 0;
    let mut l: usize = 0;
    while i < notes.count {
        let r = run_end(notes, i, notes.words[4 * i] as usize);
        starts[l] = (2 * i) as u32;
        ends[l] = (2 * r) as u32;
        i = r;
        l += 1;
    }
    l
}
