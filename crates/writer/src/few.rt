// The file of few notes: all their events stand in one table, and are put in order there. That they are few is found by a test in `files`; a type for
// it would stand beside `Take` for three functions.
ghost use Rattle.std.specs.Prelude.{◌≡◌, ◌+◌, ◌*◌, ◌≤◌, leb, length};
ghost use Rattle.words.specs.Splice.{splice};
ghost use Rattle.radix.specs.Sort.{sort};
ghost use Rattle.order.specs.Notes.{events_of};
ghost use Rattle.events.specs.Tracks.{track_left};
ghost use Rattle.events.specs.Windows.{TableAsks};
ghost use Rattle.writer.specs.Files.{length_in, output_of};
ghost use Rattle.writer.specs.Takes.{file};

use crate::files;
use crate::take::Take;
use events::windows::Reached;
use events::{tracks, windows};
use track::putting;

// Does the file of these events fit so many bytes? They are counted only where the bound of their track does not show it. The test in `many` asks
// the same bound, and then counts lanes window by window: one for both would take a closure that counts, and say its six tables again.
fn fits(events: &[u64], end: u32, room: usize) -> bool
    requires { TableAsks events.now end }
    ensures { result ≡ leb (22 + length (track_left end 0 events.now)) room }
{
    if 22 + tracks::track_most(events.len() / 2, end) <= room {
        return true;
    }
    let reached = windows::window_length(events, Reached { at: 22, tick: 0 });
    reached.at + putting::group_count(end - reached.tick) as usize + 3 <= room
}

// Writes these events and the end of track behind 22 bytes. Returns the place behind them.
fn put_track(out: &mut [u8], events: &[u64], end: u32) -> usize
    requires { TableAsks events.now end × (22 + length (track_left end 0 events.now) ≤ length out.old) }
    ensures { (result ≡ 22 + length (track_left end 0 events.now)) × (out.new ≡ splice out.old 22 (track_left end 0 events.now)) }
{
    let reached = windows::put_window(out, Reached { at: 22, tick: 0 }, events);
    putting::put_end(out, reached.at, end - reached.tick)
}

// The tables in which few events are put in order: as one value, so that they share their place on the stack with the tables of many.
#[derive(Drop)]
struct Room {
    a: [u64; 2048],
    b: [u64; 2048],
    places: [u16; 2048],
}

// Puts the events of the notes in order into a list just as long; b and places are room to work in.
fn put_sorted(take: Take, events: &mut [u64], b: &mut [u64], places: &mut [u16])
    requires few { (take.notes.count ≤ 1024) × (take.beats * take.delta ≤ 2097151) }
    requires room { (length events.old ≡ 2 * take.notes.count) × (length events.old ≤ length b.old) × (2048 ≤ length places.old) }
    ensures { events.new ≡ sort (events_of take.entry.notes) }
{
    order::put_all(take.notes, events);
    radix::sort(events, b, places, 0, 2 * (take.end() as u64) + 2);
}

// The file of a take, if it fits the output, with tables that are lent. Returns its length.
fn put_lent(
    take: Take,
    a: &mut [u64; 2048],
    b: &mut [u64; 2048],
    places: &mut [u16; 2048],
    out: &mut [u8],
) -> Option<usize>
    requires { (take.notes.count ≤ 1024) × (take.beats * take.delta ≤ 2097151) }
    ensures { (result ≡ length_in (file take.entry) out.old) × (out.new ≡ output_of (file take.entry) out.old) }
{
    let end = take.end();
    let events = &mut a[..2 * take.notes.count];
    put_sorted(take, events, b, places);
    if !fits(events, end, out.len()) {
        return None;
    }
    let behind = put_track(out, events, end);
    files::put_header(out, take.delta, (behind - 22) as u32);
    Some(behind)
}

// The file of a take, if it fits the output. Returns its length.
pub fn put_few(take: Take, out: &mut [u8]) -> Option<usize>
    requires { (take.notes.count ≤ 1024) × (take.beats * take.delta ≤ 2097151) }
    ensures { (result ≡ length_in (file take.entry) out.old) × (out.new ≡ output_of (file take.entry) out.old) }
{
    let mut room = Room {
        a: [0; 2048],
        b: [0; 2048],
        places: [0; 2048],
    };
    put_lent(take, &mut room.a, &mut room.b, &mut room.places, out)
}
