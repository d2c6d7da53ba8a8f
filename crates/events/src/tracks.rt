// The track of many notes: counted, and written, window by window in the order of the file.
// The two loops stand apart as those of a window do. They count no index: a turn takes as many events as the next window holds. The starts are
// just those of the lanes: where the events of each that are left begin. Of their ends, and of room for the starts behind a window, there are as many.
ghost use Rattle.std.specs.Prelude.{◌≡◌, ◌+◌, ◌≤◌, length};
ghost use Rattle.words.specs.Splice.{splice};
ghost use Rattle.events.specs.Tracks.{track_left, track_most, events_left, TrackAsks};

use crate::windows;
use crate::windows::Reached;
use order::notes::Notes;
use order::taking;
use track::putting;

// No track of so many notes that ends at tick `end` is longer.
pub fn track_most(count: usize, end: u32) -> usize
    requires { count ≤ 1048576 }
    ensures { result ≡ track_most count end }
{
    let further = 3 + 6 * count;
    let long = (end / 128) as usize;
    4 + 8 * count + further.min(long)
}

// How many bytes the events of some lanes take, with the end of track at tick `end`.
pub fn length_left(
    notes: Notes,
    starts: &mut [u32],
    ends: &[u32],
    next: &mut [u32],
    a: &mut [u64],
    b: &mut [u64],
    places: &mut [u16],
    end: u32,
) -> usize
    requires { TrackAsks notes starts.old ends.now next.old a.old b.old places.old end × (length (track_left end 0 (events_left notes starts.old ends.now)) ≤ 4294967295) }
    ensures { result ≡ length (track_left end 0 (events_left notes.entry starts.old ends.now)) }
{
    let n = starts.len();
    let mut left = 2 * notes.count;
    let mut from: u64 = 0;
    let mut width = taking::first_width(notes.count, end);
    let mut reached = Reached { at: 0, tick: 0 };
    while 0 < left {
        let w = taking::take_window(notes, n, starts, ends, next, a, b, places, from, width);
        reached = windows::window_length(&a[..w.count], reached);
        left -= w.count;
        from += w.width;
        width = taking::next_width(w);
    }
    reached.at + putting::group_count(end - reached.tick) as usize + 3
}

// Writes the events of some lanes and the end of track at tick `end` from place `start` on. Returns the place behind them.
pub fn put_left(
    notes: Notes,
    starts: &mut [u32],
    ends: &[u32],
    next: &mut [u32],
    a: &mut [u64],
    b: &mut [u64],
    places: &mut [u16],
    end: u32,
    out: &mut [u8],
    start: usize,
) -> usize
    requires { TrackAsks notes starts.old ends.now next.old a.old b.old places.old end × (start + length (track_left end 0 (events_left notes starts.old ends.now)) ≤ length out.old) }
    ensures { (result ≡ start + length (track_left end 0 (events_left notes.entry starts.old ends.now))) × (out.new ≡ splice out.old start (track_left end 0 (events_left notes.entry starts.old ends.now))) }
{
    let n = starts.len();
    let mut left = 2 * notes.count;
    let mut from: u64 = 0;
    let mut width = taking::first_width(notes.count, end);
    let mut reached = Reached { at: start, tick: 0 };
    while 0 < left {
        let w = taking::take_window(notes, n, starts, ends, next, a, b, places, from, width);
        reached = windows::put_window(out, reached, &a[..w.count]);
        left -= w.count;
        from += w.width;
        width = taking::next_width(w);
    }
    putting::put_end(out, reached.at, end - reached.tick)
}
