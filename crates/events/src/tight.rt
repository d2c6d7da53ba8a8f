// The bytes of the first buckets of an output, written over their events as long as each event takes four bytes: a bucket's bytes then lie just
// where its events stand, so that its events are read only once and need not be written back in order.
ghost use Rattle.std.specs.Prelude.{◌≡◌, Option, true, ◌+◌, ◌*◌, ◌≤◌, ◌<◌, length};
ghost use Rattle.events.specs.Tracks.{Timed};
ghost use Rattle.events.specs.Windows.{window_bytes, longest};
ghost use Rattle.events.specs.Bucketing.{SortRoom, BucketAsks, BucketsAsk};
ghost use Rattle.events.specs.Tight.{OneBucket, TightBucket, TightPut};

use crate::windows::Reached;
use crate::{bucketing, windows};

// Where writing has come to: the first bucket whose events still stand in the output, and how far the track has come before it.
#[derive(Drop)]
pub struct Front {
    pub bucket: usize,
    pub reached: Reached,
}

// Is each time of a bucket's events in order surely of one group? Within a bucket of at most 128 ticks it is; so only the time up to the first event
// is looked at.
fn times_short(events: &[u64], width: u32, tick: u32) -> bool
    requires { Timed longest tick events.now × (0 < length events.now) × OneBucket width events.now }
    ensures { result ≡ true → length (window_bytes tick events.now) ≤ 4 * length events.now }
{
    if 128 < width {
        return false;
    }
    windows::tick_of(events[0]) - tick < 128
}

// Writes the bytes of bucket v over its events, if they are no longer than these: else they would reach into the next bucket. Returns the tick of
// the last event then.
fn put_tight_bucket(
    out: &mut [u8],
    width: u32,
    v: usize,
    from: usize,
    upto: usize,
    a: &mut [u64],
    b: &mut [u64],
    places: &mut [u16],
    tick: u32,
) -> Option<u32>
    requires { BucketAsks width v from upto (22 + 4 * from) tick out.old × SortRoom a.old b.old places.old }
    ensures { TightBucket width v from upto tick out.old out.new result }
{
    let start = Reached {
        at: 22 + 4 * from,
        tick,
    };
    let end = 22 + 4 * upto;
    if upto <= from {
        return Some(tick);
    }
    let events = &mut a[..upto - from];
    bucketing::read_sorted(out, width, v, from, events, b, places);
    if !times_short(events, width, tick) {
        let reached = windows::window_length(events, start);
        if end < reached.at {
            return None;
        }
    }
    Some(windows::put_window(out, start, events).tick)
}

// Writes the bytes of the first buckets over their events, as long as each event takes four bytes. Returns where it has come to. The last bucket is
// left in any case, so that there is always one whose place is noted for those who go on.
pub fn put_tight(
    out: &mut [u8],
    width: u32,
    ends: &[u32],
    a: &mut [u64],
    b: &mut [u64],
    places: &mut [u16],
) -> Front
    requires { BucketsAsk width 0 22 0 ends.now out.old × (2048 ≤ length ends.now) × SortRoom a.old b.old places.old }
    ensures { TightPut width ends.now out.old out.new result.bucket result.reached.at result.reached.tick }
{
    let all = ends[2047];
    let mut bucket = 2047;
    let mut from: usize = 0;
    let mut tick: u32 = 0;
    for v in 0..2047 {
        let upto = ends[v];
        let put = put_tight_bucket(out, width, v, from, upto as usize, a, b, places, tick);
        let Some(last) = put else {
            bucket = v;
            break;
        };
        from = upto as usize;
        tick = last;
        // The buckets behind the last event are empty.
        if upto == all {
            break;
        }
    }
    let at = 22 + 4 * from;
    Front {
        bucket,
        reached: Reached { at, tick },
    }
}
