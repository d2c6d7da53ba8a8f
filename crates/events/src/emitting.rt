// The bytes of events that stand in an output bucket by bucket, written over them.
ghost use Rattle.std.specs.Prelude.{◌≡◌, ◌<◌, length, get_or};
ghost use Rattle.words.specs.Splice.{splice};
ghost use Rattle.events.specs.Windows.{window_bytes};
ghost use Rattle.events.specs.Emitting.{start_of, events_of, events_to, Tables, Bounds, Noted, Ahead, BucketAhead};

use crate::windows::Reached;
use crate::{stored, windows};

// Where the events of a bucket begin: where those of the bucket before it end.
pub fn bucket_start(ends: &[u32], v: usize) -> usize
    requires { v < length ends.now }
    ensures { result ≡ start_of ends.now v }
{
    if v == 0 { 0 } else { ends[v - 1] as usize }
}

// Writes the bytes of bucket v to their place.
fn put_bucket(
    out: &mut [u8],
    v: usize,
    width: u32,
    ends: &[u32],
    a: &mut [u64],
    starts: &[u32],
    ticks: &[u32],
)
    requires { Tables ends.now a.old starts.now ticks.now × Bounds width ends.now × BucketAhead width v ends.now out.old starts.now ticks.now }
    ensures { out.new ≡ splice out.old (get_or starts.now v 0) (window_bytes (get_or ticks.now v 0) (events_of width ends.now out.old v)) }
{
    let from = bucket_start(ends, v);
    let upto = ends[v] as usize;
    let events = &mut a[..upto - from];
    stored::read_bucket(out, from, v as u64 * width as u64 * 524288, events);
    let reached = Reached {
        at: starts[v] as usize,
        tick: ticks[v],
    };
    windows::put_window(out, reached, events);
}

// Writes the bytes of each bucket from `first` on to their place, the last bucket first: they start behind all events of earlier buckets.
pub fn put_buckets(
    out: &mut [u8],
    width: u32,
    first: usize,
    ends: &[u32],
    a: &mut [u64],
    starts: &[u32],
    ticks: &[u32],
)
    requires { (first < 2048) × Tables ends.now a.old starts.now ticks.now × Bounds width ends.now × Noted width first (get_or starts.now first 0) (get_or ticks.now first 0) ends.now out.old starts.now ticks.now × Ahead width first (get_or starts.now first 0) (get_or ticks.now first 0) 2048 ends.now out.old }
    ensures { out.new ≡ splice out.old (get_or starts.now first 0) (window_bytes (get_or ticks.now first 0) (events_to width ends.now out.old first 2048)) }
{
    for v in (first..2048).rev() {
        put_bucket(out, v, width, ends, a, starts, ticks);
    }
}
