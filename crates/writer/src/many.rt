// The file of many notes: their events are taken from the lanes window by window.
ghost use Rattle.std.specs.Prelude.{◌≡◌, leb, length};
ghost use Rattle.writer.specs.Files.{Room, length_in, output_of};
ghost use Rattle.writer.specs.Takes.{file};

use crate::files;
use crate::take::Take;
use events::tracks;

// Does the file fit so many bytes? Its events are counted only where the bound of its track does not show it.
fn fits(
    take: Take,
    starts: &mut [u32],
    ends: &mut [u32],
    next: &mut [u32],
    a: &mut [u64],
    b: &mut [u64],
    places: &mut [u16],
    room: usize,
) -> bool
    requires { Room starts.old ends.old next.old a.old b.old places.old }
    ensures { result ≡ leb (length (file take.entry)) room }
{
    let end = take.end();
    if 22 + tracks::track_most(take.notes.count, end) <= room {
        return true;
    }
    let n = order::runs(take.notes, starts, ends);
    let starts = &mut starts[..n];
    let ends = &ends[..n];
    let next = &mut next[..n];
    let length = tracks::length_left(take.notes, starts, ends, next, a, b, places, end);
    22 + length <= room
}

// The file of a take, if it fits the output. Returns its length.
pub fn put_many(
    take: Take,
    starts: &mut [u32],
    ends: &mut [u32],
    next: &mut [u32],
    a: &mut [u64],
    b: &mut [u64],
    places: &mut [u16],
    out: &mut [u8],
) -> Option<usize>
    requires { Room starts.old ends.old next.old a.old b.old places.old }
    ensures { (result ≡ length_in (file take.entry) out.old) × (out.new ≡ output_of (file take.entry) out.old) }
{
    if !fits(take, starts, ends, next, a, b, places, out.len()) {
        return None;
    }
    let end = take.end();
    let n = order::runs(take.notes, starts, ends);
    let starts = &mut starts[..n];
    let ends = &ends[..n];
    let next = &mut next[..n];
    let behind = tracks::put_left(take.notes, starts, ends, next, a, b, places, end, out, 22);
    files::put_header(out, take.delta, (behind - 22) as u32);
    Some(behind)
}
