// The file of a take, written into an output that it fits.
ghost use Rattle.std.specs.Prelude.{◌≡◌, ◌≤◌, length};
ghost use Rattle.words.specs.Splice.{splice};
ghost use Rattle.model.specs.Limits.{max_delta};
ghost use Rattle.midi.specs.Writing.{header_bytes};
ghost use Rattle.writer.specs.Files.{PartAsks, file_in, length_in, output_of};
ghost use Rattle.writer.specs.Takes.{file};

use crate::tables::Tables;
use crate::take::Take;
use crate::{dense, few, many, wide};
use model::Header;
use order::notes::Notes;
use session::beats::Divisor;
use track::bytes;

// MThd of length 6, format 0, one track, division δ; MTrk with the length of the track.
pub fn put_header(out: &mut [u8], delta: u32, size: u32)
    requires { (delta ≤ max_delta) × (22 ≤ length out.old) }
    ensures { out.new ≡ splice out.old 0 (header_bytes delta size) }
{
    bytes::put_word32(out, 0, bytes::MTHD);
    bytes::put_word32(out, 4, 6);
    bytes::put_word16(out, 8, 0);
    bytes::put_word16(out, 10, 1);
    bytes::put_word16(out, 12, delta);
    bytes::put_word32(out, 14, bytes::MTRK);
    bytes::put_word32(out, 18, size);
}

// The file of a take, if it fits the output. Returns its length. The events are taken window by window, or where the lanes are many, bucket by
// bucket in the output itself. The tables are lent to the way that is taken.
fn put_lent(take: Take, tables: &mut Tables, out: &mut [u8]) -> Option<usize>
    ensures { (result ≡ length_in (file take.entry) out.old) × (out.new ≡ output_of (file take.entry) out.old) }
{
    let Tables {
        starts,
        ends,
        next,
        a,
        b,
        places,
        ..
    } = tables;
    if let Some(ticks) = wide::bucket_ticks(take.notes, take.end(), out.len()) {
        let width = Divisor::new(ticks);
        if buckets::plan(take.notes, width, ends) {
            return Some(wide::put_wide(take, width, starts, ends, next, a, b, places, out));
        }
    }
    many::put_many(take, starts, ends, next, a, b, places, out)
}

// The file of a take, if it fits the output. Returns its length. Both ways of writing it work in the same tables, which are made here, so that they
// stand on the stack once.
fn put_long_file(take: Take, out: &mut [u8]) -> Option<usize>
    ensures { (result ≡ length_in (file take.entry) out.old) × (out.new ≡ output_of (file take.entry) out.old) }
{
    put_lent(take, &mut Tables::new(), out)
}

// The file of a take, if it fits the output. Returns its length. The events of few notes stand in one table, which is less to clear than the tables
// for many; those of many notes within few ticks are not put in order at all.
pub fn put_file(take: Take, out: &mut [u8]) -> Option<usize>
    ensures { (result ≡ length_in (file take.entry) out.old) × (out.new ≡ output_of (file take.entry) out.old) }
{
    let end = take.end();
    if take.notes.count <= 1024 && end <= 2097151 {
        return few::put_few(take, out);
    }
    if end <= 1023 {
        if let Some(length) = dense::put_dense(take, out) {
            return Some(length);
        }
    }
    put_long_file(take, out)
}

// The file of a sound shelf's words, if it fits the output. Returns its length.
pub fn put_shelf_file(h: Header, part: &[u32], out: &mut [u8]) -> Option<usize>
    requires { PartAsks h part.now }
    ensures { (result ≡ length_in (file_in h part.now) out.old) × (out.new ≡ output_of (file_in h part.now) out.old) }
{
    let notes = Notes {
        words: &part[3..],
        count: part[1] as usize,
    };
    let take = Take {
        notes,
        delta: h.delta,
        beats: part[0],
    };
    put_file(take, out)
}
