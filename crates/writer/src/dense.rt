// The file of many notes within few ticks: their events go straight to their places.
ghost use Rattle.std.specs.Prelude.{◌*◌, ◌≤◌};
ghost use Rattle.writer.specs.Files.{Tried};
ghost use Rattle.writer.specs.Takes.{file};

use crate::files;
use crate::take::Take;
use track::putting;

// The file of a take. Returns its length; or nothing, with the output as it was, if it does not fit or has a time of two bytes.
pub fn put_dense(take: Take, out: &mut [u8]) -> Option<usize>
    requires { take.beats * take.delta ≤ 1023 }
    ensures { Tried result (file take.entry) out.old out.new }
{
    let count = take.notes.count;
    let mut places = [0u32; 2048];
    let ticks = ranks::plan(take.notes, &mut places);
    if 127 < ticks.longest {
        return None;
    }
    let time = take.end() - ticks.last;
    let length = 22 + 8 * count + putting::group_count(time) as usize + 3;
    if out.len() < length {
        return None;
    }
    ranks::put_events(take.notes, &mut places, out);
    putting::put_end(out, 22 + 8 * count, time);
    files::put_header(out, take.delta, (length - 22) as u32);
    Some(length)
}
