// Times and events of a track, written into an output.
ghost use Rattle.std.specs.Prelude.{◌≡◌, ◌++◌, ◌+◌, ◌≤◌, ◌<◌, length};
ghost use Rattle.words.specs.Splice.{splice};
ghost use Rattle.midi.specs.Numbers.{quantity_bytes};
ghost use Rattle.midi.specs.Writing.{message_bytes, end_of_track};
ghost use Rattle.track.specs.Keys.{event_of};

// How many groups of seven bits a time takes: the fewest. Most times take one.
pub fn group_count(x: u32) -> u32
    requires { x < 268435456 }
    ensures { result ≡ length (quantity_bytes x) }
{
    if x < 128 {
        return 1;
    }
    (38 - u32::leading_zeros(x)) / 7
}

// Writes a time in the fewest groups from place `at` on. Returns the place behind it.
pub fn put_quantity(out: &mut [u8], at: usize, x: u32) -> usize
    requires { (x < 268435456) × (at + length (quantity_bytes x) ≤ length out.old) }
    ensures { (result ≡ at + length (quantity_bytes x)) × (out.new ≡ splice out.old at (quantity_bytes x)) }
{
    let groups = group_count(x);
    let last = (x % 128) as u8;
    if groups == 1 {
        out[at] = last;
        return at + 1;
    }
    let third = (128 + x / 128 % 128) as u8;
    if groups == 2 {
        words::put(out, at, [third, last]);
        return at + 2;
    }
    let second = (128 + x / 16384 % 128) as u8;
    if groups == 3 {
        words::put(out, at, [second, third, last]);
        return at + 3;
    }
    words::put(out, at, [(128 + x / 2097152) as u8, second, third, last]);
    at + 4
}

// Writes an event's three bytes from place `at` on; its number has kind, lane and velocity.
pub fn put_message(out: &mut [u8], at: usize, event: u64)
    requires { at + 3 ≤ length out.old }
    ensures { out.new ≡ splice out.old at (message_bytes (event_of event)) }
{
    let status = 128 + event / 262144 % 2 * 16 + event / 16384 % 16;
    words::put(
        out,
        at,
        [status as u8, (event / 128 % 128) as u8, (event % 128) as u8],
    );
}

// Writes an event behind its time from place `at` on. Returns the place behind it.
pub fn put_event(out: &mut [u8], at: usize, time: u32, event: u64) -> usize
    requires { (time < 268435456) × (at + length (quantity_bytes time) + 3 ≤ length out.old) }
    ensures { (result ≡ at + length (quantity_bytes time) + 3) × (out.new ≡ splice out.old at (quantity_bytes time ++ message_bytes (event_of event))) }
{
    let p = put_quantity(out, at, time);
    put_message(out, p, event);
    p + 3
}

// Writes the end of track behind its time from place `at` on. Returns the place behind it. One function with the one above would take the three bytes,
// which `put_message` computes from an event where it writes them, and is no plainer.
pub fn put_end(out: &mut [u8], at: usize, time: u32) -> usize
    requires { (time < 268435456) × (at + length (quantity_bytes time) + 3 ≤ length out.old) }
    ensures { (result ≡ at + length (quantity_bytes time) + 3) × (out.new ≡ splice out.old at (quantity_bytes time ++ end_of_track)) }
{
    let p = put_quantity(out, at, time);
    words::put(out, p, [255, 47, 0]);
    p + 3
}
