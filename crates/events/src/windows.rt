// A window of a track: some of its events, in order, one after the other. Counted, and written.
// The two loops stand apart: one function over both would take a closure that counts or writes, and what the closure does to the output over several
// events would have to be a relation of its states, which says less plainly what these two contracts say.
ghost use Rattle.std.specs.Prelude.{◌≡◌, ◌+◌, ◌≤◌, length};
ghost use Rattle.words.specs.Splice.{splice};
ghost use Rattle.track.specs.Keys.{tick_of};
ghost use Rattle.events.specs.Tracks.{Timed};
ghost use Rattle.events.specs.Windows.{window_bytes, last_tick, longest};

use track::putting;

// How far a track has come: the place behind its last event, and that event's tick.
#[derive(Clone, Copy)]
pub struct Reached {
    pub at: usize,
    pub tick: u32,
}

// The tick of an event, from its number.
pub fn tick_of(event: u64) -> u32
    requires { tick_of event ≤ 4294967295 }
    ensures { result ≡ tick_of event }
{
    (event / 524288) as u32
}

// How far events come; `from` is how far the track has come before them.
pub fn window_length(events: &[u64], from: Reached) -> Reached
    requires { Timed longest from.tick events.now × (from.at + length (window_bytes from.tick events.now) ≤ 4294967295) }
    ensures { (result.at ≡ from.at + length (window_bytes from.tick events.now)) × (result.tick ≡ last_tick from.tick events.now) }
{
    let mut reached = from;
    for event in events {
        let tick = tick_of(*event);
        reached.at += putting::group_count(tick - reached.tick) as usize + 3;
        reached.tick = tick;
    }
    reached
}

// Writes events; `from` is how far the track has come before them. Returns how far they come.
pub fn put_window(out: &mut [u8], from: Reached, events: &[u64]) -> Reached
    requires { Timed longest from.tick events.now × (from.at + length (window_bytes from.tick events.now) ≤ length out.old) }
    ensures reached { (result.at ≡ from.at + length (window_bytes from.tick events.now)) × (result.tick ≡ last_tick from.tick events.now) }
    ensures bytes { out.new ≡ splice out.old from.at (window_bytes from.tick events.now) }
{
    let mut reached = from;
    for event in events {
        let tick = tick_of(*event);
        reached.at = putting::put_event(out, reached.at, tick - reached.tick, *event);
        reached.tick = tick;
    }
    reached
}
