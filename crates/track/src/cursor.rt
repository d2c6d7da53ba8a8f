// A place in a track, and the event that stands there (question 12).
ghost use Rattle.std.specs.Prelude.{◌≡◌, true, Some, cond, eqb, ◌+◌, ◌*◌, ◌/◌, ◌≤◌, ◌<◌, ltb, length};
ghost use Rattle.model.specs.Limits.{max_beats, max_delta};
ghost use Rattle.midi.specs.Events.{place, channel_message, channel_at, meta_at, sysex_at, own_status, behind_time, event_at};
ghost use Rattle.track.specs.Notes.{Plain, Short, form_at};
ghost use Rattle.track.specs.Reading.{message_of, place_of, event_of, data_of, second_at, over_at, end_at};

use crate::quantities;

// FF 2F: the end of track.
const END: u8 = 47;

// Where reading stands: the position in the track, the tick of the last event, the running status in force (0: none). It is a byte, as in the
// definition of a place: an Option would be no plainer, since no status is 0, and `form` and `short` would take it apart. That the position
// is inside the track and the tick within 4,096 beats is asked where it is needed, and is no fact of the type: a cursor does not have its track, and
// the tick behind an event is tested later.
#[derive(Clone, Copy)]
pub struct Cursor {
    pub at: usize,
    pub tick: u32,
    pub running: u8,
}

// The note of a channel's key starts, or with velocity 0 ends, as a start of velocity 0 in a file does: a number and no enum, so that no branch
// waits for it where the line sides are kept. Channel and key are two numbers, and no struct that says how large they are: it would be made in one
// function, of a byte that is known to be data, and taken apart again where a table is read.
#[derive(Clone, Copy)]
pub struct Play {
    pub channel: u32,
    pub key: u32,
    pub velocity: u32,
}

// What is read of a note before it is known that one stands there: the last byte of its time, its time, its status, the position of its key.
#[derive(Clone, Copy)]
struct Form {
    last: u8,
    time: u32,
    status: u8,
    at: usize,
}

// A legal event.
#[derive(Clone, Copy)]
pub enum Event {
    // An event, with the place behind it: what it plays, or nothing where it is read over.
    Next(Cursor, Option<Play>),
    // The end of track, with its tick.
    Finished(u32),
}

// Is it 8n or 9n, the status of a note?
fn is_note(status: u8) -> bool
    ensures { result ≡ eqb (status / 32) 4 }
{
    status / 32 == 4
}

// Is it Cn or Dn, a status with one data byte?
fn has_one_byte(status: u8) -> bool
    ensures { result ≡ eqb (status / 32) 6 }
{
    status / 32 == 6
}

// The velocity of the note that 8n or 9n starts: none for 8n.
fn start_velocity(status: u8, velocity: u8) -> u32
    ensures { result ≡ cond (ltb status 144) 0 velocity }
{
    if status < 144 { 0 } else { velocity as u32 }
}

// What 8n and 9n say: an end is a start with velocity 0.
fn note_message(status: u8, key: u8, velocity: u8) -> Play
    requires { (status / 32 ≡ 4) × (key < 128) }
    ensures { message_of (Some result) ≡ channel_message status key velocity }
{
    Play {
        channel: (status % 16) as u32,
        key: key as u32,
        velocity: start_velocity(status, velocity),
    }
}

// What a channel event with two data bytes says.
fn channel_message(status: u8, key: u8, velocity: u8) -> Option<Play>
    requires { key < 128 }
    ensures { message_of result ≡ channel_message status key velocity }
{
    if is_note(status) {
        return Some(note_message(status, key, velocity));
    }
    None
}

// The data byte at a position: one below 128.
fn data_at(s: &[u8], q: usize) -> Option<u8>
    ensures { result ≡ data_of s.now q }
{
    let b = *s.get(q)?;
    if b < 128 { Some(b) } else { None }
}

// From here to `any_event` each function takes what its definition takes, track, tick and position, one by one: a struct of them would be
// made anew at each call, since the position moves on, and passed through memory where the call is not put in. `any_event`, which is called for
// few events, takes a cursor's three numbers for the second reason.

// The second data byte of a channel event, at q, and the event. Behind it its status is in force.
fn second_data(s: &[u8], tick: u32, status: u8, key: u8, q: usize) -> Option<Event>
    requires { key < 128 }
    ensures { event_of result ≡ second_at s.now tick status key q }
{
    let velocity = data_at(s, q)?;
    let next = Cursor {
        at: q + 1,
        tick,
        running: status,
    };
    Some(Event::Next(next, channel_message(status, key, velocity)))
}

// A channel event, its data at q: one byte for Cn and Dn, two for the others.
fn channel_at(s: &[u8], tick: u32, status: u8, q: usize) -> Option<Event>
    ensures { event_of result ≡ channel_at s.now tick status q }
{
    let key = data_at(s, q)?;
    if !has_one_byte(status) {
        return second_data(s, tick, status, key, q + 1);
    }
    let next = Cursor {
        at: q + 1,
        tick,
        running: status,
    };
    Some(Event::Next(next, None))
}

// An event read over whose n last bytes stand at p. It ends running status.
fn read_over(s: &[u8], tick: u32, n: u32, p: usize) -> Option<Event>
    requires { p ≤ length s.now }
    ensures { event_of result ≡ over_at s.now tick n p }
{
    let count = n as usize;
    if s.len() - p < count {
        return None;
    }
    let running: u8 = 0;
    let next = Cursor {
        at: p + count,
        tick,
        running,
    };
    Some(Event::Next(next, None))
}

// The end of track: of length 0 and at the track's last byte.
fn end_of_track(s: &[u8], tick: u32, n: u32, p: usize) -> Option<Event>
    ensures { event_of result ≡ end_at s.now tick n p }
{
    if n == 0 && p == s.len() {
        return Some(Event::Finished(tick));
    }
    None
}

// A meta event, its type at q, then its length.
fn meta_at(s: &[u8], tick: u32, q: usize) -> Option<Event>
    ensures { event_of result ≡ meta_at s.now tick q }
{
    // A test by itself, and no `data_at`, so that an edit can let other types pass and no other data.
    let kind = *s.get(q)?;
    if 128 <= kind {
        return None;
    }
    let size = quantities::quantity_at(s, q + 1)?;
    if kind == END {
        return end_of_track(s, tick, size.number, size.end);
    }
    read_over(s, tick, size.number, size.end)
}

// An F0 or F7 event, its length at q, with any bytes counted by it.
fn sysex_at(s: &[u8], tick: u32, q: usize) -> Option<Event>
    ensures { event_of result ≡ sysex_at s.now tick q }
{
    let size = quantities::quantity_at(s, q)?;
    read_over(s, tick, size.number, size.end)
}

// An event with a status of its own, the rest of it at q.
fn own_status(s: &[u8], tick: u32, status: u8, q: usize) -> Option<Event>
    ensures { event_of result ≡ own_status s.now tick status q }
{
    match status {
        0..240 => channel_at(s, tick, status, q),
        240 | 247 => sysex_at(s, tick, q),
        255 => meta_at(s, tick, q),
        _ => None,
    }
}

// An event behind its time, at q: with a status of its own, or with the running status, if one is in force.
fn behind_time(s: &[u8], tick: u32, running: u8, q: usize) -> Option<Event>
    ensures { event_of result ≡ behind_time s.now tick running q }
{
    let b = *s.get(q)?;
    if 128 <= b {
        return own_status(s, tick, b, q + 1);
    }
    if running == 0 {
        return None;
    }
    channel_at(s, tick, running, q)
}

// The event at a place, of any kind: its time, counted from the event before it, then status and data.
pub fn any_event(s: &[u8], at: usize, tick: u32, running: u8) -> Option<Event>
    requires { tick ≤ max_beats * max_delta }
    ensures { event_of result ≡ event_at s.now (place at tick running) }
{
    let time = quantities::quantity_at(s, at)?;
    behind_time(s, tick + time.number, running, time.end)
}

impl Play {
    // The same message, copied field by field: see `Event::again`.
    fn again(self) -> Play
        ensures { result ≡ self }
    {
        Play {
            channel: self.channel,
            key: self.key,
            velocity: self.velocity,
        }
    }
}

impl Event {
    // The same event, copied field by field. A copy of all at once, as a derive's, keeps each event of a loop in memory where one comes from a
    // call: then the notes that are read without a call are stored and loaded again too (tried: nine stores and a load
    // more for each note, so that a load takes longer than the second implementation's).
    pub fn again(self) -> Event
        ensures { result ≡ self }
    {
        match self {
            Event::Next(next, Some(play)) => Event::Next(next.again(), Some(play.again())),
            Event::Next(next, None) => Event::Next(next.again(), None),
            Event::Finished(tick) => Event::Finished(tick),
        }
    }
}

impl Cursor {
    // The first byte of a track, at tick 0, with no running status.
    pub fn start() -> Cursor
        ensures { place_of result ≡ place 0 0 0 }
    {
        Cursor {
            at: 0,
            tick: 0,
            running: 0,
        }
    }

    // The same place, copied field by field: see `Event::again`.
    pub fn again(self) -> Cursor
        ensures { result ≡ self }
    {
        Cursor {
            at: self.at,
            tick: self.tick,
            running: self.running,
        }
    }

    // The event at the cursor, of any kind. Nearly all notes are read here, by functions so small that they are compiled into a loop over events;
    // all others are read by a call.
    #[inline(always)]
    pub fn event(self, s: &[u8]) -> Option<Event>
        requires { (self.at ≤ length s.now) × (self.tick ≤ max_beats * max_delta) }
        ensures { event_of result ≡ event_at s.now (place_of self) }
    {
        if self.plain(s) {
            return Some(self.plain_event(s));
        }
        if self.short(s) {
            return Some(self.short_event(s));
        }
        let e = any_event(s, self.at, self.tick, self.running)?;
        Some(e.again())
    }

    // Does a note of four bytes stand here: a time of one group, 8n or 9n, key and velocity? Most events of a file with a status for each are such.
    pub fn plain(self, s: &[u8]) -> bool
        requires { self.at ≤ length s.now }
        ensures { result ≡ true → Plain s.now self.at }
    {
        let at = self.at;
        if s.len() < at + 4 {
            return false;
        }
        if !is_note(s[at + 1]) {
            return false;
        }
        // None of the three is 128 or more where all their bits together are less.
        (s[at] | s[at + 2] | s[at + 3]) < 128
    }

    // The event of those bytes.
    pub fn plain_event(self, s: &[u8]) -> Event
        requires { (self.tick ≤ max_beats * max_delta) × Plain s.now self.at }
        ensures { event_of (Some result) ≡ event_at s.now (place_of self) }
    {
        let at = self.at;
        let status = s[at + 1];
        let next = Cursor {
            at: at + 4,
            tick: self.tick + s[at] as u32,
            running: status,
        };
        Event::Next(next, Some(note_message(status, s[at + 2], s[at + 3])))
    }

    // What stands here, read as a note of a time of one or two groups. The bytes in which its time and its status may lie are read first, so that the
    // position of the next event waits for one load and for no branch: times of one and of two groups follow each other in no order that a processor could foresee.
    #[inline(always)]
    fn form(self, s: &[u8]) -> Form
        requires { self.at + 5 ≤ length s.now }
        ensures { result ≡ form_at s.now self.at self.running }
    {
        let at = self.at;
        let first = s[at];
        let second = s[at + 1];
        let third = s[at + 2];
        let long = 128 <= first;
        let last = if long { second } else { first };
        let high = if long { first % 128 } else { 0 };
        let behind = if long { third } else { second };
        let own = 128 <= behind;
        Form {
            last,
            time: high as u32 * 128 + last as u32,
            status: if own { behind } else { self.running },
            at: at + 1 + usize::from(long) + usize::from(own),
        }
    }

    // Does a note stand here whose time has one or two groups, 8n or 9n its own status or the one in force? Nearly all notes of files are such. A
    // note of four bytes is one too, if a byte follows it: it is asked for first, since most events of a file with a status for each are read faster so.
    pub fn short(self, s: &[u8]) -> bool
        requires { self.at ≤ length s.now }
        ensures { result ≡ true → Short s.now self.at self.running }
    {
        if s.len() < self.at + 5 {
            return false;
        }
        let form = self.form(s);
        if !is_note(form.status) {
            return false;
        }
        (form.last | s[form.at] | s[form.at + 1]) < 128
    }

    // The event of those bytes.
    pub fn short_event(self, s: &[u8]) -> Event
        requires { (self.tick ≤ max_beats * max_delta) × Short s.now self.at self.running }
        ensures { event_of (Some result) ≡ event_at s.now (place_of self) }
    {
        let form = self.form(s);
        let next = Cursor {
            at: form.at + 2,
            tick: self.tick + form.time,
            running: form.status,
        };
        Event::Next(
            next,
            Some(note_message(form.status, s[form.at], s[form.at + 1])),
        )
    }
}
