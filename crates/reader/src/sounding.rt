// The sounding table of 16 channels by 128 keys (question 14).
ghost use Rattle.std.specs.Prelude.{◌≡◌, ◌+◌, ◌*◌, ◌<◌};
ghost use Rattle.midi.specs.Lanes.{put_lane};
ghost use Rattle.reader.specs.Tables.{table_of};
ghost use Rattle.reader.specs.CountingSteps.{lane_note, lanes_silent};

use model::Note;

// What is kept of a lane: the start tick and the velocity of what sounds. The velocity of a silent lane is 0, as in the definition's table, and
// there is no Option: the start stays behind a note's end, which `put_lane` promises, and no branch waits for either.
#[derive(Clone, Copy)]
pub struct Sounded {
    pub start: u32,
    pub velocity: u32,
}

// Nothing has sounded yet.
pub const SILENT: Sounded = Sounded {
    start: 0,
    velocity: 0,
};

// What is kept of each key of each channel.
#[derive(Drop)]
pub struct Sounding {
    pub lanes: [[Sounded; 128]; 16],
}

impl Sounding {
    // What sounds in a lane, as a note that ends at a tick.
    pub fn lane_note(&self, channel: u32, key: u32, tick: u32) -> Note
        requires { (channel < 16) × (key < 128) }
        ensures { result ≡ lane_note (table_of self.now) tick (128 * channel + key) }
    {
        // By reference: a copy of both numbers at once would wait for the stores that put them there one by one.
        let sound = &self.lanes[channel as usize][key as usize];
        Note {
            lane: 128 * channel + key,
            start: sound.start,
            end: tick,
            velocity: sound.velocity,
        }
    }

    // Puts a start tick and a velocity in a lane: 0 makes it silent.
    pub fn put_lane(&mut self, channel: u32, key: u32, start: u32, velocity: u32)
        requires { (channel < 16) × (key < 128) }
        ensures starts { (table_of self.new).start ≡ put_lane (table_of self.old).start (128 * channel + key) start }
        ensures velocities { (table_of self.new).velocity ≡ put_lane (table_of self.old).velocity (128 * channel + key) velocity }
    {
        self.lanes[channel as usize][key as usize] = Sounded { start, velocity };
    }

    // Does no lane of a channel sound? All velocities are joined by "or", so that many are looked at in one step: 0 only where each of them is 0.
    pub fn silent(&self, channel: u32) -> bool
        requires { channel < 16 }
        ensures { result ≡ lanes_silent (table_of self.now).velocity (128 * channel) 128 }
    {
        let lanes = &self.lanes[channel as usize];
        lanes.iter().fold(0, |all, sound| all | sound.velocity) == 0
    }
}
