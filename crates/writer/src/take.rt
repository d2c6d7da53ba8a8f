// A take whose file is written: its notes, with δ and its beats.
ghost use Rattle.writer.specs.Files.{FileAsks};

use order::notes::Notes;

// Notes that stand in a shelf in their order, none behind the last beat.
#[derive(Clone, Copy)]
pub struct Take<'a> {
    pub notes: Notes<'a>,
    pub delta: u32,
    pub beats: u32,
    pub ghost sound: { FileAsks notes.words.now notes.count delta beats },
}

impl Take<'_> {
    ghost use Rattle.std.specs.Prelude.{◌≡◌, ◌*◌};

    // The tick at which the track ends.
    pub fn end(self) -> u32
        ensures { result ≡ self.entry.beats * self.entry.delta }
    {
        self.beats * self.delta
    }
}
