// How many cells a note has.
ghost use Rattle.std.specs.Prelude.{◌≡◌, ◌*◌, ◌≤◌, ◌<◌, length};
ghost use Rattle.model.specs.Limits.{max_beats};
ghost use Rattle.model.specs.Pieces.{cells_of_note};
ghost use Rattle.session.specs.Counting.{line_sides};

use crate::beats::Divisor;
use model::Note;

impl Divisor {
    // The sides of beat lines before a tick: two for each whole beat, one more inside a beat.
    pub fn line_sides(self, tick: u32) -> u32
        requires { tick ≤ max_beats * self.delta }
        ensures { result ≡ line_sides self.delta tick }
    {
        let beat = self.beat_of(tick);
        2 * beat + (beat * self.delta < tick) as u32
    }

    // How many cells a note has: two at each line that it crosses, one at a line where it starts or ends.
    pub fn cell_count(self, n: Note) -> u32
        requires { (n.start < n.end) × (n.end ≤ max_beats * self.delta) }
        ensures { result ≡ length (cells_of_note self.delta n) }
    {
        self.line_sides(n.end) - self.line_sides(n.start)
    }
}
