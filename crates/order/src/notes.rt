// The notes of a take as they stand in a shelf: four words each, its lane, start, end and velocity.
ghost use Rattle.std.specs.Prelude.{◌*◌, ◌≤◌, length};

use crate::{number, velocity_at};

// Some words, and how many notes stand at their beginning. A slice of arrays would be no plainer: the definitions and laws speak of the events of a
// list of words (`events s i m`), and each would have to join the arrays again.
#[derive(Clone, Copy)]
pub struct Notes<'a> {
    pub words: &'a [u32],
    pub count: usize,
    pub ghost room: { 4 * count ≤ length words.now },
}

impl Notes<'_> {
    ghost use Rattle.std.specs.Prelude.{◌≡◌, ◌<◌, get_or};
    ghost use Rattle.order.specs.Notes.{events_of};

    // Event e of the notes: note e / 2 starts at an even one and ends at the odd one behind it. Both read the same words, so that no branch
    // waits for the place.
    pub fn event_at(self, e: usize) -> u64
        requires { e < 2 * self.count }
        ensures { result ≡ get_or (events_of self.entry) e 0 }
    {
        let odd = e % 2;
        let at = 2 * (e - odd);
        let velocity = self.words[at + 3];
        number(
            self.words[at + 1 + odd],
            1 - odd as u64,
            self.words[at],
            velocity_at(odd, velocity),
        )
    }
}
