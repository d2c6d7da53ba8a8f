// The line between two takes that are joined.
ghost use Rattle.std.specs.Prelude.{◌≡◌, ◌*◌};

use model::Header;

// The first take has so many beats, and the line is at that tick.
#[derive(Clone, Copy)]
pub struct Line {
    pub h: Header,
    pub beats: u32,
    pub tick: u32,
    ghost tick_is: { tick ≡ beats * h.delta },
}
