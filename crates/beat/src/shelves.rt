// Questions 2 and 4 of the calls that read shelves, split and join.
ghost use Rattle.std.specs.Prelude.{◌≡◌, ◌&&◌, ◌<◌, ltb};
ghost use Rattle.model.specs.Session.{shelf};
ghost use Rattle.model.specs.Soundness.{sound_shelf};

use model::Header;
use session::sound;
use session::view::SessionView;

// Question 2: are the three shelves below K?
pub fn shelves_ok(h: Header, first: u32, second: u32, third: u32) -> bool
    ensures { result ≡ (ltb first h.shelves && (ltb second h.shelves && ltb third h.shelves)) }
{
    first < h.shelves && second < h.shelves && third < h.shelves
}

// Question 4: is a shelf sound? A shelf is a word of the caller's, below K only behind question 2: a type for it would be made anew at each call.
pub fn is_sound(s: SessionView, take: u32) -> bool
    requires { take < s.header.shelves }
    ensures { result ≡ sound_shelf s.entry.header (shelf s.entry.header s.entry.words.now take) }
{
    sound::sound(s.header, s.shelf(take))
}
