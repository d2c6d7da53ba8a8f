// The last notes, or the last cells, of those that stand up to a place.
ghost use Rattle.std.specs.Prelude.{◌≡◌, ◌-◌, ◌*◌, ◌≤◌, ◌<◌};
ghost use Rattle.model.specs.Takes.{word};
ghost use Rattle.laws.specs.JoinWalk.{lane_ahead};

use model::Header;

// The last `left` of those that stand up to place `end`, of so many words each. Places and no slice: split and join write into the session
// that they read from, which C passes as one list.
#[derive(Clone, Copy)]
pub struct Last<const WORDS: usize> {
    pub end: usize,
    pub left: usize,
    pub ghost fits: { WORDS * left ≤ end },
}

// Notes have four words, and cells six.
pub type LastNotes = Last<4>;

pub type LastCells = Last<6>;

impl<const WORDS: usize> Last<WORDS> {
    ghost use Rattle.std.specs.Prelude.{drop, length};
    ghost use Rattle.std.specs.Simd.{first_chunks};
    ghost use Rattle.cuts.specs.Lasts.{lane_of_last};

    // The place of the first.
    pub fn place(self) -> usize
        ensures { result ≡ self.entry.end - WORDS * self.entry.left }
    {
        self.end - WORDS * self.left
    }

    // The lane of the first: 2,048 if there is none. WORDS has a bound: an array that stands only in the body has to be shown to be not too large.
    pub fn lane(self, s: &[u32]) -> u32
        requires some { (0 < WORDS) × (WORDS ≤ 6) }
        requires inside { self.end ≤ length s.now }
        ensures { result ≡ lane_of_last WORDS s.now self.entry.end self.entry.left }
    {
        lane_ahead(self.arrays(s))
    }

    // The words of each, as arrays.
    pub(crate) fn arrays(self, s: &[u32]) -> &[[u32; WORDS]]
        requires some { 0 < WORDS }
        requires inside { self.end ≤ length s.now }
        ensures { result.now ≡ first_chunks WORDS self.entry.left (drop (self.entry.end - WORDS * self.entry.left) s.now) }
    {
        let (all, _) = s[self.place()..self.end].as_chunks::<WORDS>();
        all
    }

    // The last so many of them.
    pub fn keep(self, left: usize) -> Self
        requires { left ≤ self.left }
        ensures end_is { result.end ≡ self.entry.end }
        ensures left_is { result.left ≡ left }
    {
        Last {
            end: self.end,
            left,
        }
    }
}

// The lane of the first of some notes or cells, which is its first word: 2,048 if there is none. A number above all lanes and no Option, so that the
// least lane of several is a minimum.
pub(crate) fn lane_ahead<const WORDS: usize>(all: &[[u32; WORDS]]) -> u32
    requires some { 0 < WORDS }
    ensures { result ≡ lane_ahead (λ ws. word ws 0) all.now }
{
    let Some(words) = all.first() else {
        return Header::LANES;
    };
    words[0]
}
