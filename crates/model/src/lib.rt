// The values of the paper: a session's header, a note and a cell, with the meaning of the calls in specs/.
// δ, ε, K and W of the paper are the fields delta, epsilon, shelves and words.
#![tactic(auto)]

ghost use Rattle.std.specs.Prelude.{◌≡◌, ◌&&◌, leb};
ghost use Rattle.model.specs.Limits.{max_beats, lane_count, max_shelves, max_delta, min_words, max_words};
ghost use Rattle.model.specs.Session.{header_words, words_of_header};
ghost use Rattle.model.specs.Numbers.{answer_of};
ghost use Rattle.model.specs.Takes.{note_words, cell_words, note_of, cell_of};
ghost use Rattle.model.specs.Questions.{header_ok};
ghost use Rattle.model.specs.Answers.{header_asked};

pub mod questions;

use questions::Question;

// A session's header: ticks in a beat, the shortest piece kept, the number of shelves, the words in a shelf.
#[derive(Clone, Copy)]
pub struct Header {
    pub delta: u32,
    pub epsilon: u32,
    pub shelves: u32,
    pub words: u32,
}

impl Header {
    // Limits: beats in a take, lanes, shelves in a session.
    pub const BEATS: u32 = 4096;

    pub const LANES: u32 = 2048;

    pub const SHELVES: u32 = 64;

    // The range of δ, the least ε (the most is δ), and the range of W.
    pub const DELTA_MIN: u32 = 1;

    pub const DELTA_MAX: u32 = 32767;

    pub const EPSILON_MIN: u32 = 1;

    pub const SHELF_WORDS_MIN: u32 = 3;

    pub const SHELF_WORDS_MAX: u32 = 1048576;

    // The words of the header itself.
    pub const WORDS: usize = 4;

    // Question 1 for four header words and a session of `length` words. The second promise ties the constants to the
    // definitions; those of the ranges are tied by the first.
    #[tactic(auto, unfolding(crate::specs::Answers::header_asked))]
    pub fn new(
        delta: u32,
        epsilon: u32,
        shelves: u32,
        words: u32,
        length: usize,
    ) -> Result<Header, Question>
        ensures asked { answer_of words_of_header result ≡ header_asked (record { delta = delta; epsilon = epsilon; shelves = shelves; words = words }) length }
        ensures limits { (Header.BEATS ≡ max_beats) × (Header.LANES ≡ lane_count) × (Header.SHELVES ≡ max_shelves) × (Header.WORDS ≡ header_words) }
    {
        let header = Header {
            delta,
            epsilon,
            shelves,
            words,
        };
        if header.in_range(length) {
            Ok(header)
        } else {
            Err(Question::HeaderInRange)
        }
    }

    // Are the four words in range, and is the length exact?
    #[tactic(auto, using(crate::proofs::Headers::parts))]
    fn in_range(self, length: usize) -> bool
        ensures { result ≡ header_ok self length }
    {
        self.ticks_ok()
            && self.shelves_ok()
            && length == Header::WORDS + (self.shelves as usize) * (self.words as usize)
    }

    // Are δ and ε in range?
    fn ticks_ok(self) -> bool
        ensures { result ≡ (leb 1 self.delta && leb self.delta max_delta && leb 1 self.epsilon && leb self.epsilon self.delta) }
    {
        Header::DELTA_MIN <= self.delta
            && self.delta <= Header::DELTA_MAX
            && Header::EPSILON_MIN <= self.epsilon
            && self.epsilon <= self.delta
    }

    // Are K and W in range?
    fn shelves_ok(self) -> bool
        ensures { result ≡ (leb 1 self.shelves && leb self.shelves max_shelves && leb min_words self.words && leb self.words max_words) }
    {
        1 <= self.shelves
            && self.shelves <= Header::SHELVES
            && Header::SHELF_WORDS_MIN <= self.words
            && self.words <= Header::SHELF_WORDS_MAX
    }
}

// A note: its lane (channel × 128 + key), start and end in ticks, velocity.
#[derive(Clone, Copy, Default)]
pub struct Note {
    pub lane: u32,
    pub start: u32,
    pub end: u32,
    pub velocity: u32,
}

// A note's words, and the note that words say.
impl From<Note> for [u32; 4] {
    ghost from_gives = { λ n words. words ≡ note_words n };

    fn from(n: Note) -> [u32; 4] {
        [n.lane, n.start, n.end, n.velocity]
    }
}

impl From<[u32; 4]> for Note {
    ghost from_gives = { λ words n. n ≡ note_of words };

    fn from(words: [u32; 4]) -> Note {
        let [lane, start, end, velocity] = words;
        Note {
            lane,
            start,
            end,
            velocity,
        }
    }
}

// A cell: what a piece that touches a line of its beat remembers there. Side 0 is the beat's opening line, 1 its closing line;
// before and after are the ticks of the whole note on either side of the line.
#[derive(Clone, Copy)]
pub struct Cell {
    pub lane: u32,
    pub beat: u32,
    pub side: u32,
    pub before: u32,
    pub after: u32,
    pub velocity: u32,
}

// A cell's words, and the cell that words say.
impl From<Cell> for [u32; 6] {
    ghost from_gives = { λ c words. words ≡ cell_words c };

    fn from(c: Cell) -> [u32; 6] {
        [c.lane, c.beat, c.side, c.before, c.after, c.velocity]
    }
}

impl From<[u32; 6]> for Cell {
    ghost from_gives = { λ words c. c ≡ cell_of words };

    fn from(words: [u32; 6]) -> Cell {
        let [lane, beat, side, before, after, velocity] = words;
        Cell {
            lane,
            beat,
            side,
            before,
            after,
            velocity,
        }
    }
}
