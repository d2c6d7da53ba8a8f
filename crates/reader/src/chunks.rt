// The header and the chunks of a file (questions 9 to 11): where its track is.
ghost use Rattle.std.specs.Prelude.{◌≡◌, ◌≤◌, length};
ghost use Rattle.midi.specs.Numbers as N;
ghost use Rattle.midi.specs.Reading.{header_there, header_fits};
ghost use Rattle.midi.proofs.Loops.{track_after};
ghost use Rattle.reader.specs.Chunks.{place_of, chunk_place, track_place};

use model::questions::Question;
use track::bytes;

// Where the track is: the position of its first byte, and the position behind its last. Positions, and no slice: they are what is promised.
#[derive(Clone, Copy)]
pub struct Found {
    pub at: usize,
    pub end: usize,
}

// Question 9: is MThd there, its length 6 or more and all inside the file?
#[tactic(auto, unfolding(midi::specs::Reading::header_there))]
fn header_there(s: &[u8]) -> bool
    ensures { result ≡ header_there s.now }
{
    8 <= s.len()
        && bytes::word32(s, 0) == bytes::MTHD
        && 6 <= bytes::word32(s, 4)
        && 8 + bytes::word32(s, 4) as usize <= s.len()
}

// Question 10: format 0, one track, division equal to δ?
#[tactic(auto, unfolding(midi::specs::Reading::header_fits))]
fn header_fits(delta: u32, s: &[u8]) -> bool
    requires { 14 ≤ length s.now }
    ensures { result ≡ header_fits delta s.now }
{
    bytes::word16(s, 8) == 0 && bytes::word16(s, 10) == 1 && bytes::word16(s, 12) == delta
}

// Question 11: the first MTrk from a position on, reached through complete chunks.
fn track_from(s: &[u8], from: usize) -> Result<Found, Question>
    requires { from ≤ length s.now }
    ensures { place_of result ≡ chunk_place (track_after s.now from) }
{
    let mut at = from;
    // No `for`: each step is as long as its chunk says. The first answer of no leaves the loop by a labelled exit with its question: the form that
    // the project asks for.
    let question = 'chunks: loop {
        if s.len() - at < 8 {
            break 'chunks Question::TrackReached;
        }
        let start = at + 8;
        let size = bytes::word32(s, at + 4) as usize;
        if s.len() - start < size {
            break 'chunks Question::TrackReached;
        }
        let end = start + size;
        if bytes::word32(s, at) == bytes::MTRK {
            return Ok(Found { at: start, end });
        }
        at = end;
    };
    Err(question)
}

// Where the track of a file is, or the first question, 9 to 11, whose answer is no.
pub fn track_in(delta: u32, s: &[u8]) -> Result<Found, Question>
    ensures { place_of result ≡ track_place delta s.now }
{
    if !header_there(s) {
        return Err(Question::FileHeader);
    }
    if !header_fits(delta, s) {
        return Err(Question::FileFormat);
    }
    track_from(s, 8 + bytes::word32(s, 4) as usize)
}
