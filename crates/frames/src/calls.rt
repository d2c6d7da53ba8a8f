// The calls of frames: each takes the bytes behind the call byte.
ghost use Rattle.std.specs.Prelude.{◌≡◌, ◌+◌, ◌*◌, ◌≤◌, length, Err};
ghost use Rattle.frames.specs.Lines.{arguments, open_of, change_of, lay_of, split_of, join_of, write_of, load_of};
ghost use Rattle.frames.specs.Answers.{max_session, output_bytes};
ghost use Rattle.frames.specs.Calling.{refusal_number, words_in, Changed, Wrote};
ghost use Rattle.frames.specs.Lent.{Opened};
ghost use Rattle.frames.specs.declared.calls.Refusal.TheVariants.{AnsweredNo};

use crate::sessions::MAX_SESSION;
use beat::{joining, laying, opening, splitting};
use file::{loading, writing};
use model::questions::Question;
use track::bytes::word32;

// Why a frame is refused.
#[derive(Clone, Copy, PartialEq, Eq)]
pub enum Refusal {
    // Its line is malformed.
    Malformed,
    // A question of its call is answered no.
    AnsweredNo(Question),
}

impl From<Question> for Refusal {
    ghost from_gives = { λ question refusal. refusal ≡ AnsweredNo question };

    fn from(question: Question) -> Refusal {
        Refusal::AnsweredNo(question)
    }
}

impl From<Refusal> for u8 {
    ghost from_gives = { λ refusal n. n ≡ refusal_number refusal };

    // The number that is written for it: 255, or that of the question.
    fn from(refusal: Refusal) -> u8 {
        match refusal {
            Refusal::Malformed => 255,
            Refusal::AnsweredNo(question) => u32::from(question) as u8,
        }
    }
}

// The most words of a lay's notes: why no frame may have more than 2,000 bytes. That is asked of a slice, and is no fact of a type: no caller has
// to make one of it.
const MAX_NOTE_WORDS: usize = 500;

// The bytes of the largest file that is written.
pub const OUTPUT_BYTES: usize = 8192;

// Reads words, those behind the first `first` words of the bytes.
fn read_words(bytes: &[u8], first: usize, words: &mut [u32])
    requires { 4 * (first + length words.old) ≤ length bytes.now }
    ensures { words.new ≡ arguments (length words.old) bytes.now first }
{
    for (i, word) in words.iter_mut().enumerate() {
        *word = word32(bytes, 4 * (first + i));
    }
}

// The arguments of a call that has N words of them.
fn words_of<const N: usize>(bytes: &[u8]) -> Result<[u32; N], Refusal>
    ensures { result ≡ words_in N bytes.now }
{
    if bytes.len() / 4 != N || bytes.len() % 4 != 0 {
        return Err(Refusal::Malformed);
    }
    let mut words = [0; N];
    read_words(bytes, 0, &mut words);
    Ok(words)
}

// Lay: shelf, beats, notes.
pub fn lay(session: &mut [u32], bytes: &[u8]) -> Result<(), Refusal>
    requires { length bytes.now ≤ 2000 }
    ensures { Changed session.old (lay_of bytes.now) session.new result }
{
    if bytes.len() < 8 || bytes.len() % 4 != 0 {
        return Err(Refusal::Malformed);
    }
    let mut words = [0; MAX_NOTE_WORDS];
    let notes = &mut words[..(bytes.len() - 8) / 4];
    read_words(bytes, 2, notes);
    laying::take_lay(session, word32(bytes, 0), word32(bytes, 4), notes)?;
    Ok(())
}

// Split: shelf, k, left, right.
pub fn split(session: &mut [u32], bytes: &[u8]) -> Result<(), Refusal>
    ensures { Changed session.old (split_of bytes.now) session.new result }
{
    let [take, beat, left, right] = words_of::<4>(bytes)?;
    splitting::take_split(session, take, beat, left, right)?;
    Ok(())
}

// Join: first, second, result.
pub fn join(session: &mut [u32], bytes: &[u8]) -> Result<(), Refusal>
    ensures { Changed session.old (join_of bytes.now) session.new result }
{
    let [first, second, joined] = words_of::<3>(bytes)?;
    joining::take_join(session, first, second, joined)?;
    Ok(())
}

// Load: shelf, then the bytes of a file.
pub fn load(session: &mut [u32], bytes: &[u8]) -> Result<(), Refusal>
    ensures { Changed session.old (load_of bytes.now) session.new result }
{
    if bytes.len() < 4 {
        return Err(Refusal::Malformed);
    }
    loading::take_load(session, word32(bytes, 0), &bytes[4..])?;
    Ok(())
}

// The calls that change an open session, by their call byte; another byte is malformed. The byte is matched here and in `answers`, each
// call once: an enum of calls would need a conversion that matches it before.
pub(crate) fn change(session: &mut [u32], call: u8, bytes: &[u8]) -> Result<(), Refusal>
    requires { length bytes.now ≤ 2000 }
    ensures { Changed session.old (change_of call bytes.now) session.new result }
{
    match call {
        2 => lay(session, bytes),
        3 => split(session, bytes),
        4 => join(session, bytes),
        6 => load(session, bytes),
        _ => Err(Refusal::Malformed),
    }
}

// Write: shelf. The file goes to the start of an output; returns how many bytes it has.
pub fn write(session: &[u32], bytes: &[u8], output: &mut [u8]) -> Result<usize, Refusal>
    requires { length output.old ≡ output_bytes }
    ensures { Wrote session.now (write_of bytes.now) output.new result }
{
    let [shelf] = words_of::<1>(bytes)?;
    let mut count = 0;
    writing::take_write(session, shelf, output, &mut count)?;
    Ok(count as usize)
}

// What an open leaves: how it ended, and the length of the session in words.
#[derive(Clone, Copy)]
pub struct Done {
    pub outcome: Result<(), Refusal>,
    pub size: usize,
}

// A refused open keeps the earlier session, of `held` words.
fn refused(refusal: Refusal, held: usize) -> Done
    ensures { result ≡ record { outcome = Err refusal; size = held } }
{
    Done {
        outcome: Err(refusal),
        size: held,
    }
}

// Open: δ, ε, K, W, at the start of words that are lent, of which the session so far is the first `held`.
pub fn open_frame(words: &mut [u32], held: usize, bytes: &[u8]) -> Done
    requires within { held ≤ max_session }
    requires whole { length words.old ≡ max_session }
    ensures { Opened words.old held (open_of bytes.now) words.new result }
{
    let [delta, epsilon, shelves, shelf_words] = match words_of::<4>(bytes) {
        Ok(header) => header,
        Err(refusal) => return refused(refusal, held),
    };
    let asked = 4 + (shelves as u64) * (shelf_words as u64);
    if asked > MAX_SESSION as u64 {
        return refused(Refusal::AnsweredNo(Question::HeaderInRange), held);
    }
    let size = asked as usize;
    match opening::take_open(&mut words[..size], delta, epsilon, shelves, shelf_words) {
        Ok(()) => Done {
            outcome: Ok(()),
            size,
        },
        Err(question) => refused(Refusal::AnsweredNo(question), held),
    }
}
