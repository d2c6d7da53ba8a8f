// The answer to a line: what it leaves of the session, and the line that is written for it.
ghost use Rattle.std.specs.Prelude.{◌≡◌, [], ◌∷◌, ◌++◌, ◌+◌, ◌≤◌, length};
ghost use Rattle.frames.specs.Digits.{byte_digits};
ghost use Rattle.frames.specs.Lines.{write_of, call_of, frame_of, frame_in};
ghost use Rattle.frames.specs.Answers.{max_session, answer_of};
ghost use Rattle.frames.specs.Calling.{number_in};
ghost use Rattle.frames.specs.Answering.{max_answer, Put, Answers};
ghost use Rattle.frames.specs.Lent.{AnswersIn};

use crate::calls::{OUTPUT_BYTES, Refusal};
use crate::sessions::Session;
use crate::{calls, digits};

// What a line leaves: the length of the session in words, and the place behind the answer in the output.
#[derive(Clone, Copy)]
pub struct Answered {
    pub length: usize,
    pub end: usize,
}

// What is left where the session has this length, and the answer ends here.
fn leaves(length: usize, end: usize) -> Answered
    ensures { result ≡ record { length = length; end = end } }
{
    Answered { length, end }
}

// The number of an outcome.
fn number(outcome: Result<(), Refusal>) -> u8
    ensures { result ≡ number_in outcome }
{
    match outcome {
        Ok(()) => 0,
        Err(refusal) => u8::from(refusal),
    }
}

// The answers are written from a place of any slice on that is long enough: each function here asks for the room that is left there. A struct of
// slice and place would be lent on field by field.

// Writes an answer without a file from place `at` on: its number and a line feed. Returns the place behind it.
fn put_number(out: &mut [u8], at: usize, outcome: Result<(), Refusal>) -> usize
    requires { at + 3 ≤ length out.old }
    ensures { Put out.old at (byte_digits (number_in outcome) ++ 10 ∷ []) out.new result }
{
    digits::put_byte(out, at, number(outcome));
    out[at + 2] = b'\n';
    at + 3
}

// Writes the answer to a write frame: the number, the written file and a line feed.
fn answer_write(session: &[u32], bytes: &[u8], out: &mut [u8], at: usize) -> usize
    requires { at + max_answer ≤ length out.old }
    ensures { Put out.old at (answer_of session.now (write_of bytes.now)) out.new result }
{
    let mut file = [0; OUTPUT_BYTES];
    match calls::write(session, bytes, &mut file) {
        Ok(size) => {
            digits::put_byte(out, at, 0);
            let end = digits::put_digits(out, at + 2, &file[..size]);
            out[end] = b'\n';
            end + 1
        }
        Err(refusal) => put_number(out, at, Err(refusal)),
    }
}

// Carries a call out on the session, the first `held` words of a list that is lent, so that no caller copies one. Writes its answer.
fn answer_call(
    call: u8,
    bytes: &[u8],
    words: &mut [u32],
    held: usize,
    out: &mut [u8],
    at: usize,
) -> Answered
    requires room { at + max_answer ≤ length out.old }
    requires few { length bytes.now ≤ 2000 }
    requires within { held ≤ max_session }
    requires whole { length words.old ≡ max_session }
    ensures { AnswersIn words.old held out.old at (call_of call bytes.now) words.new out.new result }
{
    match call {
        1 => {
            let done = calls::open_frame(words, held, bytes);
            leaves(done.size, put_number(out, at, done.outcome))
        }
        5 => leaves(held, answer_write(&words[..held], bytes, out, at)),
        _ => {
            let outcome = calls::change(&mut words[..held], call, bytes);
            leaves(held, put_number(out, at, outcome))
        }
    }
}

// Answers a frame's bytes; a frame of no bytes is malformed.
fn answer_frame(frame: &[u8], words: &mut [u32], held: usize, out: &mut [u8], at: usize) -> Answered
    requires room { at + max_answer ≤ length out.old }
    requires few { length frame.now ≤ 2000 }
    requires within { held ≤ max_session }
    requires whole { length words.old ≡ max_session }
    ensures { AnswersIn words.old held out.old at (frame_of frame.now) words.new out.new result }
{
    match frame {
        [call, bytes @ ..] => answer_call(*call, bytes, words, held, out, at),
        [] => leaves(held, put_number(out, at, Err(Refusal::Malformed))),
    }
}

// Answers a line: carries its call out on the session, the first `held` words, and writes the answer from place `at` on.
pub fn answer_in(line: &[u8], words: &mut [u32], held: usize, out: &mut [u8], at: usize) -> Answered
    requires room { at + max_answer ≤ length out.old }
    requires within { held ≤ max_session }
    requires whole { length words.old ≡ max_session }
    ensures { AnswersIn words.old held out.old at (frame_in line.now) words.new out.new result }
{
    let mut bytes = [0; digits::MAX_BYTES];
    match digits::decode(line, &mut bytes) {
        Some(count) => answer_frame(&bytes[..count], words, held, out, at),
        None => leaves(held, put_number(out, at, Err(Refusal::Malformed))),
    }
}

// Answers a line on a session that owns its words. Returns the place behind the answer.
pub fn answer(line: &[u8], session: &mut Session, out: &mut [u8], at: usize) -> usize
    requires { at + max_answer ≤ length out.old }
    ensures { Answers session.old out.old at (frame_in line.now) session.new out.new result }
{
    let done = answer_in(line, &mut session.items, session.count, out, at);
    session.count = done.length;
    done.end
}
