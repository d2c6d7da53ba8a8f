// The program: reads frames from standard input, a line each, and writes a line of answer for each. What is read and written is given in
// input and answers; here are the calls that read and write.
ghost use Rattle.std.specs.Prelude.{◌≡◌, ◌++◌, ◌+◌, ◌≤◌, [], length};
ghost use Rattle.frames.specs.Input.{written_last};
ghost use Rattle.frames.specs.Answering.{out_bytes, max_answer};
ghost use Rattle.frames.specs.Loop.{block_bytes, Flushed, ReadWhole, ReadSome, Reads, Last};

use crate::buffer::Buffer;
use crate::input::{MAX_ANSWER, Reading};
use crate::sessions::Session;
use std::io::{Read, Stdin, Stdout, Write};

// The bytes of input that are read at once.
const BLOCK_BYTES: usize = 65536;

// The bytes of answers that are collected before they are written.
const OUT_BYTES: usize = 65536;

// What is kept of the input so far, and the answers that are not yet written.
#[derive(Drop)]
struct Progress {
    reading: Reading,
    answers: Buffer<u8, OUT_BYTES>,
}

// Writes answers. Returns how many bytes they are.
fn send(to: &mut Stdout, answers: &[u8]) -> usize
    ensures { result ≡ length answers.now }
{
    // What the system answers is dropped: no contract names what it took, and the program has nobody else to tell.
    let _ = to.write_all(answers);
    answers.len()
}

impl Progress {
    // Writes the answers that are collected, and forgets them. Returns how many bytes they are.
    fn flush(&mut self, to: &mut Stdout) -> usize
        ensures { Flushed self.old result self.new }
    {
        let sent = send(to, self.answers.as_slice());
        self.answers.clear();
        sent
    }

    // Writes the answers that are collected if there is no room for another. Returns how many bytes are written.
    fn make_room(&mut self, to: &mut Stdout) -> usize
        ensures written { ReadWhole self.old [] result self.new }
        ensures few { result ≤ out_bytes }
        ensures room { length self.new.answers + max_answer ≤ out_bytes }
    {
        if self.answers.room() >= MAX_ANSWER {
            return 0;
        }
        self.flush(to)
    }

    // Reads on in a block, and collects the answers. Returns how many bytes it took.
    fn read_on(&mut self, block: &[u8]) -> usize
        ensures { Reads block.now self.old result self.new }
    {
        let stop = self
            .reading
            .read_on(block, &mut self.answers.items, self.answers.count);
        self.answers.count = stop.end;
        stop.taken
    }

    // Reads a whole block. Returns how many bytes of answers are written.
    fn read_block(&mut self, to: &mut Stdout, block: &[u8]) -> usize
        requires { length block.now ≤ block_bytes }
        ensures { ReadWhole self.old block.now result self.new }
    {
        let mut sent = 0;
        let mut left = block;
        // No `for`: each turn takes as many bytes as there is room for answers to.
        while !left.is_empty() {
            sent += self.make_room(to);
            let taken = self.read_on(left);
            left = &left[taken..];
        }
        sent
    }

    // Reads standard input to its end, or until the system cannot read it.
    fn read_all(&mut self, from: &mut Stdin, to: &mut Stdout)
        ensures { ReadSome self.old self.new }
    {
        let mut block = [0; BLOCK_BYTES];
        // No endless loop: a function here must end. A read of so many blocks is never reached.
        for _ in 0..u64::MAX {
            let n = from.read(&mut block).unwrap_or(0);
            if n == 0 {
                return;
            }
            self.read_block(to, &block[..n]);
        }
    }

    // Answers a last line without a line feed, if it has a character. Room for its answer is asked here, and in seven contracts of `input` and
    // `answers`: no type carries it, since answers use it up and a write makes it again, while what a type says holds all the time.
    fn last_line(&mut self)
        requires { length self.old.answers + max_answer ≤ out_bytes }
        ensures { self.new.answers ≡ self.old.answers ++ written_last self.old.reading }
    {
        if !self.reading.line.is_empty() {
            let count = self.answers.count;
            self.answers.count = self.reading.end_line(&mut self.answers.items, count);
        }
    }

    // Writes all that is collected, and then the answer to the last line. Returns how many bytes these are.
    fn finish(&mut self, to: &mut Stdout) -> usize
        ensures { Last self.old self.new result }
    {
        let sent = self.flush(to);
        self.last_line();
        sent + send(to, self.answers.as_slice())
    }
}

// Answers standard input to its end.
pub fn run(from: &mut Stdin, to: &mut Stdout) {
    let reading = Reading {
        session: Session::new(),
        line: Buffer::new(),
    };
    let mut progress = Progress {
        reading,
        answers: Buffer::new(),
    };
    progress.read_all(from, to);
    progress.finish(to);
}
