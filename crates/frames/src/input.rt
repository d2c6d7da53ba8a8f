// Input that is taken byte by byte: lines, their answers, and what is kept between them.
ghost use Rattle.std.specs.Prelude.{◌≡◌, ◌+◌, ◌≤◌, length, take};
ghost use Rattle.frames.specs.Input.{kept};
ghost use Rattle.frames.specs.Answering.{max_answer};
ghost use Rattle.frames.specs.Blocks.{TakesOne, ReadOn};
ghost use Rattle.frames.specs.Lent.{max_kept, Holds, TakesOneIn, ReadOnIn};

use crate::answers;
use crate::buffer::Buffer;
use crate::sessions::Session;

// Characters of a line that are kept, one more than a frame may have.
pub const MAX_KEPT: usize = 4001;

// No answer is longer: two digits, those of the largest file, and a line feed.
pub const MAX_ANSWER: usize = 16387;

// The byte that ends a line.
const LINE_FEED: u8 = b'\n';

// What is kept of the input so far: the session, and the characters of the line in hand.
#[derive(Drop)]
pub struct Reading {
    pub session: Session,
    pub line: Buffer<u8, MAX_KEPT>,
}

// Where reading stopped: how many bytes of the block are taken, and the place behind the last answer.
#[derive(Clone, Copy)]
pub struct Stop {
    pub taken: usize,
    pub end: usize,
}

// Where reading stands in lists that are lent: the place in the block, the characters kept of the line in hand, the length of the session
// and the place behind the last answer.
#[derive(Clone, Copy)]
pub struct Progress {
    pub at: usize,
    pub kept: usize,
    pub length: usize,
    pub end: usize,
}

// Where reading came to.
fn reached(at: usize, kept: usize, length: usize, end: usize) -> Progress
    ensures { result ≡ record { at = at; kept = kept; length = length; end = end } }
{
    Progress {
        at,
        kept,
        length,
        end,
    }
}

// Keeps a character of the line in hand, if no more than 4,000 are kept. Returns how many are.
fn keep(line: &mut [u8], count: usize, c: u8) -> usize
    requires whole { length line.old ≡ max_kept }
    requires within { count ≤ max_kept }
    ensures few { result ≤ max_kept }
    ensures character { take result line.new ≡ kept (take count line.old) c }
{
    if count < MAX_KEPT {
        line[count] = c;
        return count + 1;
    }
    count
}

// Answers the line in hand, which then is empty.
pub fn end_line(line: &[u8], words: &mut [u32], out: &mut [u8], p: Progress) -> Progress
    requires holds { Holds line.now words.old p }
    requires room { p.end + max_answer ≤ length out.old }
    ensures { TakesOneIn line.now words.old out.old p 10 line.now words.new out.new result }
{
    let done = answers::answer_in(&line[..p.kept], words, p.length, out, p.end);
    reached(p.at, 0, done.length, done.end)
}

// Reads on in a block from p's place, to its end or until the output has no room for another answer.
pub fn read_on(
    block: &[u8],
    line: &mut [u8],
    words: &mut [u32],
    out: &mut [u8],
    p: Progress,
) -> Progress
    requires holds { Holds line.old words.old p }
    requires at { p.at ≤ length block.now }
    requires end { p.end ≤ length out.old }
    ensures { ReadOnIn block.now line.old words.old out.old p line.new words.new out.new result }
{
    // Three numbers and no `Progress`: that would be written to memory, and read again, for each character.
    let mut kept = p.kept;
    let mut length = p.length;
    let mut end = p.end;
    for (i, c) in block[p.at..].iter().enumerate() {
        if out.len() - end < MAX_ANSWER {
            return reached(p.at + i, kept, length, end);
        }
        if *c == LINE_FEED {
            let done = answers::answer_in(&line[..kept], words, length, out, end);
            kept = 0;
            length = done.length;
            end = done.end;
        } else {
            kept = keep(line, kept, *c);
        }
    }
    reached(block.len(), kept, length, end)
}

// Answers are written from place `at` of any slice on, and what is returned is the place behind them.
impl Reading {
    // Answers the line in hand, which then is empty.
    pub fn end_line(&mut self, out: &mut [u8], at: usize) -> usize
        requires { at + max_answer ≤ length out.old }
        ensures { TakesOne self.old out.old at 10 self.new out.new result }
    {
        let p = reached(0, self.line.count, self.session.count, at);
        let ended = end_line(&self.line.items, &mut self.session.items, out, p);
        self.line.count = ended.kept;
        self.session.count = ended.length;
        ended.end
    }

    // Reads on in a block, to its end or until the output has no room for another answer.
    pub fn read_on(&mut self, block: &[u8], out: &mut [u8], at: usize) -> Stop
        requires { at ≤ length out.old }
        ensures { ReadOn block.now self.old out.old at self.new out.new result }
    {
        let p = reached(0, self.line.count, self.session.count, at);
        let q = read_on(block, &mut self.line.items, &mut self.session.items, out, p);
        self.line.count = q.kept;
        self.session.count = q.length;
        Stop {
            taken: q.at,
            end: q.end,
        }
    }
}
