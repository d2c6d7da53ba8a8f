// The C library: the six calls, exported to C under the clauses of the functions that they call. C takes a number for an answer, and one list for a
// session that is read and written.
#![tactic(auto)]

ghost use Rattle.std.specs.Prelude.{◌≡◌, length};
ghost use Rattle.model.specs.Machine.{open_call, lay_call, split_call, join_call};
ghost use Rattle.model.specs.Questions.{number, after};
ghost use Rattle.file.specs.Calls.{load_number, load_after, write_number, write_count, write_output};

use beat::{joining, laying, opening, splitting};
use file::{loading, writing};
use model::questions::answer_number;

// Writes δ, ε, K, W and zeros. Returns 1, and changes nothing, where they are out of range or the list is not as long as they say.
#[unsafe(no_mangle)]
pub extern "C" fn take_open(
    session: &mut [u32],
    delta: u32,
    epsilon: u32,
    shelves: u32,
    shelf_words: u32,
) -> u32
    ensures number { result ≡ number session.old (open_call (record { delta = delta; epsilon = epsilon; shelves = shelves; words = shelf_words })) }
    ensures words { session.new ≡ after session.old (open_call (record { delta = delta; epsilon = epsilon; shelves = shelves; words = shelf_words })) }
{
    answer_number(opening::take_open(session, delta, epsilon, shelves, shelf_words))
}

// Lays a note list of so many beats in a shelf, with all its cells. Returns the number of the first question answered no, or 0.
#[unsafe(no_mangle)]
pub extern "C" fn take_lay(session: &mut [u32], shelf: u32, beats: u32, notes: &[u32]) -> u32
    ensures number { result ≡ number session.old (lay_call shelf beats notes.now) }
    ensures words { session.new ≡ after session.old (lay_call shelf beats notes.now) }
{
    answer_number(laying::take_lay(session, shelf, beats, notes))
}

// Splits a take at a beat: its beats before that beat go to the left shelf, the others to the right shelf. Returns the number of the
// first question answered no, or 0.
#[unsafe(no_mangle)]
pub extern "C" fn take_split(
    session: &mut [u32],
    take: u32,
    beat: u32,
    left: u32,
    right: u32,
) -> u32
    ensures number { result ≡ number session.old (split_call take beat left right) }
    ensures words { session.new ≡ after session.old (split_call take beat left right) }
{
    answer_number(splitting::take_split(session, take, beat, left, right))
}

// Joins the takes in two shelves, the second behind the first, into a third. Returns the number of the first question answered no, or 0.
#[unsafe(no_mangle)]
pub extern "C" fn take_join(session: &mut [u32], first: u32, second: u32, res: u32) -> u32
    ensures number { result ≡ number session.old (join_call first second res) }
    ensures words { session.new ≡ after session.old (join_call first second res) }
{
    answer_number(joining::take_join(session, first, second, res))
}

// Loads a file in a shelf: its notes are laid. Returns the number of the first question answered no, or 0.
#[unsafe(no_mangle)]
pub extern "C" fn take_load(session: &mut [u32], shelf: u32, file: &[u8]) -> u32
    ensures number { result ≡ load_number session.old shelf file.now }
    ensures words { session.new ≡ load_after session.old shelf file.now }
{
    answer_number(loading::take_load(session, shelf, file))
}

// Writes a shelf's file to an output. Returns the number of the first question answered no, or 0; counts the file's bytes, and 0 for a refusal.
#[unsafe(no_mangle)]
pub extern "C" fn take_write(session: &[u32], shelf: u32, output: &mut [u8], count: &mut u64) -> u32
    ensures number { result ≡ write_number session.now shelf (length output.old) }
    ensures count { count.new ≡ write_count session.now shelf (length output.old) }
    ensures output { output.new ≡ write_output session.now shelf output.old }
{
    answer_number(writing::take_write(session, shelf, output, count))
}
