// Write: a shelf's file goes to a lent output.
ghost use Rattle.std.specs.Prelude.{◌≡◌, ◌<◌, length};
ghost use Rattle.model.specs.Session.{shelf};
ghost use Rattle.model.specs.Numbers.{answer_number};
ghost use Rattle.file.specs.Calls.{write_number, write_count, write_output};
ghost use Rattle.file.specs.Writing.{file_answer, file_left};

use model::questions::Question;
use session::view::SessionView;
use session::{header, sound};
use writer::files;

// Questions 4 and 15: the file of a shelf, if the shelf is sound and the file fits the output. Returns its length.
#[tactic(auto, using(crate::proofs::Writes::too_short, crate::proofs::Writes::sound_asks, crate::proofs::Writes::part_asks))]
fn put_file(s: SessionView, take: u32, output: &mut [u8]) -> Result<usize, Question>
    requires { take < s.header.shelves }
    ensures answer { result ≡ file_answer s.entry.header (shelf s.entry.header s.entry.words.now take) output.old }
    ensures output { output.new ≡ file_left s.entry.header (shelf s.entry.header s.entry.words.now take) output.old }
{
    let part = s.shelf(take);
    if !sound::sound(s.header, part) {
        return Err(Question::ShelvesSound);
    }
    // No file is shorter than its header: so short an output is refused before many notes are put in order, up to three times as fast.
    if output.len() < 22 {
        return Err(Question::FileFits);
    }
    files::put_shelf_file(s.header, part, output).ok_or(Question::FileFits)
}

// Writes a shelf's file to an output, and counts the file's bytes: into a lent place, as the C interface that these clauses are those of. Refuses
// with the first question that is answered no, and counts 0 then.
pub fn take_write(
    session: &[u32],
    shelf: u32,
    output: &mut [u8],
    count: &mut u64,
) -> Result<(), Question>
    ensures number { answer_number result ≡ write_number session.now shelf (length output.old) }
    ensures count { count.new ≡ write_count session.now shelf (length output.old) }
    ensures output { output.new ≡ write_output session.now shelf output.old }
{
    *count = 0;
    let header = header::enter(session, shelf)?;
    let read = SessionView {
        words: session,
        header,
    };
    *count = put_file(read, shelf, output)? as u64;
    Ok(())
}
