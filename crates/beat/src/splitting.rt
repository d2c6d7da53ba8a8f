// Split: the beats of a take before a beat go to one shelf, the others to another.
ghost use Rattle.std.specs.Prelude.{◌≡◌, not, ◌&&◌, eqb};
ghost use Rattle.model.specs.Machine.{split_call};
ghost use Rattle.model.specs.Numbers.{answer_number};
ghost use Rattle.model.specs.Questions.{results, put_all, number, after};
ghost use Rattle.beat.specs.Splitting.{split_asked, SplitAsks};

use crate::shelves;
use cuts::{halves, joined};
use model::Header;
use model::questions::Question;
use session::header;
use session::view::SessionView;

// Question 3: are the three shelves different? They stand one by one, here and in a join, as the C interface names them.
fn differ(take: u32, left: u32, right: u32) -> bool
    ensures { result ≡ (not (eqb left right) && (not (eqb left take) && not (eqb right take))) }
{
    left != right && left != take && right != take
}

// Questions 2 to 5: the first that is answered no.
#[tactic(auto, using(crate::proofs::Splits::asked_is))]
fn asked(s: SessionView, take: u32, beat: u32, left: u32, right: u32) -> Result<(), Question>
    ensures { answer_number result ≡ split_asked s.entry.header s.entry.words.now take beat left right }
{
    if !shelves::shelves_ok(s.header, take, left, right) {
        return Err(Question::ShelvesBelow);
    }
    if !differ(take, left, right) {
        return Err(Question::ShelvesDiffer);
    }
    if !shelves::is_sound(s, take) {
        return Err(Question::ShelvesSound);
    }
    if joined::beats_at(s, take) < beat {
        return Err(Question::BeatWithin);
    }
    Ok(())
}

// Both halves of a take whose questions are answered yes. Each fits its shelf, by a law, so question 8 is not put.
fn put_halves(s: &mut [u32], h: Header, take: u32, beat: u32, left: u32, right: u32)
    requires { SplitAsks s.old h take beat left right }
    ensures { s.new ≡ put_all h s.old (results h s.old (split_call take beat left right)) }
{
    // Read at its place: a view that is made for one word is no plainer, and with it a split took a tenth longer.
    let at = header::shelf_at(h, take);
    let beats = s[at];
    let before = halves::left_half(h.delta, beat);
    let behind = halves::right_half(h.delta, beat, beats);
    halves::put_both(s, h, before, behind, take, left, right);
}

// Splits a take at a beat: its beats before that beat go to the left shelf, the others to the right shelf. Refuses with the first
// question that is answered no.
pub fn take_split(
    session: &mut [u32],
    take: u32,
    beat: u32,
    left: u32,
    right: u32,
) -> Result<(), Question>
    ensures number { answer_number result ≡ number session.old (split_call take beat left right) }
    ensures words { session.new ≡ after session.old (split_call take beat left right) }
{
    let header = header::read(session)?;
    let read = SessionView {
        words: session,
        header,
    };
    asked(read, take, beat, left, right)?;
    put_halves(session, header, take, beat, left, right);
    Ok(())
}
