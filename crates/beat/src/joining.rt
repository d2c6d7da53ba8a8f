// Join: two takes in order go to a third shelf. Both may be the same shelf.
ghost use Rattle.std.specs.Prelude.{◌≡◌, not, ◌&&◌, ◌<◌, eqb};
ghost use Rattle.model.specs.Session.{shelf};
ghost use Rattle.model.specs.Soundness.{sound_shelf};
ghost use Rattle.model.specs.Machine.{join_call};
ghost use Rattle.model.specs.Numbers.{answer_number};
ghost use Rattle.model.specs.Questions.{number, after};
ghost use Rattle.beat.specs.Joining.{join_asked};

use crate::shelves;
use cuts::{counting, joined};
use model::Header;
use model::questions::Question;
use session::header;
use session::view::SessionView;

// Question 3: does the result's shelf differ from both takes'?
fn differs(first: u32, second: u32, res: u32) -> bool
    ensures { result ≡ (not (eqb res first) && not (eqb res second)) }
{
    res != first && res != second
}

// Question 4: are both shelves sound? One that is both takes' is looked at once.
fn are_sound(s: SessionView, first: u32, second: u32) -> bool
    requires { (first < s.header.shelves) × (second < s.header.shelves) }
    ensures { result ≡ (sound_shelf s.entry.header (shelf s.entry.header s.entry.words.now first) && sound_shelf s.entry.header (shelf s.entry.header s.entry.words.now second)) }
{
    shelves::is_sound(s, first) && (first == second || shelves::is_sound(s, second))
}

// Questions 2, 3, 4, 6 and 8: the first that is answered no.
#[tactic(auto, using(crate::proofs::Joins::asked_is))]
fn asked(s: SessionView, first: u32, second: u32, res: u32) -> Result<(), Question>
    ensures { answer_number result ≡ join_asked s.entry.header s.entry.words.now first second res }
{
    if !shelves::shelves_ok(s.header, first, second, res) {
        return Err(Question::ShelvesBelow);
    }
    if !differs(first, second, res) {
        return Err(Question::ShelvesDiffer);
    }
    if !are_sound(s, first, second) {
        return Err(Question::ShelvesSound);
    }
    if Header::BEATS < joined::beats_at(s, first) + joined::beats_at(s, second) {
        return Err(Question::BeatsFew);
    }
    if !counting::join_fits(s, first, second) {
        return Err(Question::ResultFits);
    }
    Ok(())
}

// Joins the takes in two shelves, the second behind the first, into a third. Refuses with the first question that is answered no.
pub fn take_join(session: &mut [u32], first: u32, second: u32, res: u32) -> Result<(), Question>
    ensures number { answer_number result ≡ number session.old (join_call first second res) }
    ensures words { session.new ≡ after session.old (join_call first second res) }
{
    let header = header::read(session)?;
    let read = SessionView {
        words: session,
        header,
    };
    asked(read, first, second, res)?;
    joined::put_joined(session, header, first, second, res);
    Ok(())
}
