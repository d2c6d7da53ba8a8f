// Open: a fresh session.
ghost use Rattle.std.specs.Prelude.{◌≡◌, length, true};
ghost use Rattle.model.specs.Session.{fresh_words};
ghost use Rattle.model.specs.Machine.{open_call};
ghost use Rattle.model.specs.Numbers.{answer_number};
ghost use Rattle.model.specs.Questions.{header_ok, number, after};

use model::Header;
use model::questions::Question;

// Writes δ, ε, K, W and zeros. Refuses, and changes nothing, where they are out of range or the list is not as long as they say.
pub fn take_open(
    session: &mut [u32],
    delta: u32,
    epsilon: u32,
    shelves: u32,
    shelf_words: u32,
) -> Result<(), Question>
    ensures number { answer_number result ≡ number session.old (open_call (record { delta = delta; epsilon = epsilon; shelves = shelves; words = shelf_words })) }
    ensures words { session.new ≡ after session.old (open_call (record { delta = delta; epsilon = epsilon; shelves = shelves; words = shelf_words })) }
{
    let header = Header::new(delta, epsilon, shelves, shelf_words, session.len())?;
    put_fresh(session, header);
    Ok(())
}

// The header, and every shelf empty: zeros to the end.
fn put_fresh(s: &mut [u32], h: Header)
    requires { header_ok h (length s.old) ≡ true }
    ensures { s.new ≡ fresh_words h }
{
    // A conversion of a header to its words is no plainer: they are put here alone.
    words::put(s, 0, [h.delta, h.epsilon, h.shelves, h.words]);
    let end = s.len();
    words::zero_fill(s, Header::WORDS, end);
}
