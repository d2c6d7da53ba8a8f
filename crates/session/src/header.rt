// Questions 1 and 2, and the place of a shelf.
ghost use Rattle.std.specs.Prelude.{◌≡◌, ◌≤◌, ◌<◌, length};
ghost use Rattle.model.specs.Limits.{max_shelves, max_words};
ghost use Rattle.model.specs.Session.{header_of, shelf_at, words_of_header};
ghost use Rattle.model.specs.Numbers.{answer_of};
ghost use Rattle.model.specs.Answers.{header_asked};
ghost use Rattle.session.specs.Entering.{entry_asked};

use model::Header;
use model::questions::Question;

// Question 1 on the session's own words.
pub fn read(s: &[u32]) -> Result<Header, Question>
    ensures { answer_of words_of_header result ≡ header_asked (header_of s.now) (length s.now) }
{
    let &[delta, epsilon, shelves, words, ..] = s else {
        return Err(Question::HeaderInRange);
    };
    Header::new(delta, epsilon, shelves, words, s.len())
}

// Questions 1 and 2 of a call that names one shelf.
pub fn enter(s: &[u32], shelf: u32) -> Result<Header, Question>
    ensures { answer_of words_of_header result ≡ entry_asked s.now shelf }
{
    let header = read(s)?;
    if shelf < header.shelves {
        Ok(header)
    } else {
        Err(Question::ShelvesBelow)
    }
}

// The place of a shelf's first word.
pub fn shelf_at(h: Header, shelf: u32) -> usize
    requires { (shelf < h.shelves) × (h.shelves ≤ max_shelves) × (h.words ≤ max_words) }
    ensures { result ≡ shelf_at h shelf }
{
    Header::WORDS + (shelf as usize) * (h.words as usize)
}
