// A session that is read.
ghost use Rattle.std.specs.Prelude.{◌≡◌, true, length};
ghost use Rattle.model.specs.Questions.{header_ok};

use crate::header;
use model::Header;

// The words of a session, with the header that question 1 was answered yes for. A call that writes takes the two apart: no struct that
// lends words to write may have such a promise beside them.
#[derive(Clone, Copy)]
pub struct SessionView<'a> {
    pub words: &'a [u32],
    pub header: Header,
    pub ghost ok: { header_ok header (length words.now) ≡ true },
}

impl<'a> SessionView<'a> {
    ghost use Rattle.std.specs.Prelude.{◌<◌};
    ghost use Rattle.model.specs.Session.{shelf};

    // The words of a shelf.
    pub fn shelf(self, take: u32) -> &'a [u32]
        requires { take < self.header.shelves }
        ensures words { result.now ≡ shelf self.entry.header self.entry.words.now take }
        ensures long { length result.now ≡ self.entry.header.words }
    {
        let at = header::shelf_at(self.header, take);
        &self.words[at..at + (self.header.words as usize)]
    }
}
