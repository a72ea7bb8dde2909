//! What a book tells of itself.
ghost use Rattle.std.specs.Prelude.{◌≡◌};
ghost use Rattle.book.specs.Turns.{entry_at};
ghost use Rattle.book.specs.View.{occurrence_if};

use crate::parts::Book;
use event::occurrence::Occurrence;
use protocol::types::Phase;

impl Book {
    /// What the book knows.
    pub fn phase(&self) -> Phase
        ensures { result ≡ self.now.phase }
    {
        self.phase
    }

    /// The entry at a place, counted from 0. There is none past the last one, nor while the book shows nothing.
    pub fn entry(&self, place: usize) -> Option<Occurrence>
        ensures { occurrence_if result ≡ entry_at self.now place }
    {
        self.may_show().ok()?;
        self.table.at(place)
    }
}
