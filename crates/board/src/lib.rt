//! Boards: the sources of a drive, by what they mean.
#![tactic(auto)]

pub mod change;
pub mod drive;
mod status;
pub mod table;

ghost use Rattle.std.specs.Prelude.{◌≡◌, true, length};
ghost use Rattle.event.specs.View.{held_if};
ghost use Rattle.event.specs.Sources.{ids};
ghost use Rattle.board.specs.Boards.{Sources, at, reading_of, lawful_board, takes, after_set};

use event::id::UniqueId;
use event::reading::Reading;

/// An ordered list of 1 to 64 sources, no ID twice. Each has an ID, which stays, and a reading, which changes.
pub trait Board {
    /// The sources in their order, each with its present reading.
    ghost told: { Self → Sources };

    /// How many sources there are.
    fn count(&self) -> usize
        ensures { result ≡ length (told self.now) };

    /// The ID of the source at a place.
    fn id(&self, place: usize) -> Option<UniqueId>
        ensures { result ≡ at (ids (told self.now)) place };

    /// The present reading of the source at a place.
    fn reading(&self, place: usize) -> Option<Reading>
        ensures { held_if result ≡ reading_of (at (told self.now) place) };

    /// Gives the source at a place another reading, and says whether it was taken: the place has a source, and the
    /// reading is lawful there. Else nothing changes.
    fn set(&mut self, place: usize, reading: &[u8]) -> bool
        ensures taken { result ≡ takes (told self.old) place reading.now }
        ensures after { told self.new ≡ after_set (told self.old) place reading.now };

    /// A board is lawful at all times.
    ghost lawful: { (b : Self) → lawful_board (told b) ≡ true };
}
