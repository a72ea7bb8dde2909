//! Marking sources, and how many are marked.
ghost use Rattle.std.specs.Prelude.{◌≡◌, ◌%◌, ◌^◌, ◌<◌, ◌≤◌, true, length, if◌then◌else◌, Some, count_ones, nat_lt};
ghost use Rattle.event.specs.Identifiers.{bit};
ghost use Rattle.event.specs.View.{held, held_if};
ghost use Rattle.marks.specs.Marking.{unmarked, update};
ghost use Rattle.marks.specs.View.{marks_of, occurrences_in};
ghost use Rattle.marks.specs.Written.{nothing_in};

use crate::types::{Marked, Marks};
use board::Board;
use event::reading::Reading;

impl Marks {
    /// No marks.
    pub fn none() -> Marks
        ensures { marks_of result ≡ unmarked }
    {
        Marks {
            set: 0,
            readings: [Reading::empty(); 64],
        }
    }

    /// Takes every mark away.
    pub fn clear(&mut self)
        ensures { marks_of self.new ≡ unmarked }
    {
        self.set = 0;
    }

    /// Marks a place, with the reading there, and says whether it did: no board has a place of 64 or more, and there
    /// nothing changes.
    pub fn mark(&mut self, place: usize, reading: Reading) -> bool
        ensures taken { result ≡ nat_lt place 64 }
        ensures after { marks_of self.new ≡ (if nat_lt place 64 then update (marks_of self.old) place (Some (held reading)) else marks_of self.old) }
    {
        if place >= 64 {
            return false;
        }
        self.readings[place] = reading;
        self.set |= 1 << place;
        true
    }

    /// The reading at the latest change of a place, if it is marked.
    pub fn get(&self, place: usize) -> Option<Reading>
        ensures { held_if result ≡ marks_of self.now place }
    {
        is_set(self.set, place).then_some(*self.readings.get(place)?)
    }
}

impl<B: Board> Marked<'_, B> {
    /// How many sources of the board are marked.
    pub fn number(&self) -> u8
        ensures { result ≡ length (occurrences_in B.Board.told self.now) }
    {
        ones_below(self.marks.set, self.board.count())
    }

    /// Whether no source of the board is marked.
    pub fn is_empty(&self) -> bool
        ensures { result ≡ nothing_in (occurrences_in B.Board.told self.now) }
    {
        self.number() == 0
    }
}

// Whether the bit at the place is set.
fn is_set(set: u64, place: usize) -> bool
    ensures is { result ≡ bit set place }
    ensures below { result ≡ true → place < 64 }
{
    place < 64 && (set >> place) % 2 == 1
}

// How many of the lowest `count` bits are set.
fn ones_below(set: u64, count: usize) -> u8
    requires { count ≤ 64 }
    ensures { result ≡ count_ones (set % 2 ^ count) }
{
    let below = if count < 64 { set % (1 << count) } else { set };
    below.count_ones() as u8
}
