//! Entering occurrences into the table, and finding them.
ghost use Rattle.std.specs.Prelude.{◌≡◌, true, [], length, nat_le};
ghost use Rattle.event.specs.View.{held_if, occurrence_of};
ghost use Rattle.board.specs.Boards.{at as in_place};
ghost use Rattle.list.specs.View.{left};
ghost use Rattle.protocol.specs.Book.{find as entry_of, enter as with_entry, merge as with_entries};
ghost use Rattle.book.specs.Tables.{rows, entered};
ghost use Rattle.book.specs.View.{occurrence_if};

use crate::table::Table;
use event::id::UniqueId;
use event::occurrence::Occurrence;
use event::reading::Reading;
use keys::find;
use list::types::Occurrences;

impl Table {
    // A table without an entry.
    pub(crate) fn new() -> Table
        ensures { rows result ≡ [] }
    {
        Table {
            keys: Default::default(),
            readings: Default::default(),
            len: 0,
        }
    }

    // Removes all entries. What the arrays hold stays there, and counts no longer.
    pub(crate) fn clear(&mut self)
        ensures { rows self.new ≡ [] }
    {
        self.len = 0;
    }

    // The reading that is entered for a source.
    pub(crate) fn get(&self, id: UniqueId) -> Option<Reading>
        ensures { held_if result ≡ entry_of id (rows self.now) }
    {
        let i = find(&self.keys[0..self.len], &id)?;
        Some(self.readings[i])
    }

    // The entry at a place.
    pub(crate) fn at(&self, place: usize) -> Option<Occurrence>
        ensures { occurrence_if result ≡ in_place (rows self.now) place }
    {
        if place >= self.len {
            return None;
        }
        Some(Occurrence {
            id: self.keys[place],
            reading: self.readings[place],
        })
    }

    // Replaces the entry of a source or adds one, unless it were the 65th, and says whether it did.
    pub(crate) fn enter(&mut self, occurrence: Occurrence) -> bool
        ensures fits { result ≡ nat_le (length (with_entry (occurrence_of occurrence) (rows self.old))) 64 }
        ensures rows { rows self.new ≡ entered (occurrence_of occurrence) (rows self.old) }
    {
        match find(&self.keys[0..self.len], &occurrence.id) {
            Some(i) => {
                self.readings[i] = occurrence.reading;
                true
            }
            None if self.len >= 64 => false,
            None => {
                self.keys[self.len] = occurrence.id;
                self.readings[self.len] = occurrence.reading;
                self.len += 1;
                true
            }
        }
    }

    // Enters each occurrence of a list, and says whether there is room for all. Where there is not, some are entered.
    pub(crate) fn merge(&mut self, list: Occurrences) -> bool
        ensures fits { result ≡ nat_le (length (with_entries (rows self.old) (left list.entry))) 64 }
        ensures rows { result ≡ true → rows self.new ≡ with_entries (rows self.old) (left list.entry) }
    {
        // A loop: of what a closure changes, a proof knows nothing.
        for occurrence in list {
            if !self.enter(occurrence) {
                return false;
            }
        }
        true
    }
}
