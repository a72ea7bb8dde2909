//! Messages as they are read: each has its list as a part of the bytes that it was read from.
use event::delay::Delays;
use list::types::OccurrenceList;

/// The two requests.
#[derive(Clone, Copy, PartialEq, Eq, Debug)]
pub enum Kind {
    /// Switches events on and off, and asks for the readings of all that are on.
    Sync,
    /// Acknowledges an event message, and asks for what changed since.
    Ack,
}

/// An item of an enable list: switches an event on or off.
#[derive(Clone, Copy, PartialEq, Eq, Debug)]
pub struct Item {
    pub identifier: u8,
    pub on: bool,
}

/// The items of an enable list that are left to read.
// The occurrences of a list have a type of the same shape: one for both would need a trait of what splits a part off, with a
// law that is longer than either.
#[derive(Clone, Copy)]
pub struct Items<'a> {
    pub(crate) number: u8,
    pub(crate) rest: &'a [u8],
}

/// A message. Sync and Ack are requests to the endpoint; Event and Answer come from it.
#[derive(Clone, Copy)]
pub enum Message<'a> {
    /// Switches events on and off, and asks for the readings of all that are on.
    Sync {
        slot: bool,
        delays: Delays,
        items: Items<'a>,
    },
    /// Acknowledges an event message, and asks for what changed since. Its enable list, from the start to the total length,
    /// names nothing.
    Ack {
        slot: bool,
        list: &'a [u8],
    },
    /// What changed.
    Event {
        generation: u8,
        retries: u8,
        list: OccurrenceList<'a>,
    },
    /// The readings that a request asked for.
    Answer {
        slot: bool,
        list: OccurrenceList<'a>,
    },
}
