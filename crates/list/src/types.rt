//! A list of occurrences as a part of the bytes that it was read from.
use event::id::UniqueId;

/// The occurrences of a list that are left to read.
// The items of an enable list have a type of the same shape: one for both would need a trait of what splits a part off, with a
// law that is longer than either.
#[derive(Clone, Copy)]
pub struct Occurrences<'a> {
    pub(crate) number: u8,
    pub(crate) rest: &'a [u8],
}

/// The occurrences would take more bytes than a list may have.
#[derive(Clone, Copy, PartialEq, Eq, Debug)]
pub struct Overflow;

/// What a list tells: its occurrences, or that they would take too many bytes.
pub type OccurrenceList<'a> = Result<Occurrences<'a>, Overflow>;

/// A lawful list, with the transmission info of its header.
#[derive(Clone, Copy)]
pub struct ListRead<'a> {
    pub transmission: u8,
    pub list: OccurrenceList<'a>,
}

/// What stands at the front of some bytes: the nine bytes of an occurrence, its reading, and the bytes behind it.
#[derive(Clone, Copy)]
pub(crate) struct Front<'a> {
    pub(crate) mark: u8,
    pub(crate) specific: u8,
    pub(crate) vendor: u8,
    pub(crate) id: UniqueId,
    pub(crate) reading: &'a [u8],
    pub(crate) rest: &'a [u8],
}
