//! Occurrences: a source with a reading of it.
use crate::id::UniqueId;
use crate::reading::Reading;

/// A source, by its unique ID, with a reading of it.
#[derive(Clone, Copy, Default)]
pub struct Occurrence {
    pub id: UniqueId,
    pub reading: Reading,
}
