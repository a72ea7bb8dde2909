//! Entries in fixed memory.
ghost use Rattle.std.specs.Prelude.{◌≡◌, ◌≤◌, length};

use event::id::UniqueId;
use event::reading::Reading;

/// At most 64 entries. The unique IDs stand in a row of their own, since the search for a key goes over a slice of keys,
/// and their readings stand beside them.
// Arrays with a count, not vectors: the kit's vector writes a blank over each element when it is emptied, so that
// forgetting would cost as much as what the table held. Here it is one number that is written.
#[derive(Drop)]
pub struct Table {
    pub(crate) keys: [UniqueId; 64],
    pub(crate) readings: [Reading; 64],
    pub(crate) len: usize,
    ghost few: { len ≤ 64 },
    ghost keyed: { length keys ≡ 64 },
    ghost read: { length readings ≡ 64 },
}
