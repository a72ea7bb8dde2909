//! The occurrences of a list, one after the other.
ghost use Rattle.std.specs.Prelude.{◌≡◌, false, ◌&&◌, length, drop, MatchOption, nat_le};
ghost use Rattle.list.specs.Lists.{reading_length, front};
ghost use Rattle.list.specs.Reader.{Begins};
ghost use Rattle.list.specs.View.{Yields};
ghost use Rattle.std.specs.Iterator.{at_most};

use crate::types::{Front, Occurrences};
use event::id::UniqueId;
use event::occurrence::Occurrence;
use event::reading::Reading;

// What stands at the front of the bytes, if they have the nine bytes of an occurrence and its reading.
pub(crate) fn first(bytes: &[u8]) -> Option<Front<'_>>
    ensures { MatchOption result ((nat_le 9 (length bytes.now) && nat_le (reading_length bytes.now) (length (drop 9 bytes.now))) ≡ false) (λ f. Begins bytes.now f) }
{
    let (head, behind) = bytes.split_first_chunk::<9>()?;
    // Four names for the info: `info @ ..` gets no proof.
    let [mark, specific, vendor, identifier, a, b, c, d, scope] = *head;
    let length = usize::from(specific) + usize::from(vendor);
    let (reading, rest) = behind.split_at_checked(length)?;
    let info = u32::from_le_bytes([a, b, c, d]);
    Some(Front {
        mark,
        specific,
        vendor,
        id: UniqueId {
            identifier,
            scope,
            info,
        },
        reading,
        rest,
    })
}

/// The occurrences that are left, in their order.
impl Iterator for Occurrences<'_> {
    type Item = Occurrence;

    ghost next_gives = { λ s r t. Yields s r t };

    ghost remaining = { λ s. at_most s.number };

    /// The next occurrence, if one is left.
    fn next(&mut self) -> Option<Occurrence> {
        let number = self.number.checked_sub(1)?;
        let found = first(self.rest)?;
        let reading = Reading::new(found.reading)?;
        self.number = number;
        self.rest = found.rest;
        Some(Occurrence {
            id: found.id,
            reading,
        })
    }
}
