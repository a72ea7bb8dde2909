//! The items of an enable list.
ghost use Rattle.std.specs.Prelude.{◌≡◌, ◌+◌, ℕ, [], ◌∷◌, MatchOption};
ghost use Rattle.std.specs.Iterator.{YieldsFirst, at_most};
ghost use Rattle.wire.specs.Requests.{items_in, items_fit};
ghost use Rattle.wire.specs.View.{left};

use crate::types::{Item, Items};

// The item at the front of the bytes and the bytes behind it, if an item of at least 3 bytes stands there.
fn split_item<'a>(part: &'a [u8]) -> Option<(Item, &'a [u8])>
    ensures { MatchOption result ((n : ℕ) → items_in n part.now ≡ []) (λ s. (n : ℕ) → items_in (n + 1) part.now ≡ s.0 ∷ items_in n s.1.now) }
{
    let [length @ 3.., identifier, switch, ..] = part else {
        return None;
    };
    let rest = part.get(usize::from(*length)..)?;
    let item = Item {
        identifier: *identifier,
        on: *switch >= 0x80,
    };
    Some((item, rest))
}

// Whether so many items fit into the bytes, each stepped by its length.
pub(crate) fn items_fit(number: u8, part: &[u8]) -> bool
    ensures { result ≡ items_fit number part.now }
{
    Items { number, rest: part }.count() == usize::from(number)
}

/// The items that are left, in their order.
impl<'a> Iterator for Items<'a> {
    type Item = Item;

    ghost next_gives = { YieldsFirst left };

    ghost remaining = { λ s. at_most s.number };

    /// The next item, if one is left.
    fn next(&mut self) -> Option<Item> {
        let number = self.number.checked_sub(1)?;
        let (item, rest) = split_item(self.rest)?;
        *self = Items { number, rest };
        Some(item)
    }
}
