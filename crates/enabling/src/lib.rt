//! What a sync enables: its items switch events on and off, and its answer lists the sources that are enabled then.
#![tactic(auto)]

ghost use Rattle.std.specs.Prelude.{◌≡◌};
ghost use Rattle.event.specs.Sources.{ids};
ghost use Rattle.marks.specs.View.{marks_of};
ghost use Rattle.protocol.specs.Endpoint.{known, enabling, present};
ghost use Rattle.wire.specs.View.{left};

use board::Board;
use event::enabled::{has, with};
use marks::types::Marks;
use wire::types::Items;

/// Whether a source of the board has this identifier.
pub fn is_known<B: Board>(board: &B, identifier: u8) -> bool
    ensures { result ≡ known identifier (ids (B.Board.told board.now)) }
{
    (0..board.count())
        .filter_map(|place| board.id(place))
        .any(|id| identifier == id.identifier)
}

/// The enabled identifiers after the items, in their order. An item whose identifier no source has is ignored.
pub fn switch<B: Board>(board: &B, set: [u64; 4], items: Items<'_>) -> [u64; 4]
    ensures { result ≡ enabling (ids (B.Board.told board.now)) (left items.entry) set }
{
    let mut words = set;
    for item in items {
        if is_known(board, item.identifier) {
            // By way of `next`: what a call hands back is not proved to reach a variable that is an array.
            let next = with(words, item.identifier, item.on);
            words = next;
        }
    }
    words
}

/// Every source of the board whose event is enabled, marked with its present reading.
pub fn snapshot<B: Board>(board: &B, set: [u64; 4]) -> Marks
    ensures { marks_of result ≡ present set (B.Board.told board.now) }
{
    let mut marks = Marks::none();
    for place in 0..board.count() {
        if let Some(id) = board.id(place)
            && has(set, id.identifier)
            && let Some(reading) = board.reading(place)
        {
            let _ = marks.mark(place, reading);
        }
    }
    marks
}
