//! What crosses to C.
ghost use Rattle.std.specs.Prelude.{◌≡◌};
ghost use Rattle.event.specs.View.{occurrence_of};
ghost use Rattle.crossing.specs.Crossing.{row_kept, row_of, item_told, switch_of};

use event::id::UniqueId;
use event::occurrence::Occurrence;
use event::reading::Reading;
use wire::types::Item;

/// A source with a reading of it: the reading's length and its bytes, and behind them, as the readers write it, zeros. A length
/// above 64 is that of a reading that no source may have.
#[repr(C)]
#[derive(Clone, Copy)]
pub struct Row {
    pub identifier: u8,
    pub scope: u8,
    pub length: u8,
    pub info: u32,
    pub bytes: [u8; 64],
}

/// An item of an enable list.
#[repr(C)]
#[derive(Clone, Copy)]
pub struct Switch {
    pub identifier: u8,
    pub on: bool,
}

/// What a message says beside its items and occurrences. `kind` is 1 for a sync, 2 for an ack, 3 for an event message, 4 for an
/// answer and 5 for a list alone; `number` counts the items or occurrences.
#[repr(C)]
#[derive(Clone, Copy, Default)]
pub struct Head {
    pub kind: u8,
    pub slot: bool,
    pub first: u8,
    pub retry: u8,
    pub generation: u8,
    pub retries: u8,
    pub overflow: bool,
    pub number: usize,
}

impl Row {
    // The source that it tells, with at most 64 bytes of its reading.
    pub(crate) fn told(&self) -> Occurrence
        ensures { occurrence_of result ≡ row_kept self.now }
    {
        let length = usize::from(self.length).min(64);
        Occurrence {
            id: UniqueId {
                identifier: self.identifier,
                scope: self.scope,
                info: self.info,
            },
            reading: Reading::new(&self.bytes[..length]).unwrap_or_default(),
        }
    }

    // The row of an occurrence.
    pub(crate) fn of(occurrence: Occurrence) -> Row
        ensures { result ≡ row_of (occurrence_of occurrence) }
    {
        let reading = occurrence.reading.as_bytes();
        let mut bytes = [0; 64];
        bytes[..reading.len()].copy_from_slice(reading);
        Row {
            identifier: occurrence.id.identifier,
            scope: occurrence.id.scope,
            length: reading.len() as u8,
            info: occurrence.id.info,
            bytes,
        }
    }
}

impl Switch {
    // The item that it tells.
    pub(crate) fn told(self) -> Item
        ensures { result ≡ item_told self }
    {
        Item {
            identifier: self.identifier,
            on: self.on,
        }
    }

    // The switch of an item.
    pub(crate) fn of(item: Item) -> Switch
        ensures { result ≡ switch_of item }
    {
        Switch {
            identifier: item.identifier,
            on: item.on,
        }
    }
}
