//! The calls of the book.
ghost use Rattle.std.specs.Prelude.{◌≡◌, length};
ghost use Rattle.event.specs.Outcomes.{Gives};
ghost use Rattle.wire.specs.declared.types.Kind.TheVariants.{Sync as sync, Ack as ack};
ghost use Rattle.protocol.specs.Book.{blind, write_sync, write_ack, take_answer, give_up, pick_up, show as shows};
ghost use Rattle.book.specs.Turns.{Writes, Spends, Does};

use crate::parts::{Book, Receipt};
use crate::table::Table;
use carrier::Carrier;
use event::delay::Delays;
use event::id::UniqueId;
use event::refusal::Refusal;
use protocol::types::Phase;
use wire::request::{write_ack, write_sync};
use wire::types::{Item, Kind};

impl Book {
    /// A new book: it is blind.
    pub fn new() -> Book
        ensures { result ≡ blind }
    {
        Book {
            phase: Phase::Blind,
            table: Table::new(),
            remembered: None,
        }
    }

    /// Writes a sync of these items to the front of the buffer. The book waits for its answer then, and shows nothing
    /// before it has come.
    pub fn write_sync(
        &mut self,
        buffer: &mut [u8],
        items: &[Item],
        delays: Delays,
    ) -> Result<(usize, Receipt), Refusal>
        ensures { Writes sync (write_sync items.now delays.first.0 delays.retry.0 (length buffer.old) self.old) self.new buffer.old buffer.new result }
    {
        self.may_write(buffer.len())?;
        let count = write_sync(buffer, items, delays)?;
        self.phase = Phase::Waiting { kind: Kind::Sync };
        Ok((count, Receipt { kind: Kind::Sync }))
    }

    /// Writes an ack of the message that the book holds to the front of the buffer. The book waits for its answer
    /// then, and shows nothing before it has come.
    pub fn write_ack(&mut self, buffer: &mut [u8]) -> Result<(usize, Receipt), Refusal>
        ensures { Writes ack (write_ack (length buffer.old) self.old) self.new buffer.old buffer.new result }
    {
        self.may_write(buffer.len())?;
        let Phase::Holding = self.phase else {
            return Err(Refusal::NotHolding);
        };
        let count = write_ack(buffer)?;
        self.phase = Phase::Waiting { kind: Kind::Ack };
        Ok((count, Receipt { kind: Kind::Ack }))
    }

    /// Takes the answer to the request of the receipt. The receipt is spent, whether the answer is taken or not.
    pub fn answer(&mut self, receipt: Receipt, bytes: &[u8]) -> Result<usize, Refusal>
        ensures { Spends (take_answer receipt.kind bytes.now self.old) self.new result }
    {
        let kind = self.spend(receipt)?;
        self.take_answer(kind, bytes)
    }

    /// Waits no longer for the answer to the request of the receipt, which is spent. The book is blind then.
    pub fn give_up(&mut self, receipt: Receipt) -> Result<usize, Refusal>
        ensures { Spends (give_up receipt.kind self.old) self.new result }
    {
        self.spend(receipt)?;
        self.go_blind();
        Ok(0)
    }

    /// Fetches the message that lies on the carrier into the buffer, and takes what it tells.
    pub fn pick_up<C: Carrier>(&mut self, carrier: &C, buffer: &mut [u8]) -> Result<usize, Refusal>
        ensures { Does (pick_up (length buffer.old) (C.Carrier.carried carrier.now).message self.old) self.new buffer.old buffer.new result }
    {
        self.may_show()?;
        let count = carrier.fetch(buffer)?;
        self.hear(&buffer[0..count])
    }

    /// Writes the reading of a source to the front of the buffer, as the book shows it.
    pub fn show(&self, id: UniqueId, buffer: &mut [u8]) -> Result<usize, Refusal>
        ensures { Gives (shows (length buffer.old) id self.now) buffer.old buffer.new result }
    {
        self.may_show()?;
        if buffer.len() < 64 {
            return Err(Refusal::ReadingBufferShort);
        }
        let reading = self.table.get(id).ok_or(Refusal::UnknownSource)?;
        let bytes = reading.as_bytes();
        buffer[0..bytes.len()].copy_from_slice(bytes);
        Ok(bytes.len())
    }
}
