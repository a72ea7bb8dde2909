//! The calls of the book, with the receipt under way.
ghost use Rattle.std.specs.Prelude.{◌≡◌, length};
ghost use Rattle.protocol.specs.Book.{blind, write_sync, write_ack, take_answer, give_up, pick_up};
ghost use Rattle.book.specs.Turns.{Does};
ghost use Rattle.pair.specs.Receipts.{Fills, counted, filled, awaited, with_answer, without_answer, SpendsIf};

use crate::manager::Manager;
use book::parts::{Book, Receipt};
use carrier::Carrier;
use event::delay::Delays;
use event::refusal::Refusal;
use wire::types::Item;

// Puts the receipt of a request that was written where none is held then. A plain assignment would let the old
// one go, which its type forbids.
fn hold(
    held: &mut Option<Receipt>,
    written: Result<(usize, Receipt), Refusal>,
) -> Result<usize, Refusal>
    requires { Fills written held.old }
    ensures result { result ≡ counted written }
    ensures held { held.new ≡ filled written held.old }
{
    let (count, receipt) = written?;
    if let Some(_old) = held.replace(receipt) {
        unreachable!()
    }
    Ok(count)
}

impl Manager {
    // A blind book, with nothing under way.
    pub(crate) fn new() -> Manager
        ensures { result.book ≡ blind }
    {
        Manager {
            book: Book::new(),
            receipt: None,
        }
    }

    // The book writes a sync.
    pub(crate) fn write_sync(
        &mut self,
        buffer: &mut [u8],
        items: &[Item],
        delays: Delays,
    ) -> Result<usize, Refusal>
        ensures { Does (write_sync items.now delays.first.0 delays.retry.0 (length buffer.old) self.old.book) self.new.book buffer.old buffer.new result }
    {
        let written = self.book.write_sync(buffer, items, delays);
        hold(&mut self.receipt, written)
    }

    // The book writes an ack.
    pub(crate) fn write_ack(&mut self, buffer: &mut [u8]) -> Result<usize, Refusal>
        ensures { Does (write_ack (length buffer.old) self.old.book) self.new.book buffer.old buffer.new result }
    {
        let written = self.book.write_ack(buffer);
        hold(&mut self.receipt, written)
    }

    // The book takes an answer, if a receipt is under way.
    pub(crate) fn answer(&mut self, bytes: &[u8]) -> Option<Result<usize, Refusal>>
        ensures { SpendsIf (with_answer (awaited self.old.book.phase) bytes.now self.old.book) self.old.book self.new.book result }
    {
        let receipt = self.receipt.take()?;
        Some(self.book.answer(receipt, bytes))
    }

    // The receipt under way is given up, if there is one.
    pub(crate) fn give_up(&mut self) -> Option<Result<usize, Refusal>>
        ensures { SpendsIf (without_answer (awaited self.old.book.phase) self.old.book) self.old.book self.new.book result }
    {
        let receipt = self.receipt.take()?;
        Some(self.book.give_up(receipt))
    }

    // The book picks up what lies on the carrier.
    pub(crate) fn pick_up<C: Carrier>(
        &mut self,
        carrier: &C,
        buffer: &mut [u8],
    ) -> Result<usize, Refusal>
        ensures { Does (pick_up (length buffer.old) (C.Carrier.carried carrier.now).message self.old.book) self.new.book buffer.old buffer.new result }
    {
        self.book.pick_up(carrier, buffer)
    }
}
