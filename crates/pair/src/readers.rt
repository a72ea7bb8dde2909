//! The parts of a pair, the end of a pair, and what a record tells.
ghost use Rattle.std.specs.Prelude.{◌≡◌};
ghost use Rattle.protocol.specs.Pair.{pair_of};
ghost use Rattle.endpoint.specs.View.{as_endpoint};
ghost use Rattle.pair.specs.Receipts.{awaited, without_answer, book_after};
ghost use Rattle.pair.specs.View.{pair_in, step_if, give_up_if};
ghost use Rattle.pair.specs.Runs.{note_of, empty_note};

use crate::manager::Manager;
use crate::pair::Pair;
use crate::record::Record;
use board::Board;
use book::parts::Book;
use carrier::Carrier;
use endpoint::types::Endpoint;
use event::refusal::Refusal;

impl Manager {
    // The book, and the receipt under way given up.
    fn end(self) -> Book
        ensures { result ≡ book_after (without_answer (awaited self.book.phase) self.book) self.book }
    {
        let Manager { mut book, receipt } = self;
        if let Some(receipt) = receipt {
            let _ = book.give_up(receipt);
        }
        book
    }
}

impl<B: Board, C: Carrier> Pair<B, C> {
    /// The endpoint.
    pub fn endpoint(&self) -> &Endpoint
        ensures { as_endpoint result.now ≡ (pair_in B.told C.carried self.now).endpoint }
    {
        &self.endpoint
    }

    /// The book.
    pub fn book(&self) -> &Book
        ensures { result.now ≡ (pair_in B.told C.carried self.now).book }
    {
        &self.manager.book
    }

    /// The board.
    pub fn board(&self) -> &B
        ensures { B.told result.now ≡ (pair_in B.told C.carried self.now).board }
    {
        &self.board
    }

    /// The carrier.
    pub fn carrier(&self) -> &C
        ensures { C.carried result.now ≡ (pair_in B.told C.carried self.now).line }
    {
        &self.carrier
    }

    /// Ends the pair, and hands back its parts. A receipt under way is given up.
    pub fn end(self) -> (Endpoint, Book, B, C)
        ensures { pair_of (as_endpoint result.0) (C.carried result.3) (B.told result.2) result.1 ≡ step_if (pair_in B.told C.carried self) (give_up_if (awaited self.manager.book.phase)) }
    {
        let Pair {
            endpoint,
            manager,
            board,
            carrier,
        } = self;
        (endpoint, manager.end(), board, carrier)
    }
}

impl Record {
    /// A record of no call, its buffer all zeros.
    pub fn new() -> Record
        ensures { note_of result ≡ empty_note }
    {
        Record {
            reply: None,
            buffer: [0; 4224],
        }
    }

    /// What the call handed back. There is nothing where it would spend a receipt and none was under way.
    pub fn reply(&self) -> Option<Result<usize, Refusal>>
        ensures { result ≡ (note_of self.now).reply }
    {
        self.reply
    }

    /// The buffer that the call worked in.
    pub fn buffer(&self) -> &[u8]
        ensures { result.now ≡ (note_of self.now).bytes }
    {
        &self.buffer
    }
}
