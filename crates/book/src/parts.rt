//! The book and its receipts.
use crate::table::Table;
use protocol::types::Phase;
use std::marker::Model;
use wire::types::Kind;

/// A request that was written. It cannot be let go: hand it to `answer` or to `give_up`. It is spent there, so that
/// the next one comes with another request.
pub struct Receipt {
    pub(crate) kind: Kind,
}

/// The manager's end: what it knows of the sources of an endpoint.
#[derive(Drop)]
pub struct Book {
    pub(crate) phase: Phase,
    pub(crate) table: Table,
    pub(crate) remembered: Option<u8>,
}

// A clause sees a book as the book of the definitions, whose table is a list of entries.
impl Model for Book {
    ghost use Rattle.protocol.specs.Book.{Book, book_of};
    ghost use Rattle.book.specs.Tables.{rows};

    ghost Value = { Book };

    ghost view = { λ b. book_of b.phase (rows b.table) b.remembered };
}
