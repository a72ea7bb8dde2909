//! The manager's side: the book and the receipt under way.
ghost use Rattle.std.specs.Prelude.{◌≡◌, true};
ghost use Rattle.pair.specs.Receipts.{tied};

use book::parts::{Book, Receipt};

// A book, and the receipt of the request that it awaits.
pub struct Manager {
    pub(crate) book: Book,
    pub(crate) receipt: Option<Receipt>,
    ghost one: { tied receipt book.phase ≡ true },
}
