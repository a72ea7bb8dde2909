//! Calls as data.
use event::delay::Delays;
use event::id::UniqueId;
use wire::types::Item;

/// Every call of a pair, with all that is handed in but the buffer.
// Data, and not closures: the promises speak of lists of calls.
#[derive(Clone, Copy)]
pub enum Call<'a> {
    /// The source at a place has this reading now.
    Change { place: usize, reading: &'a [u8] },
    /// 100 ms have passed.
    Tick,
    /// The link comes up.
    LinkUp,
    /// The link goes down.
    LinkDown,
    /// What lies on the carrier is lost.
    Lose,
    /// The book writes a sync.
    WriteSync { items: &'a [Item], delays: Delays },
    /// The book writes an ack.
    WriteAck,
    /// A request of this sender is handed in to the endpoint.
    Request { sender: u8, message: &'a [u8] },
    /// An answer is handed in to the book, with the receipt under way.
    Answer { bytes: &'a [u8] },
    /// The receipt under way is given up.
    GiveUp,
    /// The book picks up what lies on the carrier.
    PickUp,
    /// What lies on the carrier is fetched, and the book does not hear of it.
    Fetch,
    /// The book shows a source.
    Show { id: UniqueId },
    /// The endpoint is reset.
    Reset,
}

/// A call of a run, and how many bytes of its buffer are lent to it, up to 4,224.
#[derive(Clone, Copy)]
pub struct Task<'a> {
    pub call: Call<'a>,
    pub room: usize,
}
