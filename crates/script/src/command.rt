//! What a script says, line by line.
use event::delay::Delays;
use event::id::UniqueId;
use wire::types::Item;

/// What a line of a script asks for.
#[derive(Drop)]
pub enum Command {
    /// The drive board, with this controller ID.
    DriveBoard {
        controller: u16,
    },
    /// The table board, of the rows that follow.
    TableBoard,
    /// A row of the table board. The reading may be longer than any that is lawful.
    Row {
        id: UniqueId,
        reading: Vec<u8>,
    },
    /// The mailbox carrier.
    Mailbox,
    /// The SMBus carrier: destination address, source address, source endpoint ID.
    Smbus {
        destination: u8,
        source: u8,
        id: u8,
    },
    /// A call, as the record repeats it, and the length of the buffer that is lent to it.
    Call {
        action: Action,
        text: Vec<u8>,
        room: usize,
    },
}

/// A call of a script.
#[derive(Drop)]
pub enum Action {
    /// The source at a place has this reading now.
    Change {
        place: usize,
        reading: Vec<u8>,
    },
    /// So many ticks, each a call of its own.
    Tick {
        count: usize,
    },
    /// The link comes up.
    Up,
    /// The link goes down.
    Down,
    /// What lies on the carrier is lost.
    Lose,
    /// The endpoint is reset.
    Reset,
    /// The book writes a sync.
    Sync {
        delays: Delays,
        items: Vec<Item>,
    },
    /// The book writes an ack.
    Ack,
    /// The endpoint is handed a message, or the request last written where there is none.
    Hand {
        sender: u8,
        message: Option<Vec<u8>>,
    },
    /// The book is handed a message with its receipt, or the endpoint's latest answer where there is none.
    Take {
        message: Option<Vec<u8>>,
    },
    /// The receipt is given up.
    GiveUp,
    /// The book picks up what lies on the carrier.
    PickUp,
    /// What lies on the carrier is fetched, and the book does not hear of it.
    Fetch,
    /// The book shows a source.
    Show {
        id: UniqueId,
    },
    /// The packets of the message on an SMBus carrier are told.
    Packets,
}
