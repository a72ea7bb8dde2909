//! Refusals: why a call is refused.
ghost use Rattle.std.specs.Prelude.{◌≡◌};
ghost use Rattle.event.specs.Refusals.{number};

/// The question of a call that was answered no; the first no of a call's questions is its refusal.
#[derive(Clone, Copy, PartialEq, Eq, Debug, Drop)]
pub enum Refusal {
    /// The answer buffer has less than 4,115 bytes.
    AnswerBufferShort = 1,
    /// The request is shorter than 25 bytes or longer than 4,224.
    RequestLength = 2,
    /// The request's first byte is not 84h.
    RequestType = 3,
    /// The request's check word is wrong.
    RequestCheck = 4,
    /// The message is no Configuration Set of asynchronous events.
    RequestKind = 5,
    /// Bits 1:0 of the request's byte 2 are not zero.
    RequestFlags = 6,
    /// The enable list's header or total length does not fit.
    EnableLengths = 7,
    /// The enable list's items take more than 4,096 bytes.
    EnableBodyLong = 8,
    /// An item is shorter than 3 bytes, or passes the total length.
    EnableItems = 9,
    /// A tick's buffer has less than 4,111 bytes.
    TickBufferShort = 10,
    /// The board has no source at this place.
    NoSuchPlace = 11,
    /// The source cannot have this reading.
    UnlawfulReading = 12,
    /// A table board has 1 to 64 rows.
    RowCount = 13,
    /// A row's unique ID or reading is unlawful.
    UnlawfulRow = 14,
    /// A unique ID stands in two rows.
    RowTwice = 15,
    /// An SMBus address is 128 or more.
    AddressTooHigh = 16,
    /// A request's buffer has less than 217 bytes.
    RequestBufferShort = 17,
    /// The book still awaits an answer.
    StillAwaiting = 18,
    /// A sync has 1 to 64 items.
    ItemCount = 19,
    /// A sync names an identifier twice.
    IdentifierTwice = 20,
    /// The book holds no message to acknowledge.
    NotHolding = 21,
    /// The book is blind.
    BookBlind = 22,
    /// A message's buffer has less than 4,224 bytes.
    MessageBufferShort = 23,
    /// There is no message on the carrier.
    NoMessage = 24,
    /// The message is no lawful event message.
    UnlawfulMessage = 25,
    /// The message's generation is the one that the book has already.
    SameGeneration = 26,
    /// No request of the receipt's kind is awaited.
    NoneAwaited = 27,
    /// The bytes are no lawful answer.
    UnlawfulAnswer = 28,
    /// A reading's buffer has less than 64 bytes.
    ReadingBufferShort = 29,
    /// The book has no entry of this source.
    UnknownSource = 30,
}

impl Refusal {
    /// The number under which the refusal is known.
    pub fn number(self) -> u8
        ensures { result ≡ number self }
    {
        self as u8
    }
}
