//! Names for people: of events, scopes and refusals.
use crate::refusal::Refusal;
use std::fmt;

/// An identifier, shown by the name of its event.
#[derive(Clone, Copy)]
pub struct EventName(pub u8);

/// A scope, shown by its name.
#[derive(Clone, Copy)]
pub struct ScopeName(pub u8);

impl fmt::Display for EventName {
    fn fmt<W: fmt::Write>(&self, f: &mut fmt::Formatter<W>) -> fmt::Result {
        let name = match self.0 {
            0x00 => "controller ready",
            0x01 => "controller fatal status",
            0x02 => "shutdown status",
            0x03 => "controller enable",
            0x04 => "namespace attribute changed",
            0x05 => "firmware activated",
            0x06 => "composite temperature",
            0x07 => "percentage drive life used",
            0x08 => "available spare",
            0x09 => "SMART warnings",
            0x0A => "telemetry controller-initiated data available",
            0x0B => "PCIe link active",
            0xC0..=0xFF => "vendor event",
            _ => "unknown event",
        };
        write!(f, "{name}")
    }
}

impl fmt::Display for ScopeName {
    fn fmt<W: fmt::Write>(&self, f: &mut fmt::Formatter<W>) -> fmt::Result {
        let name = match self.0 {
            0 => "namespace",
            1 => "controller",
            2 => "subsystem",
            3 => "endpoint",
            4 => "port",
            5 => "endurance group",
            _ => "unknown scope",
        };
        write!(f, "{name}")
    }
}

/// A refusal, shown by what was wrong.
impl fmt::Display for Refusal {
    fn fmt<W: fmt::Write>(&self, f: &mut fmt::Formatter<W>) -> fmt::Result {
        let words = match self {
            Refusal::AnswerBufferShort => "the answer buffer has less than 4,115 bytes",
            Refusal::RequestLength => "the request is not 25 to 4,224 bytes long",
            Refusal::RequestType => "the request's first byte is not 84h",
            Refusal::RequestCheck => "the request's check word is wrong",
            Refusal::RequestKind => "the message is not a Configuration Set of asynchronous events",
            Refusal::RequestFlags => "bits 1:0 of the request's byte 2 are not zero",
            Refusal::EnableLengths => "the enable list's header or total length does not fit",
            Refusal::EnableBodyLong => "the enable list's items take more than 4,096 bytes",
            Refusal::EnableItems => "an item of the enable list is too short or does not fit",
            Refusal::TickBufferShort => "the tick's buffer has less than 4,111 bytes",
            Refusal::NoSuchPlace => "the board has no source at this place",
            Refusal::UnlawfulReading => "the source cannot have this reading",
            Refusal::RowCount => "a table board has 1 to 64 rows",
            Refusal::UnlawfulRow => "a row's unique ID or reading is unlawful",
            Refusal::RowTwice => "a unique ID stands in two rows",
            Refusal::AddressTooHigh => "an SMBus address is not below 128",
            Refusal::RequestBufferShort => "the request's buffer has less than 217 bytes",
            Refusal::StillAwaiting => "an answer is still awaited",
            Refusal::ItemCount => "a sync has 1 to 64 items",
            Refusal::IdentifierTwice => "an identifier stands in two items",
            Refusal::NotHolding => "the book holds no message to acknowledge",
            Refusal::BookBlind => "the book is blind",
            Refusal::MessageBufferShort => "the message's buffer has less than 4,224 bytes",
            Refusal::NoMessage => "there is no message on the carrier",
            Refusal::UnlawfulMessage => "the message is not a lawful event message",
            Refusal::SameGeneration =>
                "the message's generation is the one that the book has already",
            Refusal::NoneAwaited => "no request of the receipt's kind is awaited",
            Refusal::UnlawfulAnswer => "the bytes are not a lawful answer",
            Refusal::ReadingBufferShort => "the reading's buffer has less than 64 bytes",
            Refusal::UnknownSource => "the book has no entry of this source",
        };
        write!(f, "{words}")
    }
}
