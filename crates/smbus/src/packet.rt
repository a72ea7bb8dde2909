//! SMBus packets, each with up to 64 bytes of a message.
ghost use Rattle.std.specs.Prelude.{◌≡◌, ◌≤◌, length};

/// From where to where packets go.
// That both addresses are below 128 is a fact of the carrier: definitions and theorems speak of any addresses.
#[derive(Clone, Copy)]
pub struct Addresses {
    /// The SMBus address of the receiver.
    pub destination: u8,
    /// The SMBus address of the sender.
    pub source: u8,
    /// The endpoint ID of the sender.
    pub id: u8,
}

/// One packet: a header of eight bytes, so many bytes of payload, at most 64, and CRC-8 over both.
#[derive(Clone, Copy)]
pub(crate) struct Packet {
    pub(crate) len: usize,
    pub(crate) bytes: [u8; 73],
    ghost short: { len ≤ 64 },
    ghost whole: { length bytes ≡ 73 },
}
