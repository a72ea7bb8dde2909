//! The calls of the SMBus carrier.
ghost use Rattle.std.specs.Prelude.{◌≡◌, ◌≤◌, length, take};
ghost use Rattle.event.specs.Bytes.{placed};
ghost use Rattle.carrier.specs.Carriers.{takes, after_put, withdrawn, linked_up, linked_down};
ghost use Rattle.smbus.specs.Packets.{packets_on, chosen, copied_length, PayloadsJoin};
ghost use Rattle.smbus.specs.Seen.{addressed, line_of, seen_if, made};
ghost use Rattle.smbus.specs.Lying.{line_fits};

use crate::bus::SmbusCarrier;
use crate::packet::{Addresses, Packet};
use crate::packing::{join, split};
use carrier::{Carrier, fits};
use event::refusal::Refusal;

impl SmbusCarrier {
    /// A new carrier between two SMBus addresses below 128: the link is up, and nothing lies there. The last number is
    /// the sender's endpoint ID.
    pub fn new(
        destination_address: u8,
        source_address: u8,
        source_id: u8,
    ) -> Result<SmbusCarrier, Refusal>
        ensures { seen_if result ≡ made (addressed destination_address source_address source_id) }
    {
        if destination_address >= 128 || source_address >= 128 {
            return Err(Refusal::AddressTooHigh);
        }
        Ok(SmbusCarrier {
            addresses: Addresses {
                destination: destination_address,
                source: source_address,
                id: source_id,
            },
            up: true,
            destination: 0,
            count: 0,
            row: Default::default(),
        })
    }

    /// The packets that are stored.
    fn stored(&self) -> &[Packet]
        ensures { result.now ≡ take self.now.count self.now.row }
    {
        &self.row[0..self.count]
    }

    /// How many packets the message has that lies there: none, if none does. Their payloads, joined in the order of
    /// their numbers, are the message.
    pub fn packet_count(&self) -> usize
        ensures count { result ≡ length (packets_on self.now.addresses (line_of self.now)) }
        ensures few { result ≤ 66 }
        ensures joined { PayloadsJoin self.now.addresses (line_of self.now) }
    {
        self.stored().len()
    }

    /// Copies the packet of this number, from 0 on, to the start of a buffer, and says how long it is. If there is no
    /// such packet, or it is longer than the buffer, nothing is copied.
    pub fn copy_packet(&self, number: usize, buffer: &mut [u8]) -> Option<usize>
        ensures count { result ≡ copied_length (chosen (packets_on self.now.addresses (line_of self.now)) number (length buffer.old)) }
        ensures buffer { buffer.new ≡ placed buffer.old 0 (chosen (packets_on self.now.addresses (line_of self.now)) number (length buffer.old)) }
    {
        let bytes = self.stored().get(number)?.as_bytes();
        let len = bytes.len();
        if buffer.len() < len {
            return None;
        }
        buffer[..len].copy_from_slice(bytes);
        Some(len)
    }
}

impl Carrier for SmbusCarrier {
    ghost carried = { line_of };

    ghost fits = { line_fits };

    fn is_up(&self) -> bool {
        self.up
    }

    fn put(&mut self, destination: u8, message: &[u8]) -> bool
        ensures taken { result ≡ takes (line_of self.old) message.now }
        ensures after { line_of self.new ≡ after_put (line_of self.old) destination message.now }
        ensures kept { self.new.addresses ≡ self.old.addresses }
    {
        if !self.up || !fits(message) {
            return false;
        }
        self.count = split(self.addresses, destination, message, &mut self.row);
        self.destination = destination;
        true
    }

    fn withdraw(&mut self)
        ensures after { line_of self.new ≡ withdrawn (line_of self.old) }
        ensures kept { self.new.addresses ≡ self.old.addresses }
    {
        self.count = 0;
    }

    // The trait's body does not say that the addresses stay.
    fn lose(&mut self)
        ensures after { line_of self.new ≡ withdrawn (line_of self.old) }
        ensures kept { self.new.addresses ≡ self.old.addresses }
    {
        self.withdraw();
    }

    fn link_up(&mut self)
        ensures after { line_of self.new ≡ linked_up (line_of self.old) }
        ensures kept { self.new.addresses ≡ self.old.addresses }
    {
        self.up = true;
    }

    fn link_down(&mut self)
        ensures after { line_of self.new ≡ linked_down (line_of self.old) }
        ensures kept { self.new.addresses ≡ self.old.addresses }
    {
        self.up = false;
        self.lose();
    }

    fn fetch(&self, buffer: &mut [u8]) -> Result<usize, Refusal> {
        if buffer.len() < 4224 {
            return Err(Refusal::MessageBufferShort);
        }
        if self.count == 0 {
            return Err(Refusal::NoMessage);
        }
        Ok(join(self.stored(), buffer))
    }
}
