//! From a message to its packets and back.
ghost use Rattle.std.specs.Prelude.{◌≡◌, ◌+◌, ◌*◌, ◌<◌, ◌≤◌, ◌++◌, map, length, take};
ghost use Rattle.event.specs.Outcomes.{over_front};
ghost use Rattle.carrier.specs.Carriers.{message_to};
ghost use Rattle.smbus.specs.Packets.{packet_count, flags as flags_of, header as header_of, checked, packets as packets_of, payload_of as payload_in, payloads};
ghost use Rattle.smbus.specs.Stored.{held, stored};

use crate::packet::{Addresses, Packet};
use crc::crc8;

/// Lays a packet into the start of a row.
fn lay(row: &mut [u8], header: &[u8], payload: &[u8])
    requires { (length row.old ≡ 73) × ((length header.now ≡ 8) × (length payload.now ≤ 64)) }
    ensures { take (8 + length payload.now + 1) row.new ≡ checked (header.now ++ payload.now) }
{
    let end = 8 + payload.len();
    row[0..8].copy_from_slice(header);
    row[8..end].copy_from_slice(payload);
    let check = crc8(&row[0..end]);
    row[end] = check;
}

/// What stands in the places without a packet.
// Written out, since a derive is refused over a ghost field.
impl Default for Packet {
    ghost is_default = { λ p. p.len ≡ 0 };

    fn default() -> Packet {
        Packet {
            len: 0,
            bytes: [0; 73],
        }
    }
}

impl Packet {
    /// The packet of a header and a payload.
    pub(crate) fn new(header: [u8; 8], payload: &[u8]) -> Packet
        requires { length payload.now ≤ 64 }
        ensures { held result ≡ checked (header ++ payload.now) }
    {
        let mut bytes = [0u8; 73];
        lay(&mut bytes, &header, payload);
        Packet {
            len: payload.len(),
            bytes,
        }
    }

    /// The whole packet.
    pub(crate) fn as_bytes(&self) -> &[u8]
        ensures { result.now ≡ held self.now }
    {
        let end = 8 + self.len + 1;
        &self.bytes[0..end]
    }

    /// Its payload.
    pub(crate) fn payload(&self) -> &[u8]
        ensures part { result.now ≡ payload_in (held self.now) }
        ensures few { length result.now ≤ 64 }
    {
        let end = 8 + self.len;
        &self.bytes[8..end]
    }
}

/// The flag byte of a packet by its number, of so many.
fn flags(number: usize, count: usize) -> u8
    requires { number < 66 }
    ensures { result ≡ flags_of number count }
{
    let first = u8::from(number == 0);
    let last = u8::from(number + 1 == count);
    first * 128 + last * 64 + (number % 4) as u8 * 16 + 8
}

/// The header of a packet by its number, of so many, before so many bytes of payload.
fn header(
    addresses: Addresses,
    destination: u8,
    size: usize,
    number: usize,
    count: usize,
) -> [u8; 8]
    requires low { (addresses.destination < 128) × (addresses.source < 128) }
    requires size { size ≤ 64 }
    requires number { number < 66 }
    ensures { result ≡ header_of addresses destination size number count }
{
    [
        addresses.destination * 2,
        0x0F,
        size as u8 + 5,
        addresses.source * 2 + 1,
        0x01,
        destination,
        addresses.id,
        flags(number, count),
    ]
}

/// Splits a message into its packets, in the first places of a row, and says how many there are.
pub(crate) fn split(
    addresses: Addresses,
    destination: u8,
    message: &[u8],
    row: &mut [Packet],
) -> usize
    requires low { (addresses.destination < 128) × (addresses.source < 128) }
    requires long { length message.now ≤ 4224 }
    requires whole { length row.old ≡ 66 }
    ensures count { result ≡ packet_count (length message.now) }
    ensures all { stored result row.new ≡ packets_of addresses (message_to destination message.now) }
{
    let count = message.len().div_ceil(64);
    for (number, payload) in message.chunks(64).enumerate() {
        let header = header(addresses, destination, payload.len(), number, count);
        row[number] = Packet::new(header, payload);
    }
    count
}

/// Joins the payloads of packets at the start of a buffer, and says how many bytes they have.
pub(crate) fn join(packets: &[Packet], buffer: &mut [u8]) -> usize
    requires { (length packets.now ≤ 66) × (4224 ≤ length buffer.old) }
    ensures count { result ≡ length (payloads (map held packets.now)) }
    ensures buffer { buffer.new ≡ over_front (payloads (map held packets.now)) buffer.old }
{
    // The place is kept here: of what an `iter_mut` in a `zip` wrote, a proof knows nothing.
    let mut at = 0;
    for packet in packets {
        let payload = packet.payload();
        let end = at + payload.len();
        buffer[at..end].copy_from_slice(payload);
        at = end;
    }
    at
}
