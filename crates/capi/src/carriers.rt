//! The carriers.
ghost use Rattle.std.specs.Prelude.{◌≡◌, length};
ghost use Rattle.carrier.specs.Carriers.{fetched};
ghost use Rattle.smbus.specs.Seen.{addressed, seen_if};
ghost use Rattle.crossing.specs.Outcomes.{Leaves, refusal_number, count_of};
ghost use Rattle.capi.specs.Packing.{laid, sent, counted, packet_copied, delivered};

use carrier::mailbox::Mailbox;
use carrier::{Carrier, deliver};
use crossing::outcome::hand_out;
use event::refusal::Refusal;
use smbus::SmbusCarrier;

/// How many packets a message takes between two SMBus addresses: none, if it has no byte or more than 4,224.
#[unsafe(no_mangle)]
pub extern "C" fn fenduxi_packet_count(
    destination_address: u8,
    source_address: u8,
    source_id: u8,
    destination_id: u8,
    message: &[u8],
    count: &mut usize,
) -> u8
    ensures number { result ≡ refusal_number (counted (addressed destination_address source_address source_id) destination_id message.now) }
    ensures count { count.new ≡ count_of (counted (addressed destination_address source_address source_id) destination_id message.now) }
{
    match laden(
        destination_address,
        source_address,
        source_id,
        destination_id,
        message,
    ) {
        Ok(carrier) => hand_out(Ok(carrier.packet_count()), count),
        Err(refusal) => hand_out(Err(refusal), count),
    }
}

/// Copies the packet of a number, from 0 on, to the front of the buffer. If there is none, or it is longer than the buffer, nothing
/// is copied, and the count is 0.
#[unsafe(no_mangle)]
pub extern "C" fn fenduxi_packet(
    destination_address: u8,
    source_address: u8,
    source_id: u8,
    destination_id: u8,
    message: &[u8],
    number: usize,
    buffer: &mut [u8],
    count: &mut usize,
) -> u8
    ensures { Leaves (packet_copied (addressed destination_address source_address source_id) destination_id message.now number (length buffer.old)) buffer.old buffer.new count.new result }
{
    match laden(
        destination_address,
        source_address,
        source_id,
        destination_id,
        message,
    ) {
        Ok(carrier) => hand_out(Ok(carrier.copy_packet(number, buffer).unwrap_or(0)), count),
        Err(refusal) => hand_out(Err(refusal), count),
    }
}

/// Puts a message on a new SMBus carrier, and fetches what lies there then.
#[unsafe(no_mangle)]
pub extern "C" fn fenduxi_smbus_deliver(
    destination_address: u8,
    source_address: u8,
    source_id: u8,
    destination_id: u8,
    message: &[u8],
    buffer: &mut [u8],
    count: &mut usize,
) -> u8
    ensures { Leaves (delivered (addressed destination_address source_address source_id) destination_id message.now (length buffer.old)) buffer.old buffer.new count.new result }
{
    match SmbusCarrier::new(destination_address, source_address, source_id) {
        Ok(mut carrier) => hand_out(
            deliver(&mut carrier, destination_id, message, buffer),
            count,
        ),
        Err(refusal) => hand_out(Err(refusal), count),
    }
}

/// Puts a message into a new mailbox, and fetches what lies there then.
#[unsafe(no_mangle)]
pub extern "C" fn fenduxi_mailbox_deliver(
    destination_id: u8,
    message: &[u8],
    buffer: &mut [u8],
    count: &mut usize,
) -> u8
    ensures { Leaves (fetched (length buffer.old) (laid destination_id message.now).message) buffer.old buffer.new count.new result }
{
    let mut mailbox = Mailbox::new();
    hand_out(
        deliver(&mut mailbox, destination_id, message, buffer),
        count,
    )
}

// A new SMBus carrier on which a message was put.
fn laden(
    destination_address: u8,
    source_address: u8,
    source_id: u8,
    destination_id: u8,
    message: &[u8],
) -> Result<SmbusCarrier, Refusal>
    ensures { seen_if result ≡ sent (addressed destination_address source_address source_id) destination_id message.now }
{
    let mut carrier = SmbusCarrier::new(destination_address, source_address, source_id)?;
    let _taken = carrier.put(destination_id, message);
    Ok(carrier)
}
