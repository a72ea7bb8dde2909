//! Boards and carriers at work.
use crate::hex::Hex;
use crate::report::show_refusal;
use board::Board;
use board::change::try_set;
use carrier::{Carrier, deliver};
use event::names::EventName;
use smbus::SmbusCarrier;
use std::io;

/// Gives a source of any board another reading, and prints whether it was taken and what the source says then.
pub(crate) fn show_set<B: Board>(
    rt: &HostRuntime,
    board: &mut B,
    place: usize,
    reading: &[u8],
) -> io::Result<()> {
    let asked = Hex(reading);
    println!(rt; "  place {place} to {asked}:")?;
    match try_set(board, place, reading) {
        Ok(()) => println!(rt; "  taken")?,
        Err(refusal) => show_refusal(rt, refusal)?,
    }
    let Some(id) = board.id(place) else {
        return Ok(());
    };
    let Some(told) = board.reading(place) else {
        return Ok(());
    };
    let event = EventName(id.identifier);
    let bytes = Hex(told.as_bytes());
    println!(rt; "    {event} reads {bytes}")
}

/// Lays a message on any carrier, and prints what is fetched from it.
pub(crate) fn show_delivery<C: Carrier>(
    rt: &HostRuntime,
    carrier: &mut C,
    message: &[u8],
    buffer: &mut [u8],
) -> io::Result<()> {
    match deliver(carrier, 9, message, buffer) {
        Ok(n) if n <= buffer.len() => {
            let bytes = Hex(&buffer[0..n]);
            println!(rt; "  fetched {n} bytes: {bytes}")
        }
        Ok(n) => println!(rt; "  fetched {n} bytes"),
        Err(refusal) => show_refusal(rt, refusal),
    }
}

/// Prints the packets of the message on an SMBus carrier.
pub(crate) fn show_packets(rt: &HostRuntime, carrier: &SmbusCarrier) -> io::Result<()> {
    for number in 0..carrier.packet_count() {
        let mut packet = [0u8; 73];
        if let Some(n) = carrier.copy_packet(number, &mut packet) {
            let bytes = Hex(&packet[..n]);
            println!(rt; "  packet {number}: {bytes}")?;
        }
    }
    Ok(())
}
