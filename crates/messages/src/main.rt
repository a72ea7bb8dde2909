//! Messages, boards and carriers by themselves: each kind of message is written, read back and said in words, and a damaged
//! copy is refused; an event message lies on each carrier; and readings are set on each board.
#![tactic(auto)]

use board::Board;
use board::drive::DriveBoard;
use board::table::TableBoard;
use carrier::mailbox::Mailbox;
use event::delay::{Delays, Seconds, Tenths};
use event::id::UniqueId;
use event::occurrence::Occurrence;
use event::reading::Reading;
use event::refusal::Refusal;
use hex::Hex;
use marks::types::{Marked, Marks};
use report::{show, show_refusal};
use smbus::SmbusCarrier;
use std::io;
use transport::{show_delivery, show_packets, show_set};
use wire::message::{write_answer, write_event};
use wire::read::{read_answer, read_event, read_request};
use wire::request::write_sync;
use wire::types::{Item, Message};

mod hex;
mod report;
mod transport;

/// The place of the composite temperature on a drive board.
const TEMPERATURE: usize = 6;

/// The items of the sync: composite temperature on, percentage drive life used off.
const ITEMS: [Item; 2] = [
    Item {
        identifier: 0x06,
        on: true,
    },
    Item {
        identifier: 0x07,
        on: false,
    },
];

/// The delays of the sync: 5 s, and 2 s before each further attempt.
const DELAYS: Delays = Delays {
    first: Seconds(5),
    retry: Tenths(20),
};

fn main(rt: HostRuntime) -> anyhow::Result<()> {
    run(&rt)
}

fn run(rt: &HostRuntime) -> anyhow::Result<()> {
    let mut drive = DriveBoard::new(7);
    let _taken = drive.set(TEMPERATURE, &[0x1E]);
    let mut marks = Marks::none();
    if let Some(reading) = drive.reading(TEMPERATURE) {
        let _marked = marks.mark(TEMPERATURE, reading);
    }
    let mut buffer = [0u8; 4115];
    let marked = Marked {
        board: &drive,
        marks: &marks,
    };
    show_messages(rt, &marked, &mut buffer)?;
    let message = write_event(&mut buffer, 8, &marked);
    show_carriers(rt, written(message, &buffer))?;
    show_boards(rt, &mut drive)?;
    Ok(())
}

/// The bytes that a call wrote to the front of a buffer; none where it was refused.
fn written(count: Result<usize, Refusal>, buffer: &[u8]) -> &[u8] {
    count.ok().and_then(|n| buffer.get(..n)).unwrap_or(&[])
}

/// Each kind of message.
fn show_messages<B: Board>(
    rt: &HostRuntime,
    marked: &Marked<'_, B>,
    buffer: &mut [u8],
) -> io::Result<()> {
    println!(rt; "The event message of a changed composite temperature, generation 1:")?;
    let written = write_event(buffer, 8, marked);
    show_written(rt, read_event, written, buffer)?;
    println!(rt; "The answer that lists it:")?;
    let written = write_answer(buffer, false, marked);
    show_written(rt, read_answer, written, buffer)?;
    println!(rt; "A sync that asks for it:")?;
    let written = write_sync(buffer, &ITEMS, DELAYS);
    show_written(rt, read_request, written, buffer)
}

/// The message on each carrier, and back.
fn show_carriers(rt: &HostRuntime, message: &[u8]) -> io::Result<()> {
    let mut buffer = [0u8; 4224];
    println!(rt; "The event message on a mailbox:")?;
    let mut mailbox = Mailbox::new();
    show_delivery(rt, &mut mailbox, message, &mut buffer)?;
    println!(rt; "The event message on an SMBus carrier:")?;
    match SmbusCarrier::new(0x10, 0x1D, 0x08) {
        Ok(mut bus) => {
            show_delivery(rt, &mut bus, message, &mut buffer)?;
            show_packets(rt, &bus)
        }
        Err(refusal) => show_refusal(rt, refusal),
    }
}

/// A reading that is taken and one that is refused, on each board.
fn show_boards(rt: &HostRuntime, drive: &mut DriveBoard) -> io::Result<()> {
    println!(rt; "Readings set on a drive board:")?;
    show_set(rt, drive, TEMPERATURE, &[0x1F])?;
    show_set(rt, drive, 0, &[2])?;
    show_set(rt, drive, 12, &[0])?;
    println!(rt; "Readings set on a table board of one vendor's source:")?;
    let row = Occurrence {
        id: UniqueId {
            identifier: 0xC0,
            scope: 0,
            info: 1,
        },
        reading: Reading::empty(),
    };
    match TableBoard::new(&[row]) {
        Ok(mut table) => {
            show_set(rt, &mut table, 0, b"vendor info")?;
            show_set(rt, &mut table, 0, &[0; 65])
        }
        Err(refusal) => show_refusal(rt, refusal),
    }
}

/// Prints the bytes that were written and what is read of them; then what is read of a damaged copy.
fn show_written<F: Fn(&[u8]) -> Result<Message<'_>, Refusal>>(
    rt: &HostRuntime,
    read: F,
    written: Result<usize, Refusal>,
    buffer: &mut [u8],
) -> io::Result<()>
    requires { F.IsAlwaysCallable read }
{
    let n = match written {
        Ok(n) => n,
        Err(refusal) => return show_refusal(rt, refusal),
    };
    if n < 10 || n > buffer.len() {
        return println!(rt; "  no message");
    }
    let hex = Hex(&buffer[0..n]);
    println!(rt; "  {n} bytes: {hex}")?;
    show(rt, read(&buffer[0..n]))?;
    buffer[9] ^= 0xFF;
    println!(rt; "  the same with byte 9 changed:")?;
    show(rt, read(&buffer[0..n]))
}
