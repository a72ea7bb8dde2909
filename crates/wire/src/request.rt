//! Writers of requests.
ghost use Rattle.std.specs.Prelude.{◌≡◌, ◌+◌, ◌*◌, ◌≤◌, length, if◌then◌else◌, nat_eq};
ghost use Rattle.keys.specs.Keys.{twice};
ghost use Rattle.event.specs.Bytes.{placed};
ghost use Rattle.event.specs.Outcomes.{Gives, over_front};
ghost use Rattle.wire.specs.Requests.{items_bytes, request_head, request_message};
ghost use Rattle.wire.specs.Writing.{identifiers, writes_sync, writes_ack};

use crate::check::{put, put_check};
use crate::types::Item;
use arrayvec::ArrayVec;
use event::delay::{Delays, Seconds, Tenths};
use event::refusal::Refusal;
use keys::has_twice;

/// Writes a sync of these items to the front of the buffer, and counts its bytes.
pub fn write_sync(buffer: &mut [u8], items: &[Item], delays: Delays) -> Result<usize, Refusal>
    ensures { Gives (writes_sync (length buffer.old) items.now delays.first.0 delays.retry.0) buffer.old buffer.new result }
{
    if buffer.len() < 217 {
        return Err(Refusal::RequestBufferShort);
    }
    if !(1..=64).contains(&items.len()) {
        return Err(Refusal::ItemCount);
    }
    if names_twice(items) {
        return Err(Refusal::IdentifierTwice);
    }
    Ok(put_request(buffer, items, delays))
}

/// Writes an ack to the front of the buffer, and counts its bytes.
pub fn write_ack(buffer: &mut [u8]) -> Result<usize, Refusal>
    ensures { Gives (writes_ack (length buffer.old)) buffer.old buffer.new result }
{
    if buffer.len() < 217 {
        return Err(Refusal::RequestBufferShort);
    }
    let none = Delays {
        first: Seconds(0),
        retry: Tenths(0),
    };
    Ok(put_request(buffer, &[], none))
}

// Whether an identifier stands in two items.
fn names_twice(items: &[Item]) -> bool
    requires { length items.now ≤ 64 }
    ensures { result ≡ twice nat_eq (identifiers items.now) }
{
    // A loop: `extend` may find the vector full, and would have to be asked whether it did.
    let mut row = ArrayVec::<u8, 64>::new();
    for item in items {
        row.push(item.identifier);
    }
    has_twice(&row)
}

// The third byte of an item. An `if`, since `u8::from(on) << 7` says less.
fn switch(on: bool) -> u8
    ensures { result ≡ (if on then 0x80 else 0) }
{
    if on { 0x80 } else { 0 }
}

// Writes the items from the place `start` on, and says where they end.
fn put_items(buffer: &mut [u8], start: usize, items: &[Item]) -> usize
    requires { start + 3 * length items.now ≤ length buffer.old }
    ensures end { result ≡ start + 3 * length items.now }
    ensures buffer { buffer.new ≡ placed buffer.old start (items_bytes items.now) }
{
    // The place is kept here: of what an `iter_mut` in a `zip` wrote, a proof knows nothing.
    let mut at = start;
    for item in items {
        at = put(buffer, at, &[3, item.identifier, switch(item.on)]);
    }
    at
}

// Writes a request to the front of the buffer, and counts its bytes.
fn put_request(buffer: &mut [u8], items: &[Item], delays: Delays) -> usize
    requires few { length items.now ≤ 64 }
    requires room { 217 ≤ length buffer.old }
    ensures end { result ≡ length (request_message delays.first.0 delays.retry.0 items.now) }
    ensures buffer { buffer.new ≡ over_front (request_message delays.first.0 delays.retry.0 items.now) buffer.old }
{
    let Delays { first, retry } = delays;
    let head = [
        0x84, 0x08, 0, 0, 3, 0, 0, 0, 4, retry.0, first.0, 0, 0, 0, 0, 0,
    ];
    let number = items.len() as u8;
    let [low, high] = (5 + 3 * u16::from(number)).to_le_bytes();
    let header = [number, 0, low, high, 5];
    let list = put(buffer, 0, &head);
    let start = put(buffer, list, &header);
    let end = put_items(buffer, start, items);
    put_check(buffer, end)
}
