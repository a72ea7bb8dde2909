//! Readers of messages.
ghost use Rattle.std.specs.Prelude.{◌≡◌, ◌/◌, ◌≤◌, ◌&&◌, length, ◌==◌};
ghost use Rattle.event.specs.Refusals.{first_no};
ghost use Rattle.list.specs.View.{listing_if};
ghost use Rattle.wire.specs.Laws.{OnlyEvent, OnlyAnswer, SyncsReadBack, AcksReadBack};
ghost use Rattle.wire.specs.Messages.{read_framed, read_event, read_answer, slot_of};
ghost use Rattle.wire.specs.Requests.{enable_questions, request_questions, read_as, read_request};
ghost use Rattle.wire.specs.View.{reads_by, AckHasList, event_in, answer_in, request_in};

use crate::check::is_checked;
use crate::items::items_fit;
use crate::message::{EVENT_HEAD, answer_head};
use crate::types::{Items, Message};
use event::delay::{Delays, Seconds, Tenths};
use event::refusal::Refusal;
use list::read::read_list;
use list::types::ListRead;

/// Reads an event message. Bytes that are none are refused.
pub fn read_event<'a>(bytes: &'a [u8]) -> Result<Message<'a>, Refusal>
    ensures said { reads_by result ≡ event_in (read_event bytes.now) }
    ensures only { OnlyEvent }
{
    let read = read_framed(&EVENT_HEAD, bytes).ok_or(Refusal::UnlawfulMessage)?;
    Ok(Message::Event {
        generation: read.transmission / 8,
        retries: read.transmission % 8,
        list: read.list,
    })
}

/// Reads an answer. Bytes that are none are refused.
pub fn read_answer<'a>(bytes: &'a [u8]) -> Result<Message<'a>, Refusal>
    ensures said { reads_by result ≡ answer_in (read_answer bytes.now) }
    ensures only { OnlyAnswer }
{
    let slot = slot_of(bytes);
    let read = read_framed(&answer_head(slot), bytes)
        .filter(|read| read.transmission == 0)
        .ok_or(Refusal::UnlawfulAnswer)?;
    Ok(Message::Answer {
        slot,
        list: read.list,
    })
}

// The slot bit of a message.
fn slot_of(bytes: &[u8]) -> bool
    ensures { result ≡ slot_of bytes.now }
{
    bytes.get(1).is_some_and(|kind| kind % 2 == 1)
}

// The list between a head and the check word.
fn read_framed<'a>(head: &[u8], bytes: &'a [u8]) -> Option<ListRead<'a>>
    ensures { listing_if result ≡ read_framed head.now bytes.now }
{
    let (message, _) = bytes.split_last_chunk::<4>()?;
    let list = message.strip_prefix(head)?;
    if !is_checked(bytes) {
        return None;
    }
    read_list(list)
}

/// Reads a request, of any length and content. The first question that is answered no is the refusal. An ack has its enable
/// list as it stands in the request. What the book writes is accepted, and read as it was meant.
pub fn read_request<'a>(bytes: &'a [u8]) -> Result<Message<'a>, Refusal>
    ensures said { reads_by result ≡ request_in (read_request bytes.now) }
    ensures list { AckHasList bytes.now result }
    ensures syncs { SyncsReadBack }
    ensures acks { AcksReadBack }
{
    read_asked(bytes)
}

// The questions of a request, and what it says.
fn read_asked<'a>(bytes: &'a [u8]) -> Result<Message<'a>, Refusal>
    ensures said { reads_by result ≡ request_in (read_as (first_no (request_questions bytes.now)) bytes.now) }
    ensures list { AckHasList bytes.now result }
{
    if !(25..=4224).contains(&bytes.len()) {
        return Err(Refusal::RequestLength);
    }
    if bytes[0] != 0x84 {
        return Err(Refusal::RequestType);
    }
    if !is_checked(bytes) {
        return Err(Refusal::RequestCheck);
    }
    if !is_configuration(bytes[1], bytes[4], bytes[8]) {
        return Err(Refusal::RequestKind);
    }
    if bytes[2] % 4 != 0 {
        return Err(Refusal::RequestFlags);
    }
    read_enable_list(bytes)
}

// Whether a message is a Configuration Set of asynchronous events, by its type, opcode and configuration identifier.
fn is_configuration(kind: u8, opcode: u8, configuration: u8) -> bool
    ensures { result ≡ (kind / 8 == 1 && (opcode == 0x03 && configuration == 0x04)) }
{
    kind / 8 == 1 && opcode == 0x03 && configuration == 0x04
}

// The questions of the enable list, and what the request says.
fn read_enable_list<'a>(bytes: &'a [u8]) -> Result<Message<'a>, Refusal>
    requires { 25 ≤ length bytes.now }
    ensures said { reads_by result ≡ request_in (read_as (first_no (enable_questions bytes.now)) bytes.now) }
    ensures list { AckHasList bytes.now result }
{
    let header = usize::from(bytes[20]);
    let total = usize::from(u16::from_le_bytes([bytes[18], bytes[19]]));
    if header < 5 || !(header..=bytes.len() - 20).contains(&total) {
        return Err(Refusal::EnableLengths);
    }
    if total - header > 4096 {
        return Err(Refusal::EnableBodyLong);
    }
    let list = &bytes[16..];
    let part = &list[header..total];
    if !items_fit(bytes[16], part) {
        return Err(Refusal::EnableItems);
    }
    if bytes[16] == 0 {
        return Ok(Message::Ack {
            slot: slot_of(bytes),
            list: &list[..total],
        });
    }
    Ok(Message::Sync {
        slot: slot_of(bytes),
        delays: Delays {
            first: Seconds(bytes[10]),
            retry: Tenths(bytes[9]),
        },
        items: Items {
            number: bytes[16],
            rest: part,
        },
    })
}
