//! What a message says, in words.
use crate::hex::Hex;
use event::names::{EventName, ScopeName};
use event::refusal::Refusal;
use list::types::OccurrenceList;
use std::io;
use wire::types::{Items, Message};

/// Prints what a reader made of bytes: the message in words, or why it was refused.
pub(crate) fn show(rt: &HostRuntime, read: Result<Message, Refusal>) -> io::Result<()> {
    match read {
        Ok(
            Message::Event {
                generation,
                retries,
                list,
            },
        ) => {
            println!(rt; "  an event message: generation {generation}, retry {retries}")?;
            show_list(rt, list)
        }
        Ok(Message::Answer { slot, list }) => {
            let slot = u8::from(slot);
            println!(rt; "  an answer: slot {slot}")?;
            show_list(rt, list)
        }
        Ok(
            Message::Sync {
                slot,
                delays,
                items,
            },
        ) => {
            let slot = u8::from(slot);
            let delay = delays.first.ticks();
            let retry = delays.retry.ticks();
            println!(rt; "  a sync: slot {slot}, delay {delay} ticks, retry delay {retry} ticks")?;
            show_items(rt, items)
        }
        Ok(Message::Ack { slot, list: _ }) => {
            let slot = u8::from(slot);
            println!(rt; "  an ack: slot {slot}")
        }
        Err(refusal) => show_refusal(rt, refusal),
    }
}

/// Prints why a call was refused.
pub(crate) fn show_refusal(rt: &HostRuntime, refusal: Refusal) -> io::Result<()> {
    let number = refusal.number();
    println!(rt; "  refused {number} ({refusal})")
}

fn show_list(rt: &HostRuntime, list: OccurrenceList) -> io::Result<()> {
    let Ok(occurrences) = list else {
        return println!(rt; "    overflow: the occurrences did not fit");
    };
    for o in occurrences {
        let event = EventName(o.id.identifier);
        let scope = ScopeName(o.id.scope);
        let info = o.id.info;
        let reading = Hex(o.reading.as_bytes());
        println!(rt; "    {event}, {scope} {info}: {reading}")?;
    }
    Ok(())
}

fn show_items(rt: &HostRuntime, items: Items) -> io::Result<()> {
    for item in items {
        let event = EventName(item.identifier);
        let switch = if item.on { "on" } else { "off" };
        println!(rt; "    {event}: {switch}")?;
    }
    Ok(())
}
