//! What is shown to C: what a message says, and what lists tell.
ghost use Rattle.std.specs.Prelude.{◌≡◌, length, slice_set};
ghost use Rattle.list.specs.View.{left as occurrences_left, told_by};
ghost use Rattle.wire.specs.View.{left as items_left, reads_by};
ghost use Rattle.crossing.specs.Reading.{Shows, with_rows, with_items, is_overflow, told_occurrences};

use crate::types::{Head, Row, Switch};
use event::refusal::Refusal;
use list::types::{OccurrenceList, Occurrences, Overflow};
use wire::types::{Items, Message};

/// Shows what a reader hands back, and returns the number of its refusal, 0 where there was none.
#[tactic(auto, unfolding(crate::specs::Reading::with_rows, crate::specs::Reading::with_items))]
pub fn show(
    read: Result<Message, Refusal>,
    head: &mut Head,
    switches: &mut [Switch],
    rows: &mut [Row],
) -> u8
    ensures { Shows (reads_by read.entry) head.old head.new switches.old switches.new rows.old rows.new result }
{
    match read {
        Ok(
            Message::Sync {
                slot,
                delays,
                items,
            },
        ) => {
            let number = show_items(items, switches);
            *head = Head {
                kind: 1,
                slot,
                first: delays.first.0,
                retry: delays.retry.0,
                number,
                ..Head::default()
            };
            0
        }
        Ok(Message::Ack { slot, list: _ }) => {
            *head = Head {
                kind: 2,
                slot,
                ..Head::default()
            };
            0
        }
        Ok(
            Message::Event {
                generation,
                retries,
                list,
            },
        ) => {
            let (overflow, number) = show_list(list, rows);
            *head = Head {
                kind: 3,
                generation,
                retries,
                overflow,
                number,
                ..Head::default()
            };
            0
        }
        Ok(Message::Answer { slot, list }) => {
            let (overflow, number) = show_list(list, rows);
            *head = Head {
                kind: 4,
                slot,
                overflow,
                number,
                ..Head::default()
            };
            0
        }
        Err(refusal) => refusal.number(),
    }
}

/// Shows the occurrences of a list, and says whether they were too many for it, and how many they are.
#[tactic(auto, unfolding(crate::specs::Reading::with_rows))]
pub fn show_list(list: OccurrenceList, rows: &mut [Row]) -> (bool, usize)
    ensures overflow { result.0 ≡ is_overflow (told_by list.entry) }
    ensures number { result.1 ≡ length (told_occurrences (told_by list.entry)) }
    ensures rows { rows.new ≡ with_rows rows.old 0 (told_occurrences (told_by list.entry)) }
{
    match list {
        Ok(list) => (false, show_occurrences(list, rows)),
        Err(Overflow) => (true, 0),
    }
}

// Writes occurrences into rows, as far as there is room, and counts them all.
fn show_occurrences(list: Occurrences, rows: &mut [Row]) -> usize
    ensures number { result ≡ length (occurrences_left list.entry) }
    ensures rows { rows.new ≡ with_rows rows.old 0 (occurrences_left list.entry) }
{
    let mut at = 0;
    for occurrence in list {
        put_row(rows, at, Row::of(occurrence));
        at += 1;
    }
    at
}

// Writes items into switches, as far as there is room, and counts them all.
fn show_items(items: Items, switches: &mut [Switch]) -> usize
    ensures number { result ≡ length (items_left items.entry) }
    ensures switches { switches.new ≡ with_items switches.old 0 (items_left items.entry) }
{
    let mut at = 0;
    for item in items {
        put_switch(switches, at, Switch::of(item));
        at += 1;
    }
    at
}

// Writes a row to a place, if there is such a place.
#[tactic(auto, using(std::proofs::lemmas::List::set_past))]
fn put_row(rows: &mut [Row], place: usize, row: Row)
    ensures { rows.new ≡ slice_set rows.old place row }
{
    if place < rows.len() {
        rows[place] = row;
    }
}

// Writes a switch to a place, if there is such a place.
#[tactic(auto, using(std::proofs::lemmas::List::set_past))]
fn put_switch(switches: &mut [Switch], place: usize, switch: Switch)
    ensures { switches.new ≡ slice_set switches.old place switch }
{
    if place < switches.len() {
        switches[place] = switch;
    }
}
