//! The words of a call are turned into an action. The allocator is a parameter of its own, as in the library's calls.
ghost use Rattle.std.specs.Prelude.{◌≡◌, length, option_map, vec_items};
ghost use Rattle.script.specs.Actions.{miscount, id_of, tick_of, show_of, change_by, change_of, sync_by, sync_of, message_of, hand_of, about_messages_of, plain_of, alone_of, action_of};
ghost use Rattle.script.specs.Said.{action_said};
ghost use Rattle.syntax.specs.Lines.{texts};
ghost use Rattle.syntax.specs.Strings.{GivesAs};

use crate::command::Action;
use crate::items::items;
use event::delay::{Delays, Seconds, Tenths};
use event::id::UniqueId;
use std::alloc::Global;
use syntax::bytes::bytes;
use syntax::fault::Fault;
use syntax::number::{decimal, decimal_at_most, hex};

/// What is wrong with a command that has another number of words than it should.
pub(crate) fn miscounted(words: &[&[u8]], wanted: usize) -> Fault
    ensures { result ≡ miscount (length words.now) wanted }
{
    if words.len() < wanted {
        Fault::WordMissing
    } else {
        Fault::WordTooMany
    }
}

/// A unique ID: identifier, scope, scope ID info.
pub(crate) fn unique_id(identifier: &[u8], scope: &[u8], info: &[u8]) -> Result<UniqueId, Fault>
    ensures { result ≡ id_of identifier.now scope.now info.now }
{
    Ok(UniqueId {
        identifier: hex(identifier)?,
        scope: hex(scope)?,
        info: hex(info)?,
    })
}

// The change that two words say.
fn change_by(heap: Global, place: &[u8], reading: &[u8]) -> Result<Action, Fault>
    ensures { GivesAs action_said result (change_by place.now reading.now) }
{
    Ok(Action::Change {
        place: decimal(place)?,
        reading: bytes(heap, reading)?,
    })
}

// A change: place, reading.
fn change(heap: Global, words: &[&[u8]]) -> Result<Action, Fault>
    ensures { GivesAs action_said result (change_of (texts words.now)) }
{
    match words {
        [place, reading] => change_by(heap, place, reading),
        _ => Err(miscounted(words, 2)),
    }
}

// Ticks: their count, 1 if absent.
fn tick(words: &[&[u8]]) -> Result<Action, Fault>
    ensures { result ≡ tick_of (texts words.now) }
{
    match words {
        [] => Ok(Action::Tick { count: 1 }),
        [count] => Ok(Action::Tick {
            count: decimal_at_most(1_000_000, count)?,
        }),
        _ => Err(Fault::WordTooMany),
    }
}

// The sync that three words say.
fn sync_by(heap: Global, delay: &[u8], retry: &[u8], list: &[u8]) -> Result<Action, Fault>
    ensures { GivesAs action_said result (sync_by delay.now retry.now list.now) }
{
    Ok(Action::Sync {
        delays: Delays {
            first: Seconds(decimal(delay)?),
            retry: Tenths(decimal(retry)?),
        },
        items: items(heap, list)?,
    })
}

// A sync: delay, retry delay, items.
fn sync(heap: Global, words: &[&[u8]]) -> Result<Action, Fault>
    ensures { GivesAs action_said result (sync_of (texts words.now)) }
{
    match words {
        [delay, retry, list] => sync_by(heap, delay, retry, list),
        _ => Err(miscounted(words, 3)),
    }
}

// A message, if there is one.
fn message(heap: Global, words: &[&[u8]]) -> Result<Option<Vec<u8>>, Fault>
    ensures { GivesAs (option_map vec_items) result (message_of (texts words.now)) }
{
    match words {
        [] => Ok(None),
        [message] => Ok(Some(bytes(heap, message)?)),
        _ => Err(Fault::WordTooMany),
    }
}

// A message handed to the endpoint: sender, message.
fn hand(heap: Global, words: &[&[u8]]) -> Result<Action, Fault>
    ensures { GivesAs action_said result (hand_of (texts words.now)) }
{
    let [sender, rest @ ..] = words else {
        return Err(Fault::WordMissing);
    };
    Ok(Action::Hand {
        sender: hex(sender)?,
        message: message(heap, rest)?,
    })
}

// A source shown: identifier, scope, scope ID info.
fn show(words: &[&[u8]]) -> Result<Action, Fault>
    ensures { result ≡ show_of (texts words.now) }
{
    let [identifier, scope, info] = words else {
        return Err(miscounted(words, 3));
    };
    Ok(Action::Show {
        id: unique_id(identifier, scope, info)?,
    })
}

// A call of one word that is about messages.
fn about_messages(name: &[u8]) -> Result<Action, Fault>
    ensures { result ≡ about_messages_of name.now }
{
    match name {
        b"ack" => Ok(Action::Ack),
        b"give-up" => Ok(Action::GiveUp),
        b"pick-up" => Ok(Action::PickUp),
        b"fetch" => Ok(Action::Fetch),
        b"packets" => Ok(Action::Packets),
        _ => Err(Fault::UnknownWord),
    }
}

// A call of one word.
fn plain(name: &[u8]) -> Result<Action, Fault>
    ensures { result ≡ plain_of name.now }
{
    match name {
        b"up" => Ok(Action::Up),
        b"down" => Ok(Action::Down),
        b"lose" => Ok(Action::Lose),
        b"reset" => Ok(Action::Reset),
        _ => about_messages(name),
    }
}

// A call that has no words after its name.
fn alone(name: &[u8], words: &[&[u8]]) -> Result<Action, Fault>
    ensures { GivesAs action_said result (alone_of name.now (texts words.now)) }
{
    let action = plain(name)?;
    match words {
        [] => Ok(action),
        _ => Err(Fault::WordTooMany),
    }
}

/// The action of a call: its name, and the words after it.
pub(crate) fn action(heap: Global, name: &[u8], words: &[&[u8]]) -> Result<Action, Fault>
    ensures { GivesAs action_said result (action_of name.now (texts words.now)) }
{
    match name {
        b"change" => change(heap, words),
        b"tick" => tick(words),
        b"sync" => sync(heap, words),
        b"hand" => hand(heap, words),
        b"take" => Ok(Action::Take {
            message: message(heap, words)?,
        }),
        b"show" => show(words),
        _ => alone(name, words),
    }
}
