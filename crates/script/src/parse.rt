//! A line is turned into a command.
ghost use Rattle.std.specs.Prelude.{◌≡◌, option_map, vec_items};
ghost use Rattle.syntax.specs.Lines.{uncommented, words_of, texts};
ghost use Rattle.syntax.specs.Strings.{GivesAs};
ghost use Rattle.script.specs.Said.{action_said, command_said};
ghost use Rattle.script.specs.Rooms.{is_room, with_room, roomed, room_said};
ghost use Rattle.script.specs.Commands.{text_of, call_of, drive_of, bare, board_of, row_by, row_of, smbus_by, smbus_of, carrier_of, command_of, line_of};

use crate::action::{action, miscounted, unique_id};
use crate::command::{Action, Command};
use crate::room::room;
use std::alloc::Global;
use syntax::bytes::bytes;
use syntax::fault::Fault;
use syntax::number::{decimal, hex};
use syntax::words::{joined, words};

// A command that has no more words.
fn bare(command: Command, words: &[&[u8]]) -> Result<Command, Fault>
    ensures { result ≡ bare command (texts words.now) }
{
    match words {
        [] => Ok(command),
        _ => Err(Fault::WordTooMany),
    }
}

// The drive board: its controller ID.
fn drive(words: &[&[u8]]) -> Result<Command, Fault>
    ensures { result ≡ drive_of (texts words.now) }
{
    let [id] = words else {
        return Err(miscounted(words, 1));
    };
    Ok(Command::DriveBoard {
        controller: hex(id)?,
    })
}

// A board: its name, and for the drive board the controller ID.
fn board(words: &[&[u8]]) -> Result<Command, Fault>
    ensures { result ≡ board_of (texts words.now) }
{
    let [name, rest @ ..] = words else {
        return Err(Fault::WordMissing);
    };
    match *name {
        b"table" => bare(Command::TableBoard, rest),
        b"drive" => drive(rest),
        _ => Err(Fault::UnknownWord),
    }
}

// The row that four words say.
fn row_by(
    heap: Global,
    identifier: &[u8],
    scope: &[u8],
    info: &[u8],
    reading: &[u8],
) -> Result<Command, Fault>
    ensures { GivesAs command_said result (row_by identifier.now scope.now info.now reading.now) }
{
    Ok(Command::Row {
        id: unique_id(identifier, scope, info)?,
        reading: bytes(heap, reading)?,
    })
}

// A row of the table board: unique ID, reading.
fn row(heap: Global, words: &[&[u8]]) -> Result<Command, Fault>
    ensures { GivesAs command_said result (row_of (texts words.now)) }
{
    match words {
        [identifier, scope, info, reading] => row_by(heap, identifier, scope, info, reading),
        _ => Err(miscounted(words, 4)),
    }
}

// The SMBus carrier that three words say.
fn smbus_by(destination: &[u8], source: &[u8], id: &[u8]) -> Result<Command, Fault>
    ensures { result ≡ smbus_by destination.now source.now id.now }
{
    Ok(Command::Smbus {
        destination: hex(destination)?,
        source: hex(source)?,
        id: hex(id)?,
    })
}

// The SMBus carrier: its two addresses and its endpoint ID.
fn smbus(words: &[&[u8]]) -> Result<Command, Fault>
    ensures { result ≡ smbus_of (texts words.now) }
{
    match words {
        [destination, source, id] => smbus_by(destination, source, id),
        _ => Err(miscounted(words, 3)),
    }
}

// A carrier: its name, and for the SMBus carrier the two addresses and the endpoint ID.
fn carrier(words: &[&[u8]]) -> Result<Command, Fault>
    ensures { result ≡ carrier_of (texts words.now) }
{
    let [name, rest @ ..] = words else {
        return Err(Fault::WordMissing);
    };
    match *name {
        b"mailbox" => bare(Command::Mailbox, rest),
        b"smbus" => smbus(rest),
        _ => Err(Fault::UnknownWord),
    }
}

// Whether a word says that a room follows.
fn is_room(word: &[u8]) -> bool
    ensures { result ≡ is_room word.now }
{
    matches!(word, b"room")
}

// The words of a call, and the room of this length.
fn with_room<'a>(
    call: &'a [&'a [u8]],
    length: &[u8],
) -> Result<(&'a [&'a [u8]], Option<usize>), Fault>
    ensures { GivesAs room_said result (with_room (texts call.now) length.now) }
{
    Ok((call, Some(decimal(length)?)))
}

// The words of a call before its room, and the room.
fn said_room<'a>(words: &'a [&'a [u8]]) -> Result<(&'a [&'a [u8]], Option<usize>), Fault>
    ensures { GivesAs room_said result (roomed (texts words.now)) }
{
    match words {
        [call @ .., name, length] if !call.is_empty() && is_room(name) => with_room(call, length),
        _ => Ok((words, None)),
    }
}

// The call as the record repeats it: a tick without its count.
fn text(heap: Global, action: &Action, words: &[&[u8]]) -> Result<Vec<u8>, Fault>
    ensures { GivesAs vec_items result (Ok (text_of (action_said action.now) (texts words.now))) }
{
    match action {
        Action::Tick { .. } => Ok(b"tick".to_vec(heap)?),
        _ => joined(heap, words),
    }
}

// A call, which may end in its room.
fn call(heap: Global, words: &[&[u8]]) -> Result<Command, Fault>
    ensures { GivesAs command_said result (call_of (texts words.now)) }
{
    let (words, said) = said_room(words)?;
    let [name, rest @ ..] = words else {
        return Err(Fault::WordMissing);
    };
    let action = action(heap, name, rest)?;
    let room = room(&action, said)?;
    let text = text(heap, &action, words)?;
    Ok(Command::Call { action, text, room })
}

// The command of words: its name, and the words after it; any other name is that of a call.
fn command(heap: Global, words: &[&[u8]]) -> Result<Command, Fault>
    ensures { GivesAs command_said result (command_of (texts words.now)) }
{
    let [name, rest @ ..] = words else {
        return Err(Fault::WordMissing);
    };
    match *name {
        b"board" => board(rest),
        b"row" => row(heap, rest),
        b"carrier" => carrier(rest),
        _ => call(heap, words),
    }
}

/// The command of a line; none if it is blank or a comment.
pub fn parse(heap: Global, line: &[u8]) -> Result<Option<Command>, Fault>
    ensures { GivesAs (option_map command_said) result (line_of (words_of (uncommented line.now))) }
{
    let words = words(heap, line)?;
    match words.as_slice() {
        [] => Ok(None),
        words => Ok(Some(command(heap, words)?)),
    }
}
