//! Lines of scripts: what they are turned into, and what is wrong with bad ones.
use event::id::UniqueId;
use script::command::{Action, Command};
use script::parse::parse;
use std::alloc::Global;
use std::test::Fail;
use syntax::fault::Fault;
use wire::types::Item;

// A line that is no command, and what is wrong with it.
struct Bad {
    line: &'static [u8],
    fault: Fault,
}

// A call, as the record repeats it, and the length of the buffer that is lent to it.
struct Good {
    line: &'static [u8],
    text: &'static [u8],
    room: usize,
}

const BAD: [Bad; 40] = [
    Bad {
        line: b"jump",
        fault: Fault::UnknownWord,
    },
    Bad {
        line: b"board tower",
        fault: Fault::UnknownWord,
    },
    Bad {
        line: b"carrier pigeon 1",
        fault: Fault::UnknownWord,
    },
    Bad {
        line: b"UP",
        fault: Fault::UnknownWord,
    },
    Bad {
        line: b"room 5",
        fault: Fault::UnknownWord,
    },
    Bad {
        line: b"jump room 5",
        fault: Fault::UnknownWord,
    },
    Bad {
        line: b"board",
        fault: Fault::WordMissing,
    },
    Bad {
        line: b"board drive",
        fault: Fault::WordMissing,
    },
    Bad {
        line: b"row 6 2 0",
        fault: Fault::WordMissing,
    },
    Bad {
        line: b"carrier smbus 3A 20",
        fault: Fault::WordMissing,
    },
    Bad {
        line: b"change 6 # 1E",
        fault: Fault::WordMissing,
    },
    Bad {
        line: b"sync 20 5",
        fault: Fault::WordMissing,
    },
    Bad {
        line: b"hand room 5",
        fault: Fault::WordMissing,
    },
    Bad {
        line: b"show 6 2",
        fault: Fault::WordMissing,
    },
    Bad {
        line: b"board table 1",
        fault: Fault::WordTooMany,
    },
    Bad {
        line: b"board drive 7 8",
        fault: Fault::WordTooMany,
    },
    Bad {
        line: b"carrier mailbox 1",
        fault: Fault::WordTooMany,
    },
    Bad {
        line: b"row 6 2 0 1E 1E",
        fault: Fault::WordTooMany,
    },
    Bad {
        line: b"tick 1 2",
        fault: Fault::WordTooMany,
    },
    Bad {
        line: b"up up",
        fault: Fault::WordTooMany,
    },
    Bad {
        line: b"hand 9 84 84",
        fault: Fault::WordTooMany,
    },
    Bad {
        line: b"ack 5",
        fault: Fault::WordTooMany,
    },
    Bad {
        line: b"board drive 0x7",
        fault: Fault::NoNumber,
    },
    Bad {
        line: b"tick 1A",
        fault: Fault::NoNumber,
    },
    Bad {
        line: b"tick -1",
        fault: Fault::NoNumber,
    },
    Bad {
        line: b"sync 20 5 +",
        fault: Fault::NoNumber,
    },
    Bad {
        line: b"ack room many",
        fault: Fault::NoNumber,
    },
    Bad {
        line: b"board drive 10000",
        fault: Fault::OutOfRange,
    },
    Bad {
        line: b"row 6 100 0 -",
        fault: Fault::OutOfRange,
    },
    Bad {
        line: b"show 6 2 100000000",
        fault: Fault::OutOfRange,
    },
    Bad {
        line: b"tick 1000001",
        fault: Fault::OutOfRange,
    },
    Bad {
        line: b"change 18446744073709551616 -",
        fault: Fault::OutOfRange,
    },
    Bad {
        line: b"sync 256 5 -",
        fault: Fault::OutOfRange,
    },
    Bad {
        line: b"change 6 1",
        fault: Fault::OddDigits,
    },
    Bad {
        line: b"take 840",
        fault: Fault::OddDigits,
    },
    Bad {
        line: b"change 6 1G",
        fault: Fault::NoDigits,
    },
    Bad {
        line: b"take 84--",
        fault: Fault::NoDigits,
    },
    Bad {
        line: b"sync 20 5 06",
        fault: Fault::NoSwitch,
    },
    Bad {
        line: b"sync 20 5 06+,",
        fault: Fault::NoSwitch,
    },
    Bad {
        line: b"up room 5",
        fault: Fault::NoRoom,
    },
];

const GOOD: [Good; 20] = [
    Good {
        line: b"change 6 1E",
        text: b"change 6 1E",
        room: 0,
    },
    Good {
        line: b"tick",
        text: b"tick",
        room: 4111,
    },
    Good {
        line: b"tick 5",
        text: b"tick",
        room: 4111,
    },
    Good {
        line: b"tick room 4110",
        text: b"tick",
        room: 4110,
    },
    Good {
        line: b"tick 5 room 4110",
        text: b"tick",
        room: 4110,
    },
    Good {
        line: b"up",
        text: b"up",
        room: 0,
    },
    Good {
        line: b"\tdown  # the cable is out\r",
        text: b"down",
        room: 0,
    },
    Good {
        line: b"lose#",
        text: b"lose",
        room: 0,
    },
    Good {
        line: b"reset",
        text: b"reset",
        room: 0,
    },
    Good {
        line: b" sync   20 5\t06+,07- room 0",
        text: b"sync 20 5 06+,07-",
        room: 0,
    },
    Good {
        line: b"sync 0 255 -",
        text: b"sync 0 255 -",
        room: 217,
    },
    Good {
        line: b"ack\r",
        text: b"ack",
        room: 217,
    },
    Good {
        line: b"hand 9 room 4114",
        text: b"hand 9",
        room: 4114,
    },
    Good {
        line: b"hand 09 8408ff",
        text: b"hand 09 8408ff",
        room: 4115,
    },
    Good {
        line: b"take",
        text: b"take",
        room: 0,
    },
    Good {
        line: b"give-up",
        text: b"give-up",
        room: 0,
    },
    Good {
        line: b"pick-up room 18446744073709551615",
        text: b"pick-up",
        room: 18446744073709551615,
    },
    Good {
        line: b"fetch",
        text: b"fetch",
        room: 4224,
    },
    Good {
        line: b"show C0 0 FFFFFFFF",
        text: b"show C0 0 FFFFFFFF",
        room: 64,
    },
    Good {
        line: b"packets",
        text: b"packets",
        room: 0,
    },
];

// The command of a line; none if it is blank or bad.
fn command(heap: Global, line: &[u8]) -> Option<Command> {
    parse(heap, line).ok()?
}

// What is wrong with a line; none if nothing is.
fn fault(heap: Global, line: &[u8]) -> Option<Fault> {
    match parse(heap, line) {
        Ok(_) => None,
        Err(fault) => Some(fault),
    }
}

// A call: its action, how the record repeats it, and the length of its buffer; none if the line is no call.
fn call(heap: Global, line: &[u8]) -> Option<(Action, Vec<u8>, usize)> {
    match command(heap, line)? {
        Command::Call { action, text, room } => Some((action, text, room)),
        _ => None,
    }
}

// Whether a line is this call.
fn is_call(heap: Global, good: &Good) -> bool {
    match call(heap, good.line) {
        Some((_, text, room)) => text.as_slice() == good.text && room == good.room,
        None => false,
    }
}

#[test]
fn bad_lines(rt: HostRuntime) {
    for (i, bad) in BAD.iter().enumerate() {
        assert!(rt; fault(rt.alloc(), bad.line) == Some(bad.fault), "{}", i);
    }
}

#[test]
fn calls(rt: HostRuntime) {
    for (i, good) in GOOD.iter().enumerate() {
        assert!(rt; is_call(rt.alloc(), good), "{}", i);
    }
}

#[test]
fn blank_lines(rt: HostRuntime) -> Result<(), Fail> {
    let lines: [&[u8]; 4] = [b"", b" \t\r", b"# up", b"  # up # down"];
    for line in lines {
        match parse(rt.alloc(), line)? {
            None => {}
            Some(_) => return Err(Fail::new("a blank line is a command")),
        }
    }
    Ok(())
}

// The ID and the reading of a row, if the reading has three bytes; none if the line is no such row.
fn row(heap: Global, line: &[u8]) -> Option<(UniqueId, [u8; 3])> {
    match command(heap, line)? {
        Command::Row { id, reading } => Some((id, reading.as_slice().try_into().ok()?)),
        _ => None,
    }
}

#[test]
fn a_row(rt: HostRuntime) {
    let id = UniqueId {
        identifier: 0xC0,
        scope: 0,
        info: 1,
    };
    assert!(rt; row(rt.alloc(), b"row 0c0 00 0000000001 Aa01fF") == Some((id, [0xAA, 0x01, 0xFF])));
}

// The controller ID of the drive board, or none for the table board; none at all if the line is no board.
fn board(heap: Global, line: &[u8]) -> Option<Option<u16>> {
    match command(heap, line)? {
        Command::DriveBoard { controller } => Some(Some(controller)),
        Command::TableBoard => Some(None),
        _ => None,
    }
}

#[test]
fn boards(rt: HostRuntime) {
    assert!(rt; board(rt.alloc(), b"board drive fFfE") == Some(Some(0xFFFE)));
    assert!(rt; board(rt.alloc(), b"board table") == Some(None));
}

// The three numbers of the SMBus carrier, or none for the mailbox; none at all if the line is no carrier.
fn carrier(heap: Global, line: &[u8]) -> Option<Option<[u8; 3]>> {
    match command(heap, line)? {
        Command::Smbus {
            destination,
            source,
            id,
        } => Some(Some([destination, source, id])),
        Command::Mailbox => Some(None),
        _ => None,
    }
}

#[test]
fn carriers(rt: HostRuntime) {
    let numbers = carrier(rt.alloc(), b"carrier smbus 3A 20 ff");
    assert!(rt; numbers == Some(Some([0x3A, 0x20, 0xFF])));
    assert!(rt; carrier(rt.alloc(), b"carrier mailbox") == Some(None));
}

// The action of a line; none if it is no call.
fn action(heap: Global, line: &[u8]) -> Option<Action> {
    let (action, ..) = call(heap, line)?;
    Some(action)
}

#[test]
fn a_sync(rt: HostRuntime) -> Result<(), Fail> {
    match action(rt.alloc(), b"sync 020 5 06+,c1-,6-") {
        Some(Action::Sync { delays, items }) => {
            assert!(rt; delays.first.0 == 20);
            assert!(rt; delays.retry.0 == 5);
            let expected = [
                Item {
                    identifier: 6,
                    on: true,
                },
                Item {
                    identifier: 0xC1,
                    on: false,
                },
                Item {
                    identifier: 6,
                    on: false,
                },
            ];
            assert!(rt; items.as_slice() == expected.as_slice());
            Ok(())
        }
        _ => Err(Fail::new("no sync")),
    }
}

// The message of a line, and its sender if the endpoint is handed it; none if the line hands and takes none.
fn message(heap: Global, line: &[u8]) -> Option<(Option<u8>, Option<Vec<u8>>)> {
    match action(heap, line)? {
        Action::Hand { sender, message } => Some((Some(sender), message)),
        Action::Take { message } => Some((None, message)),
        _ => None,
    }
}

// Whether a line hands on this message, to the endpoint if there is a sender and else to the book.
fn is_message(heap: Global, line: &[u8], sender: Option<u8>, bytes: Option<&[u8]>) -> bool {
    match message(heap, line) {
        Some(message) => message.0 == sender && message.1.as_deref() == bytes,
        None => false,
    }
}

#[test]
fn messages(rt: HostRuntime) {
    assert!(rt; is_message(rt.alloc(), b"hand 1f -", Some(0x1F), Some(&[])));
    assert!(rt; is_message(rt.alloc(), b"take 84", None, Some(&[0x84])));
    assert!(rt; is_message(rt.alloc(), b"take", None, None));
}

// The ticks of a line with none, or the place of a change with the length of its reading; none if the line is neither.
fn counted(heap: Global, line: &[u8]) -> Option<(usize, Option<usize>)> {
    match action(heap, line)? {
        Action::Tick { count } => Some((count, None)),
        Action::Change { place, reading } => Some((place, Some(reading.len()))),
        _ => None,
    }
}

#[test]
fn counts(rt: HostRuntime) {
    assert!(rt; counted(rt.alloc(), b"tick 1000000") == Some((1_000_000, None)));
    assert!(rt; counted(rt.alloc(), b"tick room 7") == Some((1, None)));
    let change = counted(rt.alloc(), b"change 18446744073709551615 -");
    assert!(rt; change == Some((usize::MAX, Some(0))));
}
