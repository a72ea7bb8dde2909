//! Messages and lists against bytes that were worked out by hand from the formats, and malformed ones against the refusal
//! that each must get.
use crate::boards::vendor;
use board::Board;
use board::drive::DriveBoard;
use board::table::TableBoard;
use crc::crc32c;
use event::delay::{Delays, Seconds, Tenths};
use event::refusal::Refusal;
use marks::types::{Marked, Marks};
use wire::message::write_event;
use wire::read::{read_event, read_request};
use wire::request::write_sync;
use wire::types::{Item, Message};

// One byte of a message changed, and the number of the refusal that this must bring; none where it is still read.
struct Damage {
    place: usize,
    byte: u8,
    number: Option<u8>,
}

// The check word of a message, written into its last four bytes.
fn seal(message: &mut [u8]) {
    if let Some(rest) = message.len().checked_sub(4) {
        let word = crc32c(&message[..rest]).to_le_bytes();
        message[rest..].copy_from_slice(&word);
    }
}

// The number of the refusal of a request, if it is refused.
fn request_number(request: &[u8]) -> Option<u8> {
    read_request(request).err().map(Refusal::number)
}

// The number of the refusal of an event message, if it is refused.
fn event_number(event: &[u8]) -> Option<u8> {
    read_event(event).err().map(Refusal::number)
}

// The bytes of a request that one item makes: composite temperature on.
const REQUEST: [u8; 28] = [
    0x84, 0x08, 0, 0, 0x03, 0, 0, 0, 0x04, 20, 5, 0, 0, 0, 0, 0, // head
    0x01, 0x00, 0x08, 0x00, 0x05, 0x03, 0x06, 0x80, // enable list
    0, 0, 0, 0, // check word
];

// The bytes of an event message of one occurrence: composite temperature 1Eh, generation 1.
const EVENT: [u8; 25] = [
    0x84, 0x28, 0x00, 0x00, // head
    0x01, 0x00, 0x11, 0x00, 0x00, 0x07, 0x08, // list header
    0x09, 0x01, 0x00, 0x06, 0x00, 0x00, 0x00, 0x00, 0x02, 0x1E, // occurrence
    0, 0, 0, 0, // check word
];

const DAMAGED_REQUESTS: [Damage; 22] = [
    Damage {
        place: 0,
        byte: 0x85,
        number: Some(3),
    },
    Damage {
        place: 1,
        byte: 0x10,
        number: Some(5),
    },
    Damage {
        place: 4,
        byte: 0x04,
        number: Some(5),
    },
    Damage {
        place: 8,
        byte: 0x05,
        number: Some(5),
    },
    Damage {
        place: 2,
        byte: 0x01,
        number: Some(6),
    },
    Damage {
        place: 2,
        byte: 0x02,
        number: Some(6),
    },
    Damage {
        place: 20,
        byte: 0x04,
        number: Some(7),
    },
    Damage {
        place: 20,
        byte: 0x09,
        number: Some(7),
    },
    Damage {
        place: 18,
        byte: 0x04,
        number: Some(7),
    },
    Damage {
        place: 18,
        byte: 0x09,
        number: Some(7),
    },
    Damage {
        place: 19,
        byte: 0x01,
        number: Some(7),
    },
    Damage {
        place: 21,
        byte: 0x02,
        number: Some(9),
    },
    Damage {
        place: 21,
        byte: 0x04,
        number: Some(9),
    },
    Damage {
        place: 16,
        byte: 0x02,
        number: Some(9),
    },
    Damage {
        place: 1,
        byte: 0x0F,
        number: None,
    },
    Damage {
        place: 2,
        byte: 0x04,
        number: None,
    },
    Damage {
        place: 3,
        byte: 0xFF,
        number: None,
    },
    Damage {
        place: 5,
        byte: 0xFF,
        number: None,
    },
    Damage {
        place: 11,
        byte: 0xFF,
        number: None,
    },
    Damage {
        place: 17,
        byte: 0x07,
        number: None,
    },
    Damage {
        place: 16,
        byte: 0x00,
        number: None,
    },
    Damage {
        place: 22,
        byte: 0x77,
        number: None,
    },
];

const DAMAGED_EVENTS: [Damage; 21] = [
    Damage {
        place: 0,
        byte: 0x85,
        number: Some(25),
    },
    Damage {
        place: 1,
        byte: 0x29,
        number: Some(25),
    },
    Damage {
        place: 2,
        byte: 0x01,
        number: Some(25),
    },
    Damage {
        place: 3,
        byte: 0x01,
        number: Some(25),
    },
    Damage {
        place: 4,
        byte: 0x00,
        number: Some(25),
    },
    Damage {
        place: 4,
        byte: 0x02,
        number: Some(25),
    },
    Damage {
        place: 5,
        byte: 0x01,
        number: Some(25),
    },
    Damage {
        place: 6,
        byte: 0x12,
        number: Some(25),
    },
    Damage {
        place: 7,
        byte: 0x01,
        number: Some(25),
    },
    Damage {
        place: 8,
        byte: 0x80,
        number: Some(25),
    },
    Damage {
        place: 9,
        byte: 0x08,
        number: Some(25),
    },
    Damage {
        place: 11,
        byte: 0x08,
        number: Some(25),
    },
    Damage {
        place: 12,
        byte: 0x00,
        number: Some(25),
    },
    Damage {
        place: 12,
        byte: 0x02,
        number: Some(25),
    },
    Damage {
        place: 13,
        byte: 0x01,
        number: Some(25),
    },
    Damage {
        place: 14,
        byte: 0x0C,
        number: Some(25),
    },
    Damage {
        place: 14,
        byte: 0x0B,
        number: Some(25),
    },
    Damage {
        place: 15,
        byte: 0x01,
        number: Some(25),
    },
    Damage {
        place: 19,
        byte: 0x01,
        number: Some(25),
    },
    Damage {
        place: 10,
        byte: 0xFF,
        number: None,
    },
    Damage {
        place: 20,
        byte: 0xFF,
        number: None,
    },
];

// The list of the one changed source of a drive, in an event message of generation 1.
#[test]
fn one_occurrence(rt: HostRuntime) {
    let mut expected = [0xEE; 26];
    expected[..25].copy_from_slice(&EVENT);
    seal(&mut expected[..25]);
    assert!(rt; changed_drive(6, &[0x1E]) == Some((25, expected)));
}

// Bodies of 4,096 and 4,097 bytes: the first fits, the second leaves the header alone with the overflow bit.
#[test]
fn body_limit(rt: HostRuntime) {
    assert!(rt; list_of(55, 63) == Some((4103, [0x39, 0x00, 0x07, 0x10, 0x00, 0x07, 0xF8])));
    assert!(rt; list_of(56, 0) == Some((7, [0x00, 0x00, 0x00, 0x00, 0x80, 0x07, 0xF8])));
}

// A sync that switches the composite temperature on.
#[test]
fn written_sync(rt: HostRuntime) {
    let mut buffer = [0xEE; 217];
    let items = [Item {
        identifier: 0x06,
        on: true,
    }];
    let delays = Delays {
        first: Seconds(5),
        retry: Tenths(20),
    };
    assert!(rt; write_sync(&mut buffer, &items, delays).ok() == Some(28));
    let mut expected = [0xEE; 29];
    expected[..28].copy_from_slice(&REQUEST);
    seal(&mut expected[..28]);
    assert!(rt; buffer.first_chunk() == Some(&expected));
}

// An item that switches on and one that switches off, of one identifier: both are read, in their order.
#[test]
fn on_then_off(rt: HostRuntime) {
    let mut bytes = [0u8; 31];
    bytes[0..24].copy_from_slice(&REQUEST[0..24]);
    bytes[16] = 2;
    bytes[18] = 0x0B;
    bytes[24] = 3;
    bytes[25] = 0x06;
    seal(&mut bytes);
    let expected = [
        Some(Item {
            identifier: 0x06,
            on: true,
        }),
        Some(Item {
            identifier: 0x06,
            on: false,
        }),
        None,
    ];
    assert!(rt; three_items(&bytes) == Some(expected));
}

// The first three items of a sync, as far as there are so many; none at all if the bytes are no sync.
fn three_items(bytes: &[u8]) -> Option<[Option<Item>; 3]> {
    match read_request(bytes) {
        Ok(Message::Sync { mut items, .. }) => Some([items.next(), items.next(), items.next()]),
        _ => None,
    }
}

// Each damaged request with a right check word, and the three that no changed byte makes.
#[test]
fn damaged_requests(rt: HostRuntime) {
    for (i, damage) in DAMAGED_REQUESTS.iter().enumerate() {
        assert!(rt;
            request_number(&damaged(REQUEST, damage)) == damage.number,
            "{}",
            i
        );
    }
    assert!(rt; request_number(&REQUEST) == Some(4));
    assert!(rt; request_number(&REQUEST[0..24]) == Some(2));
    assert!(rt; request_number(&[0x84; 4225]) == Some(2));
    let mut long = [0u8; 4224];
    long[0..28].copy_from_slice(&REQUEST);
    long[18] = 0x06;
    long[19] = 0x10;
    seal(&mut long);
    assert!(rt; request_number(&long) == Some(8));
}

// Each damaged event message with a right check word; one with a wrong check word; one with an ID twice.
#[test]
fn damaged_events(rt: HostRuntime) {
    for (i, damage) in DAMAGED_EVENTS.iter().enumerate() {
        assert!(rt;
            event_number(&damaged(EVENT, damage)) == damage.number,
            "{}",
            i
        );
    }
    assert!(rt; event_number(&EVENT) == Some(25));
    let mut twice = [0u8; 35];
    twice[0..21].copy_from_slice(&EVENT[0..21]);
    twice[21..31].copy_from_slice(&EVENT[11..21]);
    twice[4] = 2;
    twice[6] = 0x1B;
    seal(&mut twice);
    assert!(rt; event_number(&twice) == Some(25));
    twice[24] = 0x07;
    seal(&mut twice);
    assert!(rt; event_number(&twice) == None);
}

// A message with this damage, and a right check word.
fn damaged<const N: usize>(message: [u8; N], damage: &Damage) -> [u8; N] {
    let mut bytes = message;
    if let Some(byte) = bytes.get_mut(damage.place) {
        *byte = damage.byte;
    }
    seal(&mut bytes);
    bytes
}

// The event message, of generation 1, of a drive with one changed source: its length, and the first bytes of its buffer,
// which is full of EEh before.
fn changed_drive(place: usize, reading: &[u8]) -> Option<(usize, [u8; 26])> {
    let mut drive = DriveBoard::new(7);
    let mut marks = Marks::none();
    if !drive.set(place, reading) || !marks.mark(place, drive.reading(place)?) {
        return None;
    }
    let marked = Marked {
        board: &drive,
        marks: &marks,
    };
    let mut buffer = [0xEE; 4111];
    let n = write_event(&mut buffer, 8, &marked).ok()?;
    Some((n, *buffer.first_chunk()?))
}

// The list of so many vendor sources with readings of 64 bytes, one of `last` bytes (if any) and one of none, at
// generation 31: its length and its header.
fn list_of(full: usize, last: usize) -> Option<(usize, [u8; 7])> {
    let mut rows = [vendor(0, 64); 57];
    let mut marks = Marks::none();
    for (i, row) in rows.iter_mut().enumerate() {
        let length = if i < full {
            64
        } else if i < 56 {
            last
        } else {
            0
        };
        *row = vendor(i as u32, length);
        let _marked = marks.mark(i, row.reading);
    }
    let board = TableBoard::new(&rows).ok()?;
    let marked = Marked {
        board: &board,
        marks: &marks,
    };
    let mut out = [0u8; 4103];
    let n = marked.put_list(&mut out, 0xF8)?;
    Some((n, *out.first_chunk()?))
}
