//! Sets on each board, and rows that make no board.
use board::Board;
use board::change::try_set;
use board::drive::DriveBoard;
use board::table::TableBoard;
use event::id::UniqueId;
use event::occurrence::Occurrence;
use event::reading::Reading;
use event::refusal::Refusal;
use std::test::Fail;

// The number of the refusal, if there is one.
fn refused<T: Drop>(res: Result<T, Refusal>) -> Option<u8> {
    res.err().map(Refusal::number)
}

// The first byte of the reading at a place, if there is one.
fn first<B: Board>(board: &B, place: usize) -> Option<u8> {
    board.reading(place)?.as_bytes().first().copied()
}

// A source of a vendor's event in a namespace of this number, with a reading of so many bytes.
pub(crate) fn vendor(number: u32, length: usize) -> Occurrence {
    let bytes = [0xA5; 64];
    let reading = Reading::new(&bytes[0..length.min(64)]).unwrap_or_default();
    let id = UniqueId {
        identifier: 0xC0,
        scope: 0,
        info: number,
    };
    Occurrence { id, reading }
}

#[test]
fn sets_on_a_drive_board(rt: HostRuntime) {
    let mut board = DriveBoard::new(7);
    assert!(rt; board.count() == 12);
    assert!(rt; refused(try_set(&mut board, 6, &[0x1E])) == None);
    assert!(rt; [first(&board, 6), first(&board, 7)] == [Some(0x1E), Some(0)]);
    let numbers = [
        refused(try_set(&mut board, 12, &[0])),
        refused(try_set(&mut board, 2, &[8])),
        refused(try_set(&mut board, 4, &[])),
    ];
    assert!(rt; numbers == [Some(11), Some(12), None]);
}

#[test]
fn sets_on_a_table_board(rt: HostRuntime) -> Result<(), Fail> {
    let mut board = TableBoard::new(&[vendor(1, 0), vendor(2, 0)])?;
    assert!(rt; board.count() == 2);
    assert!(rt; refused(try_set(&mut board, 1, &[5, 6])) == None);
    assert!(rt; [first(&board, 1), first(&board, 0)] == [Some(5), None]);
    let numbers = [
        refused(try_set(&mut board, 2, &[5])),
        refused(try_set(&mut board, 1, &[0; 65])),
    ];
    assert!(rt; numbers == [Some(11), Some(12)]);
    Ok(())
}

#[test]
fn rows_that_are_refused(rt: HostRuntime) {
    assert!(rt; refused(TableBoard::new(&[])) == Some(13));
    assert!(rt; refused(TableBoard::new(&[vendor(0, 0); 65])) == Some(13));
    let unlawful = Occurrence {
        id: UniqueId {
            identifier: 0x0C,
            scope: 2,
            info: 0,
        },
        reading: Reading::empty(),
    };
    assert!(rt; refused(TableBoard::new(&[vendor(1, 0), vendor(1, 0), unlawful])) == Some(14));
    assert!(rt; refused(TableBoard::new(&[vendor(1, 0), vendor(1, 0)])) == Some(15));
    assert!(rt; refused(TableBoard::new(&[vendor(1, 0), vendor(2, 0)])) == None);
}
