//! Writers of messages, and what is asked of a table board.
ghost use Rattle.std.specs.Prelude.{◌≡◌, length};
ghost use Rattle.board.specs.Tables.{row_refusal, board_of};
ghost use Rattle.wire.specs.Writing.{writes_sync, writes_ack, writes_event, writes_answer};
ghost use Rattle.crossing.specs.Crossing.{items_told, rows_told, chosen};
ghost use Rattle.crossing.specs.Outcomes.{Leaves, of_rows, refusal_number};

use crossing::input::{marked, table_of, told_items};
use crossing::outcome::hand_out;
use crossing::types::{Row, Switch};
use event::delay::{Delays, Seconds, Tenths};
use marks::types::Marked;
use wire::message::{write_answer, write_event};
use wire::request::{write_ack, write_sync};

/// Writes a sync of these items to the front of the buffer.
#[unsafe(no_mangle)]
pub extern "C" fn fenduxi_write_sync(
    buffer: &mut [u8],
    items: &[Switch],
    first: u8,
    retry: u8,
    count: &mut usize,
) -> u8
    ensures { Leaves (writes_sync (length buffer.old) (items_told items.now) first retry) buffer.old buffer.new count.new result }
{
    let number = items.len().min(65);
    let items = told_items(items);
    let delays = Delays {
        first: Seconds(first),
        retry: Tenths(retry),
    };
    hand_out(write_sync(buffer, &items[..number], delays), count)
}

/// Writes an ack to the front of the buffer.
#[unsafe(no_mangle)]
pub extern "C" fn fenduxi_write_ack(buffer: &mut [u8], count: &mut usize) -> u8
    ensures { Leaves (writes_ack (length buffer.old)) buffer.old buffer.new count.new result }
{
    hand_out(write_ack(buffer), count)
}

/// Writes an event message to the front of the buffer. The rows are those of a table board, and those at the places that are set in
/// the mask are marked.
#[unsafe(no_mangle)]
pub extern "C" fn fenduxi_write_event(
    buffer: &mut [u8],
    transmission: u8,
    rows: &[Row],
    mask: u64,
    count: &mut usize,
) -> u8
    ensures { Leaves (of_rows (rows_told rows.now) (writes_event (length buffer.old) transmission (chosen mask (rows_told rows.now)))) buffer.old buffer.new count.new result }
{
    match table_of(rows) {
        Ok(board) => {
            let board = &board;
            let marks = &marked(board, mask);
            hand_out(
                write_event(buffer, transmission, &Marked { board, marks }),
                count,
            )
        }
        Err(refusal) => hand_out(Err(refusal), count),
    }
}

/// Writes an answer to the front of the buffer. The rows are those of a table board, and those at the places that are set in the mask
/// are marked.
#[unsafe(no_mangle)]
pub extern "C" fn fenduxi_write_answer(
    buffer: &mut [u8],
    slot: bool,
    rows: &[Row],
    mask: u64,
    count: &mut usize,
) -> u8
    ensures { Leaves (of_rows (rows_told rows.now) (writes_answer (length buffer.old) slot (chosen mask (rows_told rows.now)))) buffer.old buffer.new count.new result }
{
    match table_of(rows) {
        Ok(board) => {
            let board = &board;
            let marks = &marked(board, mask);
            hand_out(write_answer(buffer, slot, &Marked { board, marks }), count)
        }
        Err(refusal) => hand_out(Err(refusal), count),
    }
}

/// The number of the refusal of a table board of these rows.
#[unsafe(no_mangle)]
pub extern "C" fn fenduxi_table_board(rows: &[Row]) -> u8
    ensures { result ≡ refusal_number (board_of (row_refusal (rows_told rows.now)) (rows_told rows.now)) }
{
    match table_of(rows) {
        Ok(_) => 0,
        Err(refusal) => refusal.number(),
    }
}
