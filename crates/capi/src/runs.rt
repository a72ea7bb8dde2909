//! Runs of a writer and of both ends, for measurements.
ghost use Rattle.std.specs.Prelude.{◌≡◌};
ghost use Rattle.measured.specs.Rounds.{new_rounds};
ghost use Rattle.measured.specs.Runs.{at_start, writes, new_steps};
ghost use Rattle.crossing.specs.Crossing.{rows_told, chosen};
ghost use Rattle.capi.specs.Runs.{RunsOn, Ends};

use crossing::input::{marked, table_of};
use crossing::outcome::hand_out;
use crossing::types::Row;
use marks::types::Marked;
use measured::rounds::go_round;
use measured::runs::{take_steps, write_all};

/// Writes an event message to the front of the buffer for each transmission info, of one table board, of which those places are
/// marked that are set in the mask. Told is what the last one counted.
#[unsafe(no_mangle)]
pub extern "C" fn fenduxi_write_events(
    buffer: &mut [u8],
    transmissions: &[u8],
    rows: &[Row],
    mask: u64,
    count: &mut usize,
) -> u8
    ensures { RunsOn (rows_told rows.now) (writes (chosen mask (rows_told rows.now)) transmissions.now (at_start buffer.old)) buffer.old buffer.new count.new result }
{
    match table_of(rows) {
        Ok(board) => {
            let board = &board;
            let marks = &marked(board, mask);
            let marked = &Marked { board, marks };
            hand_out(write_all(buffer, transmissions, marked), count)
        }
        Err(refusal) => hand_out(Err(refusal), count),
    }
}

/// Makes a table board, a mailbox and an endpoint, and takes steps with them: 0 is a tick, and any other number this request, of the
/// sender of that number. Told is what the last one counted.
#[unsafe(no_mangle)]
pub extern "C" fn fenduxi_endpoint_steps(
    rows: &[Row],
    message: &[u8],
    steps: &[u8],
    buffer: &mut [u8],
    count: &mut usize,
) -> u8
    ensures { RunsOn (rows_told rows.now) (new_steps (rows_told rows.now) message.now steps.now buffer.old) buffer.old buffer.new count.new result }
{
    match table_of(rows) {
        Ok(board) => hand_out(take_steps(&board, message, steps, buffer), count),
        Err(refusal) => hand_out(Err(refusal), count),
    }
}

/// Makes a book by a sync that is answered so, and a mailbox. In each round the one message, for an even number, or the other is put
/// and picked up, and the ack is answered so. Told is what the last pick-up counted.
#[unsafe(no_mangle)]
pub extern "C" fn fenduxi_book_rounds(
    opening: &[u8],
    even: &[u8],
    odd: &[u8],
    answer: &[u8],
    numbers: &[u8],
    buffer: &mut [u8],
    count: &mut usize,
) -> u8
    ensures { Ends (new_rounds opening.now even.now odd.now answer.now numbers.now buffer.old) buffer.new count.new result }
{
    hand_out(go_round(opening, even, odd, answer, numbers, buffer), count)
}
