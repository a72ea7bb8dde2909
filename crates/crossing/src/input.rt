//! What C hands in: items, and rows of a table board with marks on it.
ghost use Rattle.std.specs.Prelude.{◌≡◌, ◌<◌, length, map, min, take};
ghost use Rattle.event.specs.Identifiers.{bit};
ghost use Rattle.event.specs.View.{occurrence_of};
ghost use Rattle.event.specs.Sources.{ids};
ghost use Rattle.board.specs.Boards.{at, reading_of};
ghost use Rattle.board.specs.Tables.{row_refusal, board_of, told_if};
ghost use Rattle.board.specs.Told.{table_told};
ghost use Rattle.marks.specs.Marking.{occurrences, update};
ghost use Rattle.marks.specs.View.{marks_of};
ghost use Rattle.crossing.specs.Crossing.{items_told, row_kept, rows_told, all_short, chosen};

use crate::types::{Row, Switch};
use arrayvec::ArrayVec;
use board::Board;
use board::table::TableBoard;
use event::occurrence::Occurrence;
use event::refusal::Refusal;
use marks::types::Marks;
use wire::types::Item;

/// The first items, of which there are so many as there is room for. Where there are more than 64 a sync is refused, however many
/// they are.
pub fn told_items(switches: &[Switch]) -> [Item; 65]
    ensures { take (min (length switches.now) 65) result ≡ items_told (take 65 switches.now) }
{
    let none = Item {
        identifier: 0,
        on: false,
    };
    let mut items = [none; 65];
    for i in 0..switches.len().min(65) {
        items[i] = switches[i].told();
    }
    items
}

/// The table board of these rows.
pub fn table_of(rows: &[Row]) -> Result<TableBoard, Refusal>
    ensures { told_if table_told result ≡ board_of (row_refusal (rows_told rows.now)) (rows_told rows.now) }
{
    if rows.len() <= 64 && !all_short(rows) {
        return Err(Refusal::UnlawfulRow);
    }
    TableBoard::new(&told_rows(rows))
}

/// Marks at the places of a board that are set in the mask, each with its present reading.
pub fn marked<B: Board>(board: &B, mask: u64) -> Marks
    ensures { occurrences (ids (B.Board.told board.now)) (marks_of result) ≡ chosen mask (B.Board.told board.now) }
{
    let mut marks = Marks::none();
    for place in 0..board.count() {
        if is_set(mask, place) {
            mark_place(board, place, &mut marks);
        }
    }
    marks
}

// The first 65 rows: where there are more than 64 a table board is refused, however many they are.
fn told_rows(rows: &[Row]) -> ArrayVec<Occurrence, 65>
    ensures { map occurrence_of result.items ≡ map row_kept (take 65 rows.now) }
{
    let rows = &rows[..rows.len().min(65)];
    let mut told = ArrayVec::new();
    for row in rows {
        told.push(row.told());
    }
    told
}

// Whether no row has a reading of more than 64 bytes.
fn all_short(rows: &[Row]) -> bool
    ensures { result ≡ all_short rows.now }
{
    rows.iter().all(|row| row.length <= 64)
}

// Whether the bit at the place is set.
fn is_set(mask: u64, place: usize) -> bool
    requires { place < 64 }
    ensures { result ≡ bit mask place }
{
    (mask >> place) % 2 == 1
}

// Marks a place of a board with its present reading.
fn mark_place<B: Board>(board: &B, place: usize, marks: &mut Marks)
    requires { place < length (B.Board.told board.now) }
    ensures { marks_of marks.new ≡ update (marks_of marks.old) place (reading_of (at (B.Board.told board.now) place)) }
{
    if let Some(reading) = board.reading(place) {
        let _ = marks.mark(place, reading);
    }
}
