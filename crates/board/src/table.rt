//! The table board: sources from rows.
ghost use Rattle.std.specs.Prelude.{◌≡◌, ◌≤◌, true, map, length};
ghost use Rattle.event.specs.Sources.{lawful_occurrence, all_lawful};
ghost use Rattle.event.specs.View.{occurrence_of};
ghost use Rattle.board.specs.Boards.{lawful_board};
ghost use Rattle.board.specs.Tables.{table_sources, rows_told, row_refusal, board_of, told_if};
ghost use Rattle.std.proofs.Common.{rules};

use crate::Board;
use arrayvec::ArrayVec;
use event::id::UniqueId;
use event::occurrence::Occurrence;
use event::reading::Reading;
use event::refusal::Refusal;
use keys::has_twice;

/// A board of up to 64 rows, each a unique ID with its present reading.
#[derive(Drop)]
pub struct TableBoard {
    rows: ArrayVec<Occurrence, 64>,
    ghost lawful: { lawful_board (table_sources rows) ≡ true },
}

impl TableBoard {
    ghost use Rattle.board.specs.Told.{table_told};

    /// A board of these rows, or why not: there are not 1 to 64 of them, one is unlawful, or an ID stands in two.
    pub fn new(rows: &[Occurrence]) -> Result<TableBoard, Refusal>
        ensures { told_if table_told result ≡ board_of (row_refusal (rows_told rows.now)) (rows_told rows.now) }
    {
        if !(1..=64).contains(&rows.len()) {
            return Err(Refusal::RowCount);
        }
        if !all_lawful(rows) {
            return Err(Refusal::UnlawfulRow);
        }
        if has_twice(&ids(rows)) {
            return Err(Refusal::RowTwice);
        }
        // Copied last, so that a refusal copies no row. There are 64 at most, so that they fit.
        let rows = ArrayVec::try_from(rows).map_err(|_| Refusal::RowCount)?;
        Ok(TableBoard { rows })
    }
}

/// A table board tells its rows.
impl Board for TableBoard {
    ghost use Rattle.board.specs.Told.{table_told};

    ghost told = { table_told };

    ghost lawful = { Prim.search rules };

    fn count(&self) -> usize {
        self.rows.len()
    }

    fn id(&self, place: usize) -> Option<UniqueId> {
        self.rows.get(place).map(|row| row.id)
    }

    fn reading(&self, place: usize) -> Option<Reading> {
        self.rows.get(place).map(|row| row.reading)
    }

    fn set(&mut self, place: usize, reading: &[u8]) -> bool {
        let Some(row) = self.rows.get_mut(place) else {
            return false;
        };
        if !row.id.allows(reading) {
            return false;
        }
        let Some(held) = Reading::new(reading) else {
            return false;
        };
        row.reading = held;
        true
    }
}

// Whether each row has a lawful unique ID and a lawful reading.
fn all_lawful(rows: &[Occurrence]) -> bool
    ensures { result ≡ all_lawful (rows_told rows.now) }
{
    rows.iter().all(is_lawful)
}

// Whether a row has a lawful unique ID and a lawful reading.
fn is_lawful(row: &Occurrence) -> bool
    ensures { result ≡ lawful_occurrence (occurrence_of row.now) }
{
    row.id.is_lawful() && row.id.allows(row.reading.as_bytes())
}

// The rows' unique IDs, as the search for a key takes them. A loop: `extend` may find the vector full, and would have to
// be asked whether it did.
fn ids(rows: &[Occurrence]) -> ArrayVec<UniqueId, 64>
    requires { length rows.now ≤ 64 }
    ensures { result.items ≡ map (λ row. row.id) rows.now }
{
    let mut ids = ArrayVec::new();
    for row in rows {
        ids.push(row.id);
    }
    ids
}
