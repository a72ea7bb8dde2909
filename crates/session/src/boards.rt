//! The boards that a script may name, as one type.
ghost use Rattle.session.specs.Named.{told_by};
ghost use Rattle.std.proofs.Common.{rules};

use board::Board;
use board::drive::DriveBoard;
use board::table::TableBoard;
use event::id::UniqueId;
use event::reading::Reading;

/// A drive board or a table board.
#[derive(Drop)]
pub enum NamedBoard {
    Drive(DriveBoard),
    Table(TableBoard),
}

/// It tells what its board tells.
impl Board for NamedBoard {
    ghost told = { told_by };

    ghost lawful = { Prim.search rules };

    fn count(&self) -> usize {
        match self {
            NamedBoard::Drive(board) => board.count(),
            NamedBoard::Table(board) => board.count(),
        }
    }

    fn id(&self, place: usize) -> Option<UniqueId> {
        match self {
            NamedBoard::Drive(board) => board.id(place),
            NamedBoard::Table(board) => board.id(place),
        }
    }

    fn reading(&self, place: usize) -> Option<Reading> {
        match self {
            NamedBoard::Drive(board) => board.reading(place),
            NamedBoard::Table(board) => board.reading(place),
        }
    }

    fn set(&mut self, place: usize, reading: &[u8]) -> bool {
        match self {
            NamedBoard::Drive(board) => board.set(place, reading),
            NamedBoard::Table(board) => board.set(place, reading),
        }
    }
}
