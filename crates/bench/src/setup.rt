//! The settings of a script: its board and its carrier.
use crate::lines::Step;
use anyhow::{Result, anyhow};
use board::drive::DriveBoard;
use board::table::TableBoard;
use carrier::mailbox::Mailbox;
use event::id::UniqueId;
use event::occurrence::Occurrence;
use event::reading::Reading;
use event::refusal::Refusal;
use script::command::Command;
use session::boards::NamedBoard;
use session::carriers::NamedCarrier;
use smbus::SmbusCarrier;
use std::alloc::Global;

/// The rows of a table board.
#[derive(Drop)]
struct Rows {
    rows: Vec<Occurrence>,
    // Whether a row has a reading that no occurrence can hold.
    too_long: bool,
}

/// The board that a script names.
#[derive(Drop)]
enum BoardSaid {
    Drive { controller: u16 },
    Table(Rows),
}

/// The carrier that a script names.
#[derive(Clone, Copy)]
enum CarrierSaid {
    Mailbox,
    Smbus { destination: u8, source: u8, id: u8 },
}

/// What a script has set up so far.
#[derive(Drop)]
pub(crate) struct Setup {
    board: Option<BoardSaid>,
    carrier: Option<CarrierSaid>,
}

impl Rows {
    // Adds a row. A reading that is too long is remembered, since no lawful row has it.
    fn add(&mut self, id: UniqueId, reading: &[u8]) -> Result<()> {
        let held = Reading::new(reading);
        self.too_long |= held.is_none();
        let reading = held.unwrap_or(Reading::empty());
        self.rows.push(Occurrence { id, reading })?;
        Ok(())
    }

    // The board of the rows.
    fn board(&self) -> Result<TableBoard, Refusal> {
        if !(1..=64).contains(&self.rows.len()) {
            return Err(Refusal::RowCount);
        }
        if self.too_long {
            return Err(Refusal::UnlawfulRow);
        }
        TableBoard::new(&self.rows)
    }
}

impl BoardSaid {
    fn make(&self) -> Result<NamedBoard, Refusal> {
        Ok(match self {
            BoardSaid::Drive { controller } => NamedBoard::Drive(DriveBoard::new(*controller)),
            BoardSaid::Table(rows) => NamedBoard::Table(rows.board()?),
        })
    }
}

impl CarrierSaid {
    fn make(self) -> Result<NamedCarrier, Refusal> {
        Ok(match self {
            CarrierSaid::Mailbox => NamedCarrier::Mailbox(Mailbox::new()),
            CarrierSaid::Smbus {
                destination,
                source,
                id,
            } => NamedCarrier::Smbus(SmbusCarrier::new(destination, source, id)?),
        })
    }
}

impl Setup {
    /// The settings of a script. One that does not fit is an error that names its line.
    pub(crate) fn read(heap: Global, settings: &[Step]) -> Result<Setup> {
        let mut setup = Setup {
            board: None,
            carrier: None,
        };
        for step in settings {
            setup.set(heap, step)?;
        }
        Ok(setup)
    }

    // Takes a setting.
    fn set(&mut self, heap: Global, step: &Step) -> Result<()> {
        match &step.command {
            Command::DriveBoard { controller } => {
                let controller = *controller;
                self.name_board(step.line, BoardSaid::Drive { controller })
            }
            Command::TableBoard => {
                let rows = Vec::new(heap);
                let too_long = false;
                self.name_board(step.line, BoardSaid::Table(Rows { rows, too_long }))
            }
            Command::Row { id, reading } => match &mut self.board {
                Some(BoardSaid::Table(rows)) => rows.add(*id, reading),
                _ => Err(at_line(step.line, "a row without a table board")),
            },
            Command::Mailbox => self.name_carrier(step.line, CarrierSaid::Mailbox),
            Command::Smbus {
                destination,
                source,
                id,
            } => {
                let said = CarrierSaid::Smbus {
                    destination: *destination,
                    source: *source,
                    id: *id,
                };
                self.name_carrier(step.line, said)
            }
            Command::Call { .. } => Ok(()),
        }
    }

    fn name_board(&mut self, line: usize, said: BoardSaid) -> Result<()> {
        if self.board.is_some() {
            return Err(at_line(line, "a second board"));
        }
        self.board = Some(said);
        Ok(())
    }

    fn name_carrier(&mut self, line: usize, said: CarrierSaid) -> Result<()> {
        if self.carrier.is_some() {
            return Err(at_line(line, "a second carrier"));
        }
        self.carrier = Some(said);
        Ok(())
    }

    /// What the settings lack, if they lack something.
    pub(crate) fn lacks(&self) -> Option<&'static str> {
        if self.board.is_none() {
            Some("no board is named")
        } else if self.carrier.is_none() {
            Some("no carrier is named")
        } else {
            None
        }
    }

    /// The board and the carrier, or why one of them is refused; none if one is not named.
    pub(crate) fn make(&self) -> Option<Result<(NamedBoard, NamedCarrier), Refusal>> {
        let board = self.board.as_ref()?;
        let carrier = self.carrier?;
        Some(made(board, carrier))
    }
}

fn made(board: &BoardSaid, carrier: CarrierSaid) -> Result<(NamedBoard, NamedCarrier), Refusal> {
    Ok((board.make()?, carrier.make()?))
}

/// An error at a line of a script.
pub(crate) fn at_line(line: usize, what: &str) -> anyhow::Error {
    anyhow!("line {line}: {what}")
}
