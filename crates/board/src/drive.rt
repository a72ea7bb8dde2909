//! The drive board: a source of each event from 00h to 0Bh.
ghost use Rattle.std.specs.Prelude.{◌≡◌, true, if◌then◌else◌};
ghost use Rattle.event.specs.Bytes.{byte};
ghost use Rattle.event.specs.Sources.{one_byte};
ghost use Rattle.board.specs.Boards.{lawful_board};
ghost use Rattle.board.specs.Drives.{drive_sources, new_drive, Sets};
ghost use Rattle.std.proofs.Common.{rules};

use crate::Board;
use crate::status::DriveStatus;
use event::id::UniqueId;
use event::reading::Reading;

/// The board of a drive. Each event from 00h to 0Bh has a source, at the place of its identifier.
#[derive(Drop)]
pub struct DriveBoard {
    status: DriveStatus,
    ghost lawful: { lawful_board (drive_sources status) ≡ true },
}

impl DriveBoard {
    ghost use Rattle.board.specs.Told.{drive_told};

    /// The board of a drive with this controller ID; every status is zero.
    pub fn new(controller: u16) -> DriveBoard
        ensures { drive_told result ≡ new_drive controller }
    {
        let status = DriveStatus {
            controller,
            ..DriveStatus::default()
        };
        DriveBoard { status }
    }
}

/// A drive board tells its statuses in the order of the identifiers.
impl Board for DriveBoard {
    ghost use Rattle.board.specs.Told.{drive_told};

    ghost told = { drive_told };

    ghost lawful = { Prim.search rules };

    #[tactic(auto, unfolding(crate::specs::Drives::drive_sources))]
    fn count(&self) -> usize {
        12
    }

    fn id(&self, place: usize) -> Option<UniqueId> {
        let identifier = u8::try_from(place).ok()?;
        let (scope, info) = match identifier {
            0x00..=0x04 => (1, u32::from(self.status.controller)),
            0x05..=0x0A => (2, 0),
            0x0B => (4, 0x1_0000),
            _ => return None,
        };
        Some(UniqueId {
            identifier,
            scope,
            info,
        })
    }

    #[tactic(auto, unfolding(crate::specs::Drives::drive_sources, crate::specs::Boards::at))]
    fn reading(&self, place: usize) -> Option<Reading> {
        match place {
            0 => Reading::new(&[self.status.controller_ready]),
            1 => Reading::new(&[self.status.controller_fatal]),
            2 => Reading::new(&[self.status.shutdown_status]),
            3 => Reading::new(&[self.status.controller_enable]),
            4 => Some(Reading::empty()),
            5 => Some(Reading::empty()),
            6 => Reading::new(&[self.status.composite_temperature]),
            7 => Reading::new(&[self.status.drive_life_used]),
            8 => Reading::new(&[self.status.available_spare]),
            9 => Reading::new(&[self.status.smart_warnings]),
            10 => Some(Reading::empty()),
            11 => Reading::new(&[self.status.link_active]),
            _ => None,
        }
    }

    fn set(&mut self, place: usize, reading: &[u8]) -> bool {
        self.status.set(place, reading)
    }
}

impl DriveStatus {
    // Gives the status at a place another reading, if it may have it, and says whether it did.
    fn set(&mut self, place: usize, reading: &[u8]) -> bool
        ensures { Sets (drive_sources self.old) place reading.now result (drive_sources self.new) }
    {
        match place {
            0 => put(&mut self.controller_ready, 1, reading),
            1 => put(&mut self.controller_fatal, 1, reading),
            2 => put(&mut self.shutdown_status, 7, reading),
            3 => put(&mut self.controller_enable, 3, reading),
            4 => reading.is_empty(),
            5 => reading.is_empty(),
            6 => put(&mut self.composite_temperature, 0xFF, reading),
            7 => put(&mut self.drive_life_used, 0xFF, reading),
            8 => put(&mut self.available_spare, 0xFF, reading),
            9 => put(&mut self.smart_warnings, 0xFF, reading),
            10 => reading.is_empty(),
            11 => put(&mut self.link_active, 1, reading),
            _ => false,
        }
    }
}

// Gives a status the reading's one byte, if the reading is one byte of at most `most`, and says whether it did.
fn put(status: &mut u8, most: u8, reading: &[u8]) -> bool
    ensures taken { result ≡ one_byte most reading.now }
    ensures after { status.new ≡ (if one_byte most reading.now then byte reading.now 0 else status.old) }
{
    match reading {
        &[byte] if byte <= most => {
            *status = byte;
            true
        }
        _ => false,
    }
}
