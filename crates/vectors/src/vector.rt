//! A published vector: some bytes and their check.
ghost use Rattle.std.specs.Prelude.{◌≡◌, Decides};
ghost use Rattle.vectors.specs.Agreement.{check_of};

use crc::{crc8, crc32c};
use std::io;

/// The kind of a check.
// An enum, and not a function to call: the contracts and the printed names tell the two apart.
#[derive(Clone, Copy, Drop)]
pub(crate) enum Check {
    Crc32c,
    Crc8,
}

/// Some bytes, and the check that is published for them.
#[derive(Drop)]
pub(crate) struct Vector {
    pub(crate) check: Check,
    /// What the bytes are, in words.
    pub(crate) name: &'static str,
    pub(crate) bytes: &'static [u8],
    pub(crate) expected: u32,
}

impl Vector {
    /// The check of the bytes, as this code computes it.
    pub(crate) fn computed(&self) -> u32
        ensures { result ≡ check_of self.now.check self.now.bytes.now }
    {
        match self.check {
            Check::Crc32c => crc32c(self.bytes),
            Check::Crc8 => u32::from(crc8(self.bytes)),
        }
    }

    /// Whether the check of the bytes is the published one.
    pub(crate) fn agrees(&self) -> bool
        ensures { Decides result (check_of self.now.check self.now.bytes.now ≡ self.now.expected) }
    {
        self.computed() == self.expected
    }

    /// Prints the published check, and whether it agrees.
    pub(crate) fn report(&self, rt: &impl Print) -> io::Result<()> {
        let (kind, width) = match self.check {
            Check::Crc32c => ("CRC-32C", 8usize),
            Check::Crc8 => ("CRC-8", 2),
        };
        let name = self.name;
        let expected = self.expected;
        if self.agrees() {
            println!(rt; "{kind} of {name}: {expected:0width$X} agrees")
        } else {
            let computed = self.computed();
            println!(rt;
                "{kind} of {name}: {expected:0width$X} DIFFERS, computed {computed:0width$X}"
            )
        }
    }
}
