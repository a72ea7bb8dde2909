//! What the SMBus carrier keeps.
ghost use Rattle.std.specs.Prelude.{◌≡◌, ◌<◌, ◌≤◌, length};
ghost use Rattle.smbus.specs.Stored.{stored, Defined};

use crate::packet::{Addresses, Packet};

/// A carrier that keeps the packets of a message, at most 66. Without a packet nothing lies there.
// An array and a count, since the kit's vector writes a blank over each element when it is emptied: a withdrawal, and each put,
// would cost as much as what lay there.
#[derive(Drop)]
pub struct SmbusCarrier {
    pub(crate) addresses: Addresses,
    pub(crate) up: bool,
    pub(crate) destination: u8,
    pub(crate) count: usize,
    pub(crate) row: [Packet; 66],
    ghost low: { (addresses.destination < 128) × (addresses.source < 128) },
    ghost few: { count ≤ 66 },
    ghost whole: { length row ≡ 66 },
    ghost defined: { Defined addresses destination (stored count row) },
}
