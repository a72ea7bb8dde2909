//! Readings: what a source says.
ghost use Rattle.std.specs.Prelude.{◌≡◌, ◌≤◌, length};

/// A reading of 0 to 64 bytes: the specific info of an event, or the vendor info of a vendor's event.
// Room for 64 bytes and `Copy`, not a vector: readings are handed on by value, with no heap.
#[derive(Clone, Copy)]
pub struct Reading {
    pub(crate) len: u8,
    pub(crate) bytes: [u8; 64],
    ghost short: { len ≤ 64 },
    ghost whole: { length bytes ≡ 64 },
}
