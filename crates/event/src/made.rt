//! Readings from bytes, and back.
ghost use Rattle.std.specs.Prelude.{◌≡◌, [], length, if◌then◌else◌, Some, None, nat_le};
ghost use Rattle.event.specs.View.{held, held_if};

use crate::reading::Reading;

impl Reading {
    /// The reading without a byte.
    pub fn empty() -> Reading
        ensures { held result ≡ [] }
    {
        Reading {
            len: 0,
            bytes: [0; 64],
        }
    }

    /// A reading of these bytes, unless there are more than 64.
    // No `TryFrom`: most callers hand the option on as it is, and a `Result` would take an `ok()` there.
    pub fn new(bytes: &[u8]) -> Option<Reading>
        ensures { held_if result ≡ (if nat_le (length bytes.now) 64 then Some bytes.now else None) }
    {
        if bytes.len() > 64 {
            return None;
        }
        let mut whole = [0; 64];
        whole[..bytes.len()].copy_from_slice(bytes);
        Some(Reading {
            len: bytes.len() as u8,
            bytes: whole,
        })
    }

    /// Its bytes.
    pub fn as_bytes(&self) -> &[u8]
        ensures { result.now ≡ held self.now }
    {
        &self.bytes[..usize::from(self.len)]
    }
}

/// The reading without a byte.
// Written out, since a derive is refused over a ghost field.
impl Default for Reading {
    ghost is_default = { λ r. held r ≡ [] };

    fn default() -> Reading {
        Reading::empty()
    }
}
