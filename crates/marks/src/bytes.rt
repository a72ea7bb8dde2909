//! The bytes of an occurrence and of a list's header.
ghost use Rattle.std.specs.Prelude.{◌≡◌, ◌≤◌, length};
ghost use Rattle.event.specs.Bytes.{placed};
ghost use Rattle.event.specs.Sources.{occurrence};
ghost use Rattle.event.specs.View.{held};
ghost use Rattle.list.specs.Lists.{specific_length, vendor_length, occurrence_bytes, header};

use event::id::UniqueId;
use event::reading::Reading;

// The bytes before an occurrence's reading.
pub(crate) const OCCURRENCE_HEAD: usize = 9;

// How many of a reading's n bytes are specific info, and how many vendor info.
fn split_length(identifier: u8, n: u8) -> (u8, u8)
    ensures specific { result.0 ≡ specific_length identifier n }
    ensures vendor { result.1 ≡ vendor_length identifier n }
{
    match identifier {
        0xC0..=0xFF => (0, n),
        _ => (n, 0),
    }
}

// Writes one occurrence to the front of `out`, and counts its bytes.
pub(crate) fn put_occurrence(out: &mut [u8], id: UniqueId, reading: &Reading) -> usize
    requires { length (occurrence_bytes (occurrence id (held reading.now))) ≤ length out.old }
    ensures count { result ≡ length (occurrence_bytes (occurrence id (held reading.now))) }
    ensures out { out.new ≡ placed out.old 0 (occurrence_bytes (occurrence id (held reading.now))) }
{
    let bytes = reading.as_bytes();
    let (specific, vendor) = split_length(id.identifier, bytes.len() as u8);
    let [a, b, c, d] = id.info.to_le_bytes();
    let head = [9, specific, vendor, id.identifier, a, b, c, d, id.scope];
    let end = OCCURRENCE_HEAD + bytes.len();
    out[0..OCCURRENCE_HEAD].copy_from_slice(&head);
    out[OCCURRENCE_HEAD..end].copy_from_slice(bytes);
    end
}

// The seven bytes before a body.
pub(crate) fn header_bytes(number: u8, total: u32, transmission: u8) -> [u8; 7]
    ensures { result ≡ header number total transmission }
{
    let [a, b, c, _] = total.to_le_bytes();
    [number, 0, a, b, c, 7, transmission]
}
