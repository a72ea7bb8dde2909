//! The check word, and writing into a part of a buffer.
ghost use Rattle.std.specs.Prelude.{◌≡◌, ◌+◌, ◌≤◌, length, take};
ghost use Rattle.crc.specs.Crc.{crc32c as crc_of};
ghost use Rattle.event.specs.Bytes.{placed, le32};
ghost use Rattle.wire.specs.Checks.{is_checked};

use crc::crc32c;

/// Whether a message ends in the right check word.
pub(crate) fn is_checked(bytes: &[u8]) -> bool
    ensures { result ≡ is_checked bytes.now }
{
    bytes
        .split_last_chunk::<4>()
        .is_some_and(|(message, word)| *word == crc32c(message).to_le_bytes())
}

/// Writes `part` from the place `at` on, and says where it ends.
pub(crate) fn put(buffer: &mut [u8], at: usize, part: &[u8]) -> usize
    requires { at + length part.now ≤ length buffer.old }
    ensures end { result ≡ at + length part.now }
    ensures buffer { buffer.new ≡ placed buffer.old at part.now }
{
    let end = at + part.len();
    buffer[at..end].copy_from_slice(part);
    end
}

/// Writes the check word behind the first `end` bytes, and says where it ends.
pub(crate) fn put_check(buffer: &mut [u8], end: usize) -> usize
    requires { end + 4 ≤ length buffer.old }
    ensures end { result ≡ end + 4 }
    ensures buffer { buffer.new ≡ placed buffer.old end (le32 (crc_of (take end buffer.old))) }
{
    let word = crc32c(&buffer[..end]).to_le_bytes();
    put(buffer, end, &word)
}
