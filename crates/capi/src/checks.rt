//! The two checks.
ghost use Rattle.std.specs.Prelude.{◌≡◌};
ghost use Rattle.crc.specs.Crc.{crc32c as crc32c_of, crc8 as crc8_of};

use crc::{crc8, crc32c};

/// CRC-32C of some bytes.
#[unsafe(no_mangle)]
pub extern "C" fn fenduxi_crc32c(bytes: &[u8]) -> u32
    ensures { result ≡ crc32c_of bytes.now }
{
    crc32c(bytes)
}

/// CRC-8 of some bytes.
#[unsafe(no_mangle)]
pub extern "C" fn fenduxi_crc8(bytes: &[u8]) -> u8
    ensures { result ≡ crc8_of bytes.now }
{
    crc8(bytes)
}
