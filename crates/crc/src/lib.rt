//! The two cyclic redundancy checks: CRC-32C of messages, and CRC-8 of SMBus packets.
#![tactic(auto)]

ghost use Rattle.std.specs.Prelude.{◌≡◌, fold};
ghost use Rattle.crc.specs.Crc.{byte_step, byte_step8, crc32c as crc32c_of, crc8 as crc8_of};

mod tables;

use tables::{crc8_entry, crc32c_entry};

/// CRC-32C of some bytes.
pub fn crc32c(bytes: &[u8]) -> u32
    ensures { result ≡ crc32c_of bytes.now }
{
    let (eights, tail) = bytes.as_chunks::<8>();
    let register = eights.iter().fold(0xFFFF_FFFF, eight_step);
    let register = tail.iter().copied().fold(register, byte_step);
    register ^ 0xFFFF_FFFF
}

/// CRC-8 of some bytes, with the polynomial 07h and the start 00h, as SMBus has it.
pub fn crc8(bytes: &[u8]) -> u8
    ensures { result ≡ crc8_of bytes.now }
{
    bytes
        .iter()
        .fold(0, |register, byte| crc8_entry(register ^ *byte))
}

/// One byte into the register of CRC-32C.
fn byte_step(register: u32, byte: u8) -> u32
    ensures { result ≡ byte_step register byte }
{
    let sum = register ^ u32::from(byte);
    (sum >> 8) ^ crc32c_entry(0, (sum & 0xFF) as u8)
}

/// Eight bytes into the register of CRC-32C: one that `n` of them follow goes by row `n` of the tables.
fn eight_step(register: u32, bytes: &[u8; 8]) -> u32
    ensures { result ≡ fold byte_step register bytes.now }
{
    let sum = u64::from(register) ^ u64::from_le_bytes(*bytes);
    let [s0, s1, s2, s3, s4, s5, s6, s7] = sum.to_le_bytes();
    crc32c_entry(7, s0)
        ^ crc32c_entry(6, s1)
        ^ crc32c_entry(5, s2)
        ^ crc32c_entry(4, s3)
        ^ crc32c_entry(3, s4)
        ^ crc32c_entry(2, s5)
        ^ crc32c_entry(1, s6)
        ^ crc32c_entry(0, s7)
}
