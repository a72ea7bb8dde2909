//! The published vectors: for CRC-32C those of RFC 3720, appendix B.4, and for both checks that of the text 123456789 and a few more.
use crate::vector::{Check, Vector};

pub(crate) const VECTORS: [Vector; 12] = [
    Vector {
        check: Check::Crc32c,
        name: "32 zero bytes",
        bytes: &[0x00; 32],
        expected: 0x8A9136AA,
    },
    Vector {
        check: Check::Crc32c,
        name: "32 bytes FFh",
        bytes: &[0xFF; 32],
        expected: 0x62A8AB43,
    },
    Vector {
        check: Check::Crc32c,
        name: "the bytes 00h to 1Fh rising",
        bytes: b"\x00\x01\x02\x03\x04\x05\x06\x07\x08\x09\x0A\x0B\x0C\x0D\x0E\x0F\
            \x10\x11\x12\x13\x14\x15\x16\x17\x18\x19\x1A\x1B\x1C\x1D\x1E\x1F",
        expected: 0x46DD794E,
    },
    Vector {
        check: Check::Crc32c,
        name: "the bytes 1Fh to 00h falling",
        bytes: b"\x1F\x1E\x1D\x1C\x1B\x1A\x19\x18\x17\x16\x15\x14\x13\x12\x11\x10\
            \x0F\x0E\x0D\x0C\x0B\x0A\x09\x08\x07\x06\x05\x04\x03\x02\x01\x00",
        expected: 0x113FDB5C,
    },
    Vector {
        check: Check::Crc32c,
        name: "an iSCSI SCSI Read (10) command",
        bytes: b"\x01\xC0\x00\x00\x00\x00\x00\x00\x00\x00\x00\x00\x00\x00\x00\x00\
            \x14\x00\x00\x00\x00\x00\x04\x00\x00\x00\x00\x14\x00\x00\x00\x18\
            \x28\x00\x00\x00\x00\x00\x00\x00\x02\x00\x00\x00\x00\x00\x00\x00",
        expected: 0xD9963A56,
    },
    Vector {
        check: Check::Crc32c,
        name: "the text 123456789",
        bytes: b"123456789",
        expected: 0xE3069283,
    },
    Vector {
        check: Check::Crc32c,
        name: "the text The quick brown fox jumps over the lazy dog",
        bytes: b"The quick brown fox jumps over the lazy dog",
        expected: 0x22620404,
    },
    Vector {
        check: Check::Crc32c,
        name: "no bytes",
        bytes: b"",
        expected: 0x00000000,
    },
    Vector {
        check: Check::Crc8,
        name: "the text 123456789",
        bytes: b"123456789",
        expected: 0xF4,
    },
    Vector {
        check: Check::Crc8,
        name: "the text The quick brown fox jumps over the lazy dog",
        bytes: b"The quick brown fox jumps over the lazy dog",
        expected: 0xC1,
    },
    Vector {
        check: Check::Crc8,
        name: "the byte 01h",
        bytes: b"\x01",
        expected: 0x07,
    },
    Vector {
        check: Check::Crc8,
        name: "no bytes",
        bytes: b"",
        expected: 0x00,
    },
];
