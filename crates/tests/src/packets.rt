//! The packets of three messages against bytes that another program computed from the format alone.
use carrier::{Carrier, deliver};
use event::refusal::Refusal;
use smbus::SmbusCarrier;
use std::test::Fail;

const LONG: &[u8; 150] = b"\
    \x03\x0A\x11\x18\x1F\x26\x2D\x34\x3B\x42\x49\x50\x57\x5E\x65\x6C\x73\x7A\x81\x88\x8F\x96\x9D\xA4\
    \xAB\xB2\xB9\xC0\xC7\xCE\xD5\xDC\xE3\xEA\xF1\xF8\xFF\x06\x0D\x14\x1B\x22\x29\x30\x37\x3E\x45\x4C\
    \x53\x5A\x61\x68\x6F\x76\x7D\x84\x8B\x92\x99\xA0\xA7\xAE\xB5\xBC\xC3\xCA\xD1\xD8\xDF\xE6\xED\xF4\
    \xFB\x02\x09\x10\x17\x1E\x25\x2C\x33\x3A\x41\x48\x4F\x56\x5D\x64\x6B\x72\x79\x80\x87\x8E\x95\x9C\
    \xA3\xAA\xB1\xB8\xBF\xC6\xCD\xD4\xDB\xE2\xE9\xF0\xF7\xFE\x05\x0C\x13\x1A\x21\x28\x2F\x36\x3D\x44\
    \x4B\x52\x59\x60\x67\x6E\x75\x7C\x83\x8A\x91\x98\x9F\xA6\xAD\xB4\xBB\xC2\xC9\xD0\xD7\xDE\xE5\xEC\
    \xF3\xFA\x01\x08\x0F\x16";

const LONG_0: &[u8; 73] = b"\
    \x3A\x0F\x45\x41\x01\x08\x0A\x88\x03\x0A\x11\x18\x1F\x26\x2D\x34\x3B\x42\x49\x50\x57\x5E\x65\x6C\
    \x73\x7A\x81\x88\x8F\x96\x9D\xA4\xAB\xB2\xB9\xC0\xC7\xCE\xD5\xDC\xE3\xEA\xF1\xF8\xFF\x06\x0D\x14\
    \x1B\x22\x29\x30\x37\x3E\x45\x4C\x53\x5A\x61\x68\x6F\x76\x7D\x84\x8B\x92\x99\xA0\xA7\xAE\xB5\xBC\
    \xEC";

const LONG_1: &[u8; 73] = b"\
    \x3A\x0F\x45\x41\x01\x08\x0A\x18\xC3\xCA\xD1\xD8\xDF\xE6\xED\xF4\xFB\x02\x09\x10\x17\x1E\x25\x2C\
    \x33\x3A\x41\x48\x4F\x56\x5D\x64\x6B\x72\x79\x80\x87\x8E\x95\x9C\xA3\xAA\xB1\xB8\xBF\xC6\xCD\xD4\
    \xDB\xE2\xE9\xF0\xF7\xFE\x05\x0C\x13\x1A\x21\x28\x2F\x36\x3D\x44\x4B\x52\x59\x60\x67\x6E\x75\x7C\
    \x83";

const LONG_2: &[u8; 31] = b"\
    \x3A\x0F\x1B\x41\x01\x08\x0A\x68\x83\x8A\x91\x98\x9F\xA6\xAD\xB4\xBB\xC2\xC9\xD0\xD7\xDE\xE5\xEC\
    \xF3\xFA\x01\x08\x0F\x16\xF4";

const SHORT: &[u8; 64] = b"\
    \x01\x06\x0B\x10\x15\x1A\x1F\x24\x29\x2E\x33\x38\x3D\x42\x47\x4C\x51\x56\x5B\x60\x65\x6A\x6F\x74\
    \x79\x7E\x83\x88\x8D\x92\x97\x9C\xA1\xA6\xAB\xB0\xB5\xBA\xBF\xC4\xC9\xCE\xD3\xD8\xDD\xE2\xE7\xEC\
    \xF1\xF6\xFB\x00\x05\x0A\x0F\x14\x19\x1E\x23\x28\x2D\x32\x37\x3C";

const SHORT_0: &[u8; 73] = b"\
    \x74\x0F\x45\x21\x01\x09\x0B\xC8\x01\x06\x0B\x10\x15\x1A\x1F\x24\x29\x2E\x33\x38\x3D\x42\x47\x4C\
    \x51\x56\x5B\x60\x65\x6A\x6F\x74\x79\x7E\x83\x88\x8D\x92\x97\x9C\xA1\xA6\xAB\xB0\xB5\xBA\xBF\xC4\
    \xC9\xCE\xD3\xD8\xDD\xE2\xE7\xEC\xF1\xF6\xFB\x00\x05\x0A\x0F\x14\x19\x1E\x23\x28\x2D\x32\x37\x3C\
    \x87";

// Whether the packet of a number is just these bytes, in a buffer of their length.
fn is_packet(carrier: &SmbusCarrier, number: usize, bytes: &[u8]) -> bool {
    let mut room = [0u8; 73];
    match room.get_mut(..bytes.len()) {
        Some(packet) => carrier.copy_packet(number, packet) == Some(bytes.len())
            && *packet == *bytes,
        None => false,
    }
}

// 150 bytes: two packets of 64 bytes, and one of 22.
#[test]
fn three_packets(rt: HostRuntime) -> Result<(), Fail> {
    let mut carrier = SmbusCarrier::new(0x1D, 0x20, 0x0A)?;
    assert!(rt; carrier.put(0x08, LONG));
    assert!(rt; carrier.packet_count() == 3);
    assert!(rt; is_packet(&carrier, 0, LONG_0));
    assert!(rt; is_packet(&carrier, 1, LONG_1));
    assert!(rt; is_packet(&carrier, 2, LONG_2));
    Ok(())
}

// Exactly 64 bytes: one packet, the first and the last.
#[test]
fn one_packet(rt: HostRuntime) -> Result<(), Fail> {
    let mut carrier = SmbusCarrier::new(0x3A, 0x10, 0x0B)?;
    assert!(rt; carrier.put(0x09, SHORT));
    assert!(rt; carrier.packet_count() == 1);
    let mut whole = [0u8; 73];
    let first = carrier.copy_packet(0, &mut whole);
    assert!(rt; (first, whole) == (Some(73), *SHORT_0));
    let second = carrier.copy_packet(1, &mut whole);
    assert!(rt; (second, whole) == (None, *SHORT_0));
    Ok(())
}

// The length and the flag byte of the packet of a number. A pair, not an option of one: where there is no packet, the byte
// shows that nothing was written.
fn length_and_flags(carrier: &SmbusCarrier, number: usize) -> (Option<usize>, u8) {
    let mut packet = [0u8; 73];
    let len = carrier.copy_packet(number, &mut packet);
    (len, packet[7])
}

// 300 bytes: the fifth packet has the number 0 again.
#[test]
fn numbers(rt: HostRuntime) -> Result<(), Fail> {
    let mut carrier = SmbusCarrier::new(0x1D, 0x20, 0x0A)?;
    assert!(rt; carrier.put(0x08, &[0; 300]));
    let expected = [
        (Some(73), 0x88),
        (Some(73), 0x18),
        (Some(73), 0x28),
        (Some(73), 0x38),
        (Some(53), 0x48),
        (None, 0),
    ];
    for (number, packet) in expected.iter().enumerate() {
        assert!(rt; length_and_flags(&carrier, number) == *packet, "{}", number);
    }
    Ok(())
}

// Whether a message is put, and how many packets there are then.
fn packets_after(carrier: &mut SmbusCarrier, message: &[u8]) -> (bool, usize) {
    let taken = carrier.put(0x08, message);
    (taken, carrier.packet_count())
}

// What was put comes out; what is refused changes nothing.
#[test]
fn there_and_back(rt: HostRuntime) -> Result<(), Fail> {
    let mut carrier = SmbusCarrier::new(0x1D, 0x20, 0x0A)?;
    let mut buffer = [0xEEu8; 4224];
    assert!(rt; deliver(&mut carrier, 0x08, LONG, &mut buffer) == Ok(150));
    assert!(rt; (buffer[149], buffer[150]) == (LONG[149], 0xEE));
    let puts = [
        packets_after(&mut carrier, &[0; 4225]),
        packets_after(&mut carrier, &[0; 4224]),
    ];
    assert!(rt; puts == [(false, 3), (true, 66)]);
    carrier.link_down();
    let delivered = deliver(&mut carrier, 0x08, LONG, &mut buffer);
    assert!(rt; delivered == Err(Refusal::NoMessage));
    let refusal = SmbusCarrier::new(0x80, 0x20, 0x0A).err();
    assert!(rt; refusal.map(Refusal::number) == Some(16));
    Ok(())
}
