//! The record of a call: what it handed back, and where all stands after it.
use crate::words::{Hex, HexByte, Listed, PhaseName};
use arrayvec::ArrayVec;
use carrier::Carrier;
use endpoint::types::Endpoint;
use event::enabled::has;
use pair::pair::Pair;
use session::boards::NamedBoard;
use session::carriers::NamedCarrier;
use smbus::SmbusCarrier;
use std::alloc::{AllocError, Global};

/// The places of a board, of which there are at most 64, that pass a test.
fn places<F: Fn(usize) -> bool>(test: F) -> Result<ArrayVec<usize, 64>, AllocError>
    requires { F.IsAlwaysCallable test }
{
    let mut found = ArrayVec::new();
    found.extend((0..64usize).filter(|place| test(*place)))?;
    Ok(found)
}

/// The identifiers of a set.
fn identifiers(set: [u64; 4]) -> Result<ArrayVec<HexByte, 256>, AllocError> {
    let mut found = ArrayVec::new();
    found.extend(
        (0..=255u8)
            .filter(|identifier| has(set, *identifier))
            .map(HexByte),
    )?;
    Ok(found)
}

// Where the endpoint stands.
fn endpoint_standing(heap: Global, endpoint: &Endpoint) -> Result<String, AllocError> {
    let state = endpoint.state();
    let enabled = identifiers(endpoint.enabled())?;
    let enabled = Listed(enabled.as_slice());
    let prior = places(|place| endpoint.prior(place).is_some())?;
    let prior = Listed(prior.as_slice());
    let since = places(|place| endpoint.since(place).is_some())?;
    let since = Listed(since.as_slice());
    let generation = endpoint.generation();
    let failure = u8::from(endpoint.failure());
    format!(in heap;
        "endpoint {state} enabled {enabled} prior {prior} since {since} generation {generation} failure {failure}"
    )
}

// The length of the message that lies on a carrier; 0 where none does.
fn message_length(carrier: &NamedCarrier) -> usize {
    let mut buffer = [0u8; 4224];
    carrier.fetch(&mut buffer).unwrap_or(0)
}

/// Where both ends and the carrier stand.
pub(crate) fn standing(
    heap: Global,
    pair: &Pair<NamedBoard, NamedCarrier>,
) -> Result<String, AllocError> {
    let endpoint = endpoint_standing(heap, pair.endpoint())?;
    let book = PhaseName(pair.book().phase());
    let link = if pair.carrier().is_up() { "up" } else { "down" };
    let length = message_length(pair.carrier());
    format!(in heap; "{endpoint}; book {book}; link {link} message {length}")
}

// A packet, as a word behind another.
fn packet(heap: Global, bus: &SmbusCarrier, number: usize) -> Result<String, AllocError> {
    let mut packet = [0u8; 73];
    let length = bus.copy_packet(number, &mut packet).unwrap_or(0);
    let bytes = Hex(packet.get(..length).unwrap_or(&[]));
    format!(in heap; " {bytes}")
}

/// The packets of the message on an SMBus carrier: how many, and each one's bytes.
pub(crate) fn packets(heap: Global, carrier: &NamedCarrier) -> Result<String, AllocError> {
    let NamedCarrier::Smbus(bus) = carrier else {
        return String::from_str(heap, "ok 0 -");
    };
    let count = bus.packet_count();
    if count == 0 {
        return String::from_str(heap, "ok 0 -");
    }
    let mut text = format!(in heap; "ok {count}")?;
    for number in 0..count {
        let packet = packet(heap, bus, number)?;
        text.push_str(&packet)?;
    }
    Ok(text)
}
