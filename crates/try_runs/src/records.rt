//! The records of tapes and of captures.

use crate::fault::Fault;
use crate::octets::{Length, Octets};

/// The magic number of a capture (libpcap, the lowest octet first), the version 2.4, two fields that say nothing, and
/// the most octets that a record may have.
const FRONT: [u8; 20] = [
    0xd4, 0xc3, 0xb2, 0xa1, 2, 0, 4, 0, 0, 0, 0, 0, 0, 0, 0, 0, 0, 0, 4, 0,
];

/// What a record of a tape tells of its peer.
#[derive(Clone, Copy, Drop)]
pub enum Kind {
    Up = 1,
    Octets = 2,
    Lost = 3,
}

/// The head of a record of a tape: its kind, the peer, and the length of what comes, which is 0 until it is closed.
pub fn begin_record(kind: Kind, peer: u64, made: &mut Octets) -> Length {
    made.append(&[kind as u8]);
    made.number(peer, 2);
    made.open(4)
}

/// Octets that a peer sends, each in a record of its own.
pub fn append_singly(peer: u64, payload: &[u8], made: &mut Octets) {
    for octet in payload {
        let length = begin_record(Kind::Octets, peer, made);
        made.append(&[*octet]);
        made.close(length);
    }
}

/// A number of four octets, the lowest first.
fn low(number: u64) -> Result<[u8; 4], Fault> {
    match u32::try_from(number) {
        Ok(number) => Ok(number.to_le_bytes()),
        Err(_) => Err(Fault::TooLarge),
    }
}

/// The header of a capture of this link type.
pub fn append_header(link: u64, made: &mut Octets) -> Result<(), Fault> {
    made.append(&FRONT);
    made.append(&low(link)?);
    Ok(())
}

/// The head of a record of a capture, of time 0, with room for both lengths. Answers where these stand.
pub fn begin_packet(made: &mut Octets) -> usize {
    made.append(&[0; 8]);
    let place = made.len();
    made.append(&[0; 8]);
    place
}

/// Writes the lengths of a record: how many octets stand behind its head, and how many the packet had.
pub fn end_packet(place: usize, original: Option<u64>, made: &mut Octets) -> Result<(), Fault> {
    let behind = place.saturating_add(8);
    let captured = made.len().saturating_sub(behind) as u64;
    made.put(place, &low(captured)?);
    made.put(place.saturating_add(4), &low(original.unwrap_or(captured))?);
    Ok(())
}
