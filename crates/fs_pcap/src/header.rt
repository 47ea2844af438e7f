//! The header of a capture, each field judged as soon as it stands whole.
ghost use Rattle.std.specs.Prelude.{◌≡◌, ◌≤◌, length};
ghost use Rattle.fs_input.specs.Opening.{IsFrontWithin};
ghost use Rattle.fs_pcap.specs.Header.{header_of, link_field, ordered_header};

use crate::fault::CaptureReason;
use crate::order::{Endian, Unit, read_order};
use byteorder::{BigEndian, ByteOrder};
use fs_base::Link;
use fs_input::Head;

/// The octets of a capture's header.
pub(crate) const HEADER_SIZE: usize = 24;

/// What a capture's header says.
#[derive(Clone, Copy, Debug, PartialEq, Eq, Drop)]
pub struct Heading {
    pub order: Endian,
    pub unit: Unit,
    pub link: Link,
}

/// Reads a capture's header, of at most 24 octets.
pub(crate) fn read_header(header: &[u8]) -> Head<Heading, CaptureReason>
    ensures exact { result ≡ header_of header.now }
    ensures within { IsFrontWithin 24 (length header.now) result }
{
    if header.len() < 4 {
        return Head::Partial;
    }
    match read_order(BigEndian::read_u32(header)) {
        Some((order, unit)) => read_ordered(order, unit, header),
        None => Head::Wrong {
            reason: CaptureReason::Magic,
            offset: 0,
        },
    }
}

/// Goes on behind the magic.
fn read_ordered(order: Endian, unit: Unit, header: &[u8]) -> Head<Heading, CaptureReason>
    requires { 4 ≤ length header.now }
    ensures exact { result ≡ ordered_header order unit header.now }
    ensures within { IsFrontWithin 24 (length header.now) result }
{
    const WRONG_VERSION: Head<Heading, CaptureReason> = Head::Wrong {
        reason: CaptureReason::Version,
        offset: 4,
    };
    if header.len() < 6 {
        return Head::Partial;
    }
    if order.read_u16(&header[4..]) != 2 {
        return WRONG_VERSION;
    }
    if header.len() < 8 {
        return Head::Partial;
    }
    if order.read_u16(&header[6..]) != 4 {
        return WRONG_VERSION;
    }
    if header.len() < HEADER_SIZE {
        return Head::Partial;
    }
    read_link(order, unit, order.read_u32(&header[20..]))
}

/// Reads the number of the link type, of which the low 16 bits count.
fn read_link(order: Endian, unit: Unit, word: u32) -> Head<Heading, CaptureReason>
    ensures { result ≡ link_field order unit word }
{
    match Link::of(word % 65536) {
        Some(link) => Head::Whole {
            said: Heading { order, unit, link },
            size: 0,
        },
        None => Head::Wrong {
            reason: CaptureReason::Link,
            offset: 20,
        },
    }
}
