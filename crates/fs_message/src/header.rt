//! The header of a message (RFC 4271, sections 4.1 and 6.1).

ghost use Rattle.std.specs.{Prelude.{◌≡◌, ◌≤◌, length, IfNone, not, ◌==◌, take}, List.{list_any}};
ghost use Rattle.fs_message.specs.Header.{marker_wrong, size_wrong, kind_wrong, allows, header_fault, size_at};

use crate::MessageFault;
use crate::fault::{BAD_LENGTH, BAD_TYPE, NOT_SYNCHRONIZED};
use byteorder::{BigEndian, ByteOrder};

/// The octets of a header.
pub(crate) const HEADER: usize = 19;

/// The octets of the longest message.
pub(crate) const LONGEST: usize = 4096;

/// The type of an OPEN (RFC 4271, section 4.1).
pub const OPEN: u8 = 1;

/// The type of an UPDATE (RFC 4271, section 4.1).
pub const UPDATE: u8 = 2;

/// The type of a NOTIFICATION (RFC 4271, section 4.1).
pub const NOTIFICATION: u8 = 3;

/// The type of a KEEPALIVE (RFC 4271, section 4.1).
pub const KEEPALIVE: u8 = 4;

/// The type of a ROUTE-REFRESH (RFC 2918, section 3).
pub const ROUTE_REFRESH: u8 = 5;

/// The first field that stands whole in these octets of a header and is wrong.
pub(crate) fn fault_of(octets: &[u8]) -> Option<MessageFault>
    requires { length octets.now ≤ 19 }
    ensures exact { result ≡ header_fault octets.now }
    ensures sized { IfNone result (19 ≤ length octets.now → (19 ≤ size_at octets.now) × (size_at octets.now ≤ 4096)) }
{
    if has_wrong_marker(octets) {
        return Some(MessageFault::of(NOT_SYNCHRONIZED));
    }
    if octets.len() < 18 {
        return None;
    }
    let size = BigEndian::read_u16(&octets[16..]);
    if is_wrong_size(size) {
        return Some(MessageFault::of(BAD_LENGTH));
    }
    if octets.len() < HEADER {
        return None;
    }
    let kind = octets[18];
    if is_wrong_kind(kind) {
        return Some(MessageFault::of(BAD_TYPE));
    }
    if !is_allowed(kind, size) {
        return Some(MessageFault::of(BAD_LENGTH));
    }
    None
}

fn has_wrong_marker(octets: &[u8]) -> bool
    ensures { result ≡ marker_wrong octets.now }
{
    if octets.len() < 16 {
        return octets.iter().take(16).any(|octet| *octet != 255);
    }
    BigEndian::read_u128(octets) != u128::MAX
}

fn is_wrong_size(size: u16) -> bool
    ensures { result ≡ size_wrong size }
{
    size < 19 || 4096 < size
}

fn is_wrong_kind(kind: u8) -> bool
    ensures { result ≡ kind_wrong kind }
{
    kind < OPEN || ROUTE_REFRESH < kind
}

fn is_allowed(kind: u8, size: u16) -> bool
    ensures { result ≡ allows kind size }
{
    match kind {
        OPEN => size >= 29,
        UPDATE => size >= 23,
        NOTIFICATION => size >= 21,
        KEEPALIVE => size == 19,
        _ => size == 23,
    }
}
