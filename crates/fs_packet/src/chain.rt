//! The headers of an IPv6 packet that stand before the upper layer's (RFC 8200 section 4).

ghost use Rattle.std.specs.Prelude.{◌≡◌, ◌∷◌, ◌<◌, ◌≤◌, [], drop, length, IfSome, option_map};
ghost use Rattle.fs_packet.specs.Chain.{behind_fragment, chain_of, extension_size, first_header, is_extension, last_field, protocol_at};

use byteorder::{BigEndian, ByteOrder};

/// The numbers of these headers.
const HOP_BY_HOP: u8 = 0;

const ROUTING: u8 = 43;

const FRAGMENT: u8 = 44;

const AUTHENTICATION: u8 = 51;

const DESTINATION_OPTIONS: u8 = 60;

/// Where the headers end.
#[derive(Clone, Copy, Drop)]
pub(crate) struct Chain<'a> {
    /// The number of the upper layer's header, or None where a header before it isn't whole.
    pub(crate) protocol: Option<u8>,
    /// The offset and the flags of the last fragment header, 0 where there was none.
    pub(crate) field: u16,
    /// The octets behind the headers; none in a fragment other than the first.
    pub(crate) behind: &'a [u8],
}

/// A header at the front of octets.
#[derive(Clone, Copy, Drop)]
struct Header<'a> {
    /// Of a fragment header its offset and flags.
    field: Option<u16>,
    next: u8,
    behind: &'a [u8],
}

/// Walks from a header's number and the octets that are held from it on, one header after the other.
#[inline(always)]
pub(crate) fn walk(number: u8, octets: &[u8]) -> Chain<'_>
    ensures protocol { result.protocol ≡ protocol_at (chain_of number octets.now).1 }
    ensures field { result.field ≡ last_field 0 (chain_of number octets.now).0 }
    ensures behind { result.behind.now ≡ drop 1 (chain_of number octets.now).1 }
{
    let mut next = number;
    let mut rest = octets;
    let mut field = 0;
    while let Some(header) = header_at(next, rest) {
        field = header.field.unwrap_or(field);
        next = header.next;
        rest = header.behind;
    }
    Chain {
        protocol: protocol(next),
        field,
        behind: rest,
    }
}

/// The number as a protocol, unless it is that of a header before the upper layer's.
fn protocol(number: u8) -> Option<u8>
    ensures { result ≡ protocol_at (number ∷ []) }
{
    if is_extension(number) {
        None
    } else {
        Some(number)
    }
}

/// The header of this number at the front of the octets, where it is one that stands before the upper layer's and
/// is held whole.
fn header_at(number: u8, octets: &[u8]) -> Option<Header<'_>>
    ensures header { option_map (λ header. (header.field, header.next ∷ header.behind.now)) result
        ≡ first_header (number ∷ octets.now) }
    ensures shorter { IfSome result (λ header. length header.behind.now < length octets.now) }
{
    let [next, second, ..] = octets else {
        return None;
    };
    let size = extension_size(number, *second);
    if !is_extension(number) || octets.len() < size {
        return None;
    }
    if number != FRAGMENT {
        return Some(Header {
            field: None,
            next: *next,
            behind: &octets[size..],
        });
    }
    let field = BigEndian::read_u16(&octets[2..]);
    Some(Header {
        field: Some(field),
        next: *next,
        behind: behind_fragment(field, octets),
    })
}

/// The octets behind a fragment header: in a fragment other than the first no header stands there.
fn behind_fragment(field: u16, octets: &[u8]) -> &[u8]
    requires { 8 ≤ length octets.now }
    ensures { result.now ≡ behind_fragment field octets.now }
{
    if field >> 3 == 0 { &octets[8..] } else { &[] }
}

/// How many octets a header has, by its second octet.
fn extension_size(number: u8, second: u8) -> usize
    ensures { result ≡ extension_size number second }
{
    match number {
        FRAGMENT => 8,
        AUTHENTICATION => (second as usize + 2) * 4,
        _ => (second as usize + 1) * 8,
    }
}

fn is_extension(number: u8) -> bool
    ensures { result ≡ is_extension number }
{
    matches!(
        number,
        HOP_BY_HOP | ROUTING | FRAGMENT | AUTHENTICATION | DESTINATION_OPTIONS
    )
}
