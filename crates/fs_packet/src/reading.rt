//! Reading of a record's headers.

ghost use Rattle.std.specs.Prelude.{◌≡◌, ◌<◌, ◌≤◌, ◌+◌, ◌==◌, ◌&&◌, [], length, if◌then◌else◌};
ghost use Rattle.fs_base.specs.declared.prefix.Family.{Family};
ghost use Rattle.fs_packet.specs.Fields.{number_at};
ghost use Rattle.fs_packet.specs.Reading.{behind_link, behind_tags, behind_type, family_of_type, found_in, fragment_of, held_from, is_tag};
ghost use Rattle.fs_packet.specs.Reading.{packet_view, raw_view, v4_fragment, v4_starts, v4_view, v6_fragment, v6_view, view_of};

use crate::chain::walk;
use crate::fields::{Unread, View, upper_of};
use byteorder::{BigEndian, ByteOrder};
use fs_base::{Family, Link};

/// EtherTypes.
const IPV4: u16 = 0x0800;

const IPV6: u16 = 0x86dd;

const CUSTOMER_TAG: u16 = 0x8100;

const SERVICE_TAG: u16 = 0x88a8;

/// The bits DF, IsF, FF and LF of a rule (RFC 8955 section 4.2.2.12), by whether the offset isn't 0 (4), and the flags
/// More Fragments (2) and Don't Fragment (1) of an IPv4 header.
const V4_FRAGMENTS: [u8; 8] = [0, 1, 4, 5, 10, 11, 2, 3];

/// The view of the packet in a record's octets, or the first test of its headers that fails (RFC 791 section 3.1,
/// RFC 8200 sections 3 and 4).
#[inline(always)]
pub fn view(link: Link, octets: &[u8]) -> Result<View<'_>, Unread>
    ensures { result ≡ view_of link octets.now }
{
    let (family, packet) = behind_link(link, octets)?;
    match family {
        Family::V4 => v4_view(packet),
        Family::V6 => v6_view(packet),
    }
}

/// The packet behind what stands before it, and its family.
#[inline(always)]
fn behind_link(link: Link, octets: &[u8]) -> Result<(Family, &[u8]), Unread>
    ensures { behind_link (found_in result) ≡ view_of link octets.now }
{
    match link {
        Link::Ethernet => behind_tags(octets),
        Link::Raw => Ok((raw_family(octets), octets)),
        Link::Cooked => behind_type(octets, 14, 16),
        Link::CookedTwo => behind_type(octets, 0, 20),
        Link::V4 => Ok((Family::V4, octets)),
        Link::V6 => Ok((Family::V6, octets)),
    }
}

/// The family of a packet that says its version itself: IPv4 unless that is 6.
fn raw_family(packet: &[u8]) -> Family
    ensures { packet_view result packet.now ≡ raw_view packet.now }
{
    match packet {
        [first, ..] if first >> 4 == 6 => Family::V6,
        [_, ..] => Family::V4,
        [] => Family::V4,
    }
}

/// The packet behind an Ethernet header with at most two tags.
#[inline(always)]
fn behind_tags(octets: &[u8]) -> Result<(Family, &[u8]), Unread>
    ensures { found_in result ≡ behind_tags 2 12 octets.now }
{
    let mut place = 12;
    let mut tags = 2u8;
    while tags > 0 {
        if octets.len() < place + 2 {
            return Err(Unread::Short);
        }
        if !is_tag(number_at(octets, place)) {
            return behind_type(octets, place, place + 2);
        }
        place += 4;
        tags -= 1;
    }
    behind_type(octets, place, place + 2)
}

/// The packet behind a link header of `size` octets, whose EtherType stands at `place`.
#[inline(always)]
fn behind_type(octets: &[u8], place: usize, size: usize) -> Result<(Family, &[u8]), Unread>
    requires { place + 2 ≤ size }
    ensures { found_in result ≡ behind_type place size octets.now }
{
    if octets.len() < size {
        return Err(Unread::Short);
    }
    match family_of_type(number_at(octets, place)) {
        Some(family) => Ok((family, &octets[size..])),
        None => Err(Unread::Foreign),
    }
}

/// The number in the two octets at a place.
fn number_at(octets: &[u8], place: usize) -> u16
    requires { place + 2 ≤ length octets.now }
    ensures { result ≡ number_at 2 octets.now place }
{
    BigEndian::read_u16(&octets[place..])
}

fn is_tag(number: u16) -> bool
    ensures { result ≡ is_tag number }
{
    matches!(number, CUSTOMER_TAG | SERVICE_TAG)
}

fn family_of_type(number: u16) -> Option<Family>
    ensures { result ≡ family_of_type number }
{
    match number {
        IPV4 => Some(Family::V4),
        IPV6 => Some(Family::V6),
        _ => None,
    }
}

#[inline(always)]
fn v4_view(packet: &[u8]) -> Result<View<'_>, Unread>
    ensures { result ≡ v4_view packet.now }
{
    let [first, ..] = packet else {
        return Err(Unread::Short);
    };
    if first >> 4 != 4 {
        return Err(Unread::Version);
    }
    let size = (first & 0x0f) as usize * 4;
    if size < 20 {
        return Err(Unread::Header);
    }
    if packet.len() < size {
        return Err(Unread::Short);
    }
    let length = number_at(packet, 2);
    if (length as usize) < size {
        return Err(Unread::Length);
    }
    let field = number_at(packet, 6);
    Ok(View {
        packet,
        transport: v4_transport(packet, size, length as usize, field),
        length: length.into(),
        number: packet[9],
        upper: upper_of(Family::V4, Some(packet[9])),
        fragment: v4_fragment(field),
        family: Family::V4,
    })
}

/// The octets of the upper layer, by the header's octets, the packet's and the flags and offset.
fn v4_transport(packet: &[u8], size: usize, count: usize, field: u16) -> &[u8]
    requires captured { size ≤ length packet.now }
    requires counted { size ≤ count }
    ensures { result.now ≡ (if v4_starts field then held_from size count packet.now else []) }
{
    if v4_starts(field) {
        held_from(size, count, packet)
    } else {
        &[]
    }
}

#[inline(always)]
fn v6_view(packet: &[u8]) -> Result<View<'_>, Unread>
    ensures { result ≡ v6_view packet.now }
{
    let [first, ..] = packet else {
        return Err(Unread::Short);
    };
    if first >> 4 != 6 {
        return Err(Unread::Version);
    }
    if packet.len() < 40 {
        return Err(Unread::Short);
    }
    let payload = number_at(packet, 4);
    let next = packet[6];
    if is_jumbogram(payload, next) {
        return Err(Unread::Length);
    }
    let length = 40 + payload as u32;
    let chain = walk(next, held_from(40, length as usize, packet));
    Ok(View {
        packet,
        transport: chain.behind,
        length,
        number: chain.protocol.unwrap_or(0),
        upper: upper_of(Family::V6, chain.protocol),
        fragment: v6_fragment(chain.field),
        family: Family::V6,
    })
}

/// Whether the length stands in a hop-by-hop option (RFC 2675 section 3).
fn is_jumbogram(payload: u16, next: u8) -> bool
    ensures { result ≡ ((payload == 0) && (next == 0)) }
{
    payload == 0 && next == 0
}

/// The octets from a place on that the packet's length holds too.
fn held_from(place: usize, count: usize, packet: &[u8]) -> &[u8]
    requires captured { place ≤ length packet.now }
    requires counted { place ≤ count }
    ensures { result.now ≡ held_from place count packet.now }
{
    &packet[..count.min(packet.len())][place..]
}

/// Whether the flags and offset of an IPv4 header are those of a packet's start.
fn v4_starts(field: u16) -> bool
    ensures { result ≡ v4_starts field }
{
    field & 0x1fff == 0
}

fn v4_fragment(field: u16) -> u8
    ensures value { result ≡ v4_fragment field }
    ensures bits { result < 16 }
{
    let later = !v4_starts(field) as usize;
    let more = (field & 0x2000 != 0) as usize;
    let whole = (field & 0x4000 != 0) as usize;
    V4_FRAGMENTS[later * 4 + more * 2 + whole]
}

fn v6_fragment(field: u16) -> u8
    ensures value { result ≡ v6_fragment field }
    ensures bits { result < 16 }
{
    fragment_bits(field >> 3 == 0, field & 1 != 0)
}

/// The bits IsF, FF and LF (RFC 8955 section 4.2.2.12).
fn fragment_bits(at_start: bool, more: bool) -> u8
    ensures value { result ≡ fragment_of at_start more }
    ensures bits { result ≤ 10 }
{
    match (at_start, more) {
        (true, true) => 0x04,
        (true, false) => 0,
        (false, true) => 0x02,
        (false, false) => 0x0a,
    }
}
