//! A record behind its head.
ghost use Rattle.std.specs.{Prelude.{◌≡◌, ◌≤◌, ◌<◌, ◌+◌, ◌*◌, ◌-◌, [], ℕ, IfOk, IfSome, length, max}, Option.{option_map}};
ghost use Rattle.byteorder.specs.Endian.{big_number};
ghost use Rattle.fs_input.specs.{Reads.{Scans}, Scan.{field}};
ghost use Rattle.fs_mrt.specs.Dump.{IsWithin, spoken_from};
ghost use Rattle.fs_mrt.specs.Record.{asn_of, body_in, ends_size, family_in, front_in, heard_in, time_of};
ghost use Rattle.fs_mrt.specs.{Shape.{address_of, address_size, front_size, states_size}, declared.fault.DumpReason.TheVariants.{Cut}};

use crate::fault::{DumpFault, DumpReason};
use crate::fields::{take_part, take_said};
use crate::heard::Heard;
use crate::peers::number_at;
use crate::shape::{Shape, address_of, address_size, family_of};
use byteorder::{BigEndian, ByteOrder};
use fs_base::{Address, Counted, Family, Files, Peer};
use fs_input::skip_octets;

/// What the fields before a record's addresses tell: its time, in nanoseconds since the start of 1970, the peer's AS
/// number, and the family of the addresses.
#[derive(Clone, Copy, Debug, PartialEq, Eq, Drop)]
pub(crate) struct Front {
    pub(crate) time: u64,
    pub(crate) asn: u32,
    pub(crate) family: Family,
}

/// What a record's head tells: the place of the length, the seconds, the length, and the shape of a body that is read.
#[derive(Clone, Copy, Debug, PartialEq, Eq, Drop)]
pub(crate) struct Head {
    pub(crate) spot: u64,
    pub(crate) seconds: u32,
    pub(crate) size: u32,
    pub(crate) shape: Option<Shape>,
}

/// What is left of a body that is read, behind its addresses: so many octets, of this shape, at this moment.
#[derive(Clone, Copy, Debug, PartialEq, Eq, Drop)]
pub(crate) struct Rest {
    pub(crate) moment: u64,
    pub(crate) size: usize,
    pub(crate) shape: Shape,
}

/// The octets in front of the message or the states.
pub(crate) fn ends_size(shape: Shape, family: Family) -> usize
    ensures exact { result ≡ ends_size shape family }
    ensures few { result ≤ 48 }
{
    shape.front_size() + 2 + 2 * address_size(family)
}

/// The time of a record.
fn time_of(shape: Shape, seconds: u32, octets: &[u8]) -> u64
    requires { 4 ≤ length octets.now }
    ensures { result ≡ time_of shape seconds octets.now }
{
    let micros = if shape.timed {
        BigEndian::read_u32(octets) as u64 * 1000
    } else {
        0
    };
    seconds as u64 * 1_000_000_000 + micros
}

/// The peer's AS number, which stands behind the microseconds.
fn asn_of(shape: Shape, octets: &[u8]) -> u32
    requires { 8 ≤ length octets.now }
    ensures { result ≡ asn_of shape octets.now }
{
    let first = if shape.timed { 4 } else { 0 };
    if shape.wide {
        BigEndian::read_u32(&octets[first..])
    } else {
        u32::from(BigEndian::read_u16(&octets[first..]))
    }
}

/// Reads the fields up to the address family, and judges the record's length.
pub(crate) fn take_front<F: Files>(
    head: Head,
    shape: Shape,
    counted: &mut Counted,
    files: &mut F,
) -> Result<Front, DumpFault>
    requires none { counted.old.back ≡ [] }
    ensures none { counted.new.back ≡ [] }
    ensures room { IfOk result (λ front. ends_size shape front.family + states_size shape ≤ head.size) }
    ensures most { IfOk result (λ _. head.size ≤ 65536) }
    ensures grows { IfOk result (λ _. counted.old.taken ≤ counted.new.taken) }
    ensures reads { Scans F.Files files.old files.new (front_in head.spot head.seconds head.size shape) Cut counted.old
        counted.new (λ front. front) result }
{
    let size = head.size as usize;
    let first = shape.front_size();
    if first + 2 > size || size > 65536 {
        return Err(DumpFault::Bad {
            reason: DumpReason::Length,
            place: head.spot,
        });
    }
    let mut octets = [0u8; 16];
    if let Err(fault) = take_part(0, first + 2, counted, files, &mut octets) {
        return Err(fault);
    }
    let Some(family) = family_of(BigEndian::read_u16(&octets[first..])) else {
        return Err(DumpFault::Bad {
            reason: DumpReason::Family,
            place: counted.taken - 2,
        });
    };
    if ends_size(shape, family) + shape.states_size() > size {
        return Err(DumpFault::Bad {
            reason: DumpReason::Length,
            place: head.spot,
        });
    }
    Ok(Front {
        time: time_of(shape, head.seconds, &octets),
        asn: asn_of(shape, &octets),
        family,
    })
}

/// Reads both addresses, and answers the first, which is the peer's.
pub(crate) fn take_address<F: Files>(
    family: Family,
    counted: &mut Counted,
    files: &mut F,
) -> Result<Address, DumpFault>
    requires none { counted.old.back ≡ [] }
    ensures none { counted.new.back ≡ [] }
    ensures grows { IfOk result (λ _. counted.old.taken ≤ counted.new.taken) }
    ensures reads { Scans F.Files files.old files.new (field (2 * address_size family) (address_of family)) Cut
        counted.old counted.new (λ address. address) result }
{
    let mut octets = [0u8; 32];
    if let Err(fault) = take_part(0, 2 * address_size(family), counted, files, &mut octets) {
        return Err(fault);
    }
    Ok(address_of(family, &octets))
}

/// Reads what stands behind the addresses; skips it where the peer isn't configured.
pub(crate) fn take_heard<F: Files>(
    rest: Rest,
    peer: Option<u16>,
    counted: &mut Counted,
    files: &mut F,
    into: &mut [u8],
) -> Result<Option<Heard>, DumpFault>
    requires room { 65536 ≤ length into.old }
    requires size { rest.size ≤ 65536 }
    requires some { states_size rest.shape ≤ rest.size }
    requires none { counted.old.back ≡ [] }
    ensures none { counted.new.back ≡ [] }
    ensures room { length into.new ≡ length into.old }
    ensures moment { IfOk result (λ found. IfSome found (λ heard. heard.moment ≡ rest.moment)) }
    ensures within { IfOk result (λ found. IfSome found (λ heard. IsWithin heard.what)) }
    ensures grows { IfOk result (λ _. counted.old.taken ≤ counted.new.taken) }
    ensures reads { Scans F.Files files.old files.new (heard_in rest.moment rest.size rest.shape peer) Cut counted.old
        counted.new (option_map (λ heard. spoken_from heard into.new)) result }
{
    let Some(peer) = peer else {
        return match skip_octets(DumpReason::Cut, rest.size as u64, counted, files, into) {
            Ok(()) => Ok(None),
            Err(fault) => Err(fault),
        };
    };
    match take_said(rest.shape.change, rest.size, counted, files, into) {
        Ok(what) => Ok(Some(Heard {
            peer,
            moment: rest.moment,
            wide: rest.shape.wide,
            what,
        })),
        Err(fault) => Err(fault),
    }
}

/// Reads a body behind a record of this moment; skips one that isn't read.
pub(crate) fn take_body<F: Files>(
    peers: &[Peer],
    moment: u64,
    head: Head,
    counted: &mut Counted,
    files: &mut F,
    into: &mut [u8],
) -> Result<Option<Heard>, DumpFault>
    requires room { 65536 ≤ length into.old }
    requires none { counted.old.back ≡ [] }
    ensures none { counted.new.back ≡ [] }
    ensures room { length into.new ≡ length into.old }
    ensures moment { IfOk result (λ found. IfSome found (λ heard. moment ≤ heard.moment)) }
    ensures within { IfOk result (λ found. IfSome found (λ heard. IsWithin heard.what)) }
    ensures grows { IfOk result (λ _. counted.old.taken ≤ counted.new.taken) }
    ensures reads { Scans F.Files files.old files.new
        (body_in peers.now moment head.spot head.seconds head.size head.shape) Cut counted.old counted.new
        (option_map (λ heard. spoken_from heard into.new)) result }
{
    let Some(shape) = head.shape else {
        return match skip_octets(DumpReason::Cut, head.size as u64, counted, files, into) {
            Ok(()) => Ok(None),
            Err(fault) => Err(fault),
        };
    };
    match take_front(head, shape, counted, files) {
        Ok(front) => {
            let rest = Rest {
                moment: moment.max(front.time),
                size: head.size as usize - ends_size(shape, front.family),
                shape,
            };
            match take_address(front.family, counted, files) {
                Ok(address) => take_heard(rest, number_at(peers, address), counted, files, into),
                Err(fault) => Err(fault),
            }
        }
        Err(fault) => Err(fault),
    }
}
