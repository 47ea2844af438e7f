//! Blocks.
ghost use Rattle.std.specs.{Prelude.{◌≡◌, ◌≤◌, ◌<◌, ◌+◌, [], IfOk, length}, Option.{option_map}};
ghost use Rattle.fs_pcap.specs.Head.{longest_record};
ghost use Rattle.fs_input.specs.{Reading.{answer_told}, Reads.{Scans}};
ghost use Rattle.fs_pcapng.specs.{Block.{body_in, kind_behind, kind_of, least_of}, Pcapng.{Moves, seen_from}, declared.fault.NgReason.TheVariants.{Cut}};

use crate::caught::Seen;
use crate::fault::{Got, NgFault, NgReason};
use crate::fields::{Frame, end_block, take_number};
use crate::header::{allows, take_header};
use crate::packets::{take_described, take_enhanced, take_simple};
use crate::section::Section;
use byteorder::{BigEndian, ByteOrder};
use fs_base::{Counted, Files};
use fs_pcap::Endian;

/// The type of a section header, the same in either order: a pcapng capture's first four octets.
pub const SECTION_HEADER: u32 = 0x0a0d_0d0a;

/// The kinds of blocks behind a section header.
#[derive(Clone, Copy, Debug, PartialEq, Eq, Drop)]
pub(crate) enum Kind {
    /// Describes an interface.
    Described,
    /// An enhanced packet.
    Enhanced,
    /// A simple packet.
    Simple,
    /// All else, which is skipped.
    Other,
}

fn kind_of(number: u32) -> Kind
    ensures { result ≡ kind_of number }
{
    match number {
        1 => Kind::Described,
        6 => Kind::Enhanced,
        3 => Kind::Simple,
        _ => Kind::Other,
    }
}

impl Kind {
    /// The octets of the fields that a block of this kind needs.
    fn least(self) -> u32
        ensures exact { result ≡ least_of self }
        ensures some { 12 ≤ result }
    {
        match self {
            Kind::Described => 20,
            Kind::Enhanced => 32,
            Kind::Simple => 16,
            Kind::Other => 12,
        }
    }
}

/// Whether these octets begin with a whole block that gives a packet.
#[inline(always)]
pub(crate) fn is_whole_packet(order: Endian, octets: &[u8]) -> bool {
    if octets.len() < 8 {
        return false;
    }
    match kind_of(order.read_u32(octets)) {
        Kind::Enhanced | Kind::Simple => order.read_u32(&octets[4..]) as usize <= octets.len(),
        Kind::Described | Kind::Other => false,
    }
}

/// Reads a block behind the octets of its type: the packet that it gives, if any.
pub(crate) fn take_block<F: Files>(
    start: u64,
    kind: &[u8],
    section: &mut Section,
    counted: &mut Counted,
    files: &mut F,
    into: &mut [u8],
) -> Got<Option<Seen>>
    requires kind { 4 ≤ length kind.now }
    requires room { longest_record ≤ length into.old }
    requires none { counted.old.back ≡ [] }
    requires place { counted.old.taken ≡ start + 4 }
    ensures none { counted.new.back ≡ [] }
    ensures room { length into.new ≡ length into.old }
    ensures grows { IfOk result (λ _. start < counted.new.taken) }
    ensures moves { Moves section.old section.new (answer_told result) }
    ensures reads { Scans F.Files files.old files.new (kind_behind section.old start kind.now) Cut counted.old
        counted.new (λ found. (option_map (seen_from into.new) found, section.new)) result }
{
    if BigEndian::read_u32(kind) == SECTION_HEADER {
        return match take_header(start, counted, files) {
            Ok(order) => {
                section.open(order);
                Ok(None)
            }
            Err(fault) => Err(fault),
        };
    }
    let Some(order) = section.order() else {
        return Err(NgFault::Bad {
            reason: NgReason::Magic,
            place: start,
        });
    };
    let kind = kind_of(order.read_u32(kind));
    let total = match take_number(order, counted, files) {
        Ok(total) => total,
        Err(fault) => return Err(fault),
    };
    if !allows(kind.least(), total) {
        return Err(NgFault::Bad {
            reason: NgReason::Length,
            place: counted.taken - 4,
        });
    }
    let frame = Frame {
        order,
        start,
        total,
    };
    take_body(frame, kind, section, counted, files, into)
}

/// Reads the body of a block, and ends it.
fn take_body<F: Files>(
    frame: Frame,
    kind: Kind,
    section: &mut Section,
    counted: &mut Counted,
    files: &mut F,
    into: &mut [u8],
) -> Got<Option<Seen>>
    requires room { longest_record ≤ length into.old }
    requires none { counted.old.back ≡ [] }
    requires place { counted.old.taken ≡ frame.start + 8 }
    requires long { least_of kind ≤ frame.total }
    ensures none { counted.new.back ≡ [] }
    ensures room { length into.new ≡ length into.old }
    ensures grows { IfOk result (λ _. frame.start < counted.new.taken) }
    ensures moves { Moves section.old section.new (answer_told result) }
    ensures reads { Scans F.Files files.old files.new (body_in frame section.old kind) Cut counted.old counted.new
        (λ found. (option_map (seen_from into.new) found, section.new)) result }
{
    match kind {
        Kind::Described => {
            if !section.has_room() {
                return Err(NgFault::Bad {
                    reason: NgReason::TooMany,
                    place: frame.start,
                });
            }
            match take_described(frame, counted, files) {
                Ok(interface) => {
                    section.add(interface);
                    Ok(None)
                }
                Err(fault) => Err(fault),
            }
        }
        Kind::Enhanced => match take_enhanced(frame, section, counted, files, into) {
            Ok(seen) => {
                section.pass(seen.caught.moment);
                Ok(Some(seen))
            }
            Err(fault) => Err(fault),
        },
        Kind::Simple => match take_simple(frame, section, counted, files, into) {
            Ok(seen) => {
                section.pass(seen.caught.moment);
                Ok(Some(seen))
            }
            Err(fault) => Err(fault),
        },
        Kind::Other => match end_block(frame, frame.total as u64 - 12, counted, files) {
            Ok(()) => Ok(None),
            Err(fault) => Err(fault),
        },
    }
}
