//! Blocks that describe interfaces or hold packets.
ghost use Rattle.std.specs.Prelude.{◌≡◌, ◌≤◌, ◌<◌, ◌+◌, ◌-◌, ◌*◌, [], IfOk, Some, length, max, min, take};
ghost use Rattle.fs_pcap.specs.Head.{longest_record};
ghost use Rattle.fs_base.specs.Link.{link_of};
ghost use Rattle.fs_input.specs.{Judging.{scan_of}, Reads.{Scans}};
ghost use Rattle.fs_pcapng.specs.Block.{cut_to, described_in, enhanced_in, octets_in, simple_in};
ghost use Rattle.fs_pcapng.specs.{Packets.{Suits, told_by, told_in}, Pcapng.{seen_from}, declared.fault.NgReason.TheVariants.{Cut}};

use crate::caught::{NgCaught, Seen};
use crate::fault::{Got, NgFault, NgReason};
use crate::fields::{Frame, close_block, end_block, take_front, take_number};
use crate::options::{padded, read_options};
use crate::section::{Interface, Section};
use crate::time::time_of;
use fs_base::{Counted, Files, Link, fill};
use fs_input::{Judged, settle};
use fs_pcap::LONGEST_RECORD;

/// The longest packet that is taken.
const LONGEST_PACKET: u32 = LONGEST_RECORD as u32;

/// What a packet's block tells before its octets: the packet's time, the link type's number, how many octets were
/// captured, and how many the packet had.
#[derive(Clone, Copy, Debug, PartialEq, Eq, Drop)]
pub(crate) struct Told {
    pub(crate) time: u64,
    pub(crate) link: u16,
    pub(crate) captured: u32,
    pub(crate) original: u32,
}

/// Reads the description of an interface.
pub(crate) fn take_described<F: Files>(
    frame: Frame,
    counted: &mut Counted,
    files: &mut F,
) -> Got<Interface>
    requires none { counted.old.back ≡ [] }
    requires place { counted.old.taken ≡ frame.start + 8 }
    requires long { 20 ≤ frame.total }
    ensures none { counted.new.back ≡ [] }
    ensures grows { IfOk result (λ _. frame.start < counted.new.taken) }
    ensures reads { Scans F.Files files.old files.new (described_in frame) Cut counted.old counted.new
        (λ interface. interface) result }
{
    let mut head = [0u8; 8];
    if let Err(fault) = take_front(8, counted, files, &mut head) {
        return Err(fault);
    }
    let unit = match read_options(frame.order, frame.total - 20, counted, files) {
        Ok(unit) => unit,
        Err(fault) => return Err(fault),
    };
    match close_block(frame, counted, files) {
        Ok(()) => Ok(Interface {
            link: frame.order.read_u16(&head),
            snap: frame.order.read_u32(&head[4..]),
            unit,
        }),
        Err(fault) => Err(fault),
    }
}

/// Takes so many octets of a packet, behind so many others of the block, and ends the block: in one piece
/// where `into` has room for what else the block holds.
fn take_captured<F: Files>(
    frame: Frame,
    fixed: u32,
    captured: u32,
    counted: &mut Counted,
    files: &mut F,
    into: &mut [u8],
) -> Got<()>
    requires room { longest_record ≤ length into.old }
    requires size { captured ≤ longest_record }
    requires long { fixed + captured ≤ frame.total }
    requires none { counted.old.back ≡ [] }
    requires place { counted.old.taken + 4 ≡ frame.start + fixed }
    ensures none { counted.new.back ≡ [] }
    ensures room { length into.new ≡ length into.old }
    ensures taken { IfOk result (λ _. counted.new.taken ≡ frame.start + frame.total) }
    ensures reads { Scans F.Files files.old files.new (octets_in frame fixed captured) Cut counted.old counted.new
        (λ _. take captured into.new) result }
{
    let rest = (frame.total - fixed - captured) as usize;
    let size = captured as usize + rest + 4;
    if size > into.len() {
        if let Err(fault) = take_front(captured as usize, counted, files, into) {
            return Err(fault);
        }
        return match end_block(frame, rest as u64, counted, files) {
            Ok(()) => Ok(()),
            Err(fault) => Err(fault),
        };
    }
    if let Err(fault) = take_front(size, counted, files, into) {
        return Err(fault);
    }
    if frame.order.read_u32(&into[size - 4..size]) != frame.total {
        return Err(NgFault::Bad {
            reason: NgReason::Length,
            place: counted.taken - 4,
        });
    }
    Ok(())
}

/// The packet of which this was told, behind one of the moment `last`.
fn seen(last: u64, told: Told) -> Seen
    ensures { result ≡ record {
      caught = record {
        time = told.time;
        moment = max last told.time;
        taken = told.captured;
        original = told.original;
      };
      link = link_of told.link;
    } }
{
    Seen {
        caught: NgCaught {
            time: told.time,
            moment: last.max(told.time),
            taken: told.captured as usize,
            original: told.original,
        },
        link: Link::of(told.link as u32),
    }
}

/// Judges the octets in hand of the 16 behind the number of an enhanced packet's interface, which stands at `at`.
fn judge_timed(frame: Frame, interface: Interface, at: u64, octets: &[u8]) -> Judged<Told, NgReason>
    requires place { at ≡ frame.start + 8 }
    requires within { at + 4 + length octets.now ≤ 18446744073709551615 }
    ensures fits { Suits frame 16 (length octets.now) result }
    ensures said { scan_of 16 result ≡ told_by frame (Some interface) (at + 4) octets.now }
{
    if octets.len() < 12 {
        return Judged::Partial;
    }
    let head = &octets[..12];
    let captured = frame.order.read_u32(&head[8..]);
    if captured > LONGEST_PACKET {
        return Judged::Wrong {
            reason: NgReason::RecordTooLong,
            place: at + 12,
        };
    }
    if 32 + padded(captured) > frame.total {
        return Judged::Wrong {
            reason: NgReason::Length,
            place: at - 4,
        };
    }
    if octets.len() < 16 {
        return Judged::Partial;
    }
    let high = frame.order.read_u32(head);
    let low = frame.order.read_u32(&head[4..]);
    Judged::Whole(Told {
        time: time_of(interface.unit, high as u64 * 4294967296 + low as u64),
        link: interface.link,
        captured,
        original: frame.order.read_u32(&octets[12..16]),
    })
}

/// Judges the octets in hand of the 20 that stand before an enhanced packet's own; with them, so many octets of the
/// input were `taken`.
fn judge_told(frame: Frame, section: &Section, taken: u64, octets: &[u8]) -> Judged<Told, NgReason>
    requires place { taken ≡ frame.start + 8 + length octets.now }
    ensures fits { Suits frame 20 (length octets.now) result }
    ensures said { scan_of 20 result ≡ told_in frame section.now (frame.start + 8) octets.now }
{
    if octets.len() < 4 {
        return Judged::Partial;
    }
    let at = taken - octets.len() as u64;
    match section.interface(frame.order.read_u32(&octets[..4])) {
        Some(interface) => judge_timed(frame, interface, at, &octets[4..]),
        None => Judged::Wrong {
            reason: NgReason::Interface,
            place: at,
        },
    }
}

/// Takes what an enhanced packet's block tells before the packet's octets, at once.
fn take_told<F: Files>(
    frame: Frame,
    section: &Section,
    counted: &mut Counted,
    files: &mut F,
) -> Got<Told>
    requires none { counted.old.back ≡ [] }
    requires place { counted.old.taken ≡ frame.start + 8 }
    ensures none { counted.new.back ≡ [] }
    ensures taken { IfOk result (λ _. counted.new.taken ≡ frame.start + 28) }
    ensures size { IfOk result (λ told. told.captured ≤ longest_record) }
    ensures long { IfOk result (λ told. 32 + told.captured ≤ frame.total) }
    ensures reads { Scans F.Files files.old files.new (told_in frame section.now) Cut counted.old counted.new
        (λ told. told) result }
{
    let mut octets = [0u8; 20];
    let Ok(count) = fill(counted, files, &mut octets) else {
        return Err(NgFault::Read);
    };
    let judged = judge_told(frame, section, counted.taken, &octets[..count]);
    settle(NgReason::Cut, counted, judged)
}

/// Reads an enhanced packet.
pub(crate) fn take_enhanced<F: Files>(
    frame: Frame,
    section: &Section,
    counted: &mut Counted,
    files: &mut F,
    into: &mut [u8],
) -> Got<Seen>
    requires room { longest_record ≤ length into.old }
    requires none { counted.old.back ≡ [] }
    requires place { counted.old.taken ≡ frame.start + 8 }
    ensures none { counted.new.back ≡ [] }
    ensures room { length into.new ≡ length into.old }
    ensures grows { IfOk result (λ _. frame.start < counted.new.taken) }
    ensures size { IfOk result (λ seen. seen.caught.taken ≤ longest_record) }
    ensures rises { IfOk result (λ seen. section.now.moment ≤ seen.caught.moment) }
    ensures reads { Scans F.Files files.old files.new (enhanced_in frame section.now) Cut counted.old counted.new
        (seen_from into.new) result }
{
    let told = match take_told(frame, section, counted, files) {
        Ok(told) => told,
        Err(fault) => return Err(fault),
    };
    match take_captured(frame, 32, told.captured, counted, files, into) {
        Ok(()) => Ok(seen(section.moment(), told)),
        Err(fault) => Err(fault),
    }
}

/// The least of a packet's length and the snap length, where there is one.
fn cut_to(snap: u32, original: u32) -> u32
    ensures { result ≡ cut_to snap original }
{
    if snap == 0 {
        original
    } else {
        original.min(snap)
    }
}

/// Reads a simple packet.
pub(crate) fn take_simple<F: Files>(
    frame: Frame,
    section: &Section,
    counted: &mut Counted,
    files: &mut F,
    into: &mut [u8],
) -> Got<Seen>
    requires room { longest_record ≤ length into.old }
    requires none { counted.old.back ≡ [] }
    requires place { counted.old.taken ≡ frame.start + 8 }
    ensures none { counted.new.back ≡ [] }
    ensures room { length into.new ≡ length into.old }
    ensures grows { IfOk result (λ _. frame.start < counted.new.taken) }
    ensures size { IfOk result (λ seen. seen.caught.taken ≤ longest_record) }
    ensures rises { IfOk result (λ seen. section.now.moment ≤ seen.caught.moment) }
    ensures reads { Scans F.Files files.old files.new (simple_in frame section.now) Cut counted.old counted.new
        (seen_from into.new) result }
{
    let Some(interface) = section.interface(0) else {
        return Err(NgFault::Bad {
            reason: NgReason::Interface,
            place: frame.start,
        });
    };
    let original = match take_number(frame.order, counted, files) {
        Ok(original) => original,
        Err(fault) => return Err(fault),
    };
    let told = Told {
        time: 0,
        link: interface.link,
        captured: cut_to(interface.snap, original),
        original,
    };
    if told.captured > LONGEST_PACKET {
        return Err(NgFault::Bad {
            reason: NgReason::RecordTooLong,
            place: counted.taken - 4,
        });
    }
    if 16 + padded(told.captured) > frame.total {
        return Err(NgFault::Bad {
            reason: NgReason::Length,
            place: counted.taken - 8,
        });
    }
    match take_captured(frame, 16, told.captured, counted, files, into) {
        Ok(()) => Ok(seen(section.moment(), told)),
        Err(fault) => Err(fault),
    }
}
