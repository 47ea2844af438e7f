//! Section headers.
ghost use Rattle.std.specs.Prelude.{◌≡◌, ◌≤◌, ◌<◌, ◌+◌, ◌-◌, ◌%◌, [], IfOk, length};
ghost use Rattle.fs_input.specs.Reads.{Scans};
ghost use Rattle.fs_pcapng.specs.{Block.{allows, order_of, section_in, version_in}, declared.fault.NgReason.TheVariants.{Cut}};

use crate::fault::{Got, NgFault, NgReason};
use crate::fields::{Frame, end_block, take_front, take_number};
use fs_base::{Counted, Files};
use fs_pcap::Endian;

/// The order that a byte-order magic tells, read with the highest octet first.
fn order_of(magic: u32) -> Option<Endian>
    ensures { result ≡ order_of magic }
{
    match magic {
        0x1a2b_3c4d => Some(Endian::Big),
        0x4d3c_2b1a => Some(Endian::Little),
        _ => None,
    }
}

/// Whether a block of at least so many octets may have this total length.
pub(crate) fn allows(least: u32, total: u32) -> bool
    ensures { result ≡ allows least total }
{
    total >= least && total % 4 == 0
}

/// Reads a section header behind its type: the order that it tells.
pub(crate) fn take_header<F: Files>(start: u64, counted: &mut Counted, files: &mut F) -> Got<Endian>
    requires none { counted.old.back ≡ [] }
    requires place { counted.old.taken ≡ start + 4 }
    ensures none { counted.new.back ≡ [] }
    ensures grows { IfOk result (λ _. start < counted.new.taken) }
    ensures reads { Scans F.Files files.old files.new (section_in start) Cut counted.old counted.new (λ order. order)
        result }
{
    let mut octets = [0u8; 4];
    if let Err(fault) = take_front(4, counted, files, &mut octets) {
        return Err(fault);
    }
    let magic = match take_number(Endian::Big, counted, files) {
        Ok(magic) => magic,
        Err(fault) => return Err(fault),
    };
    let Some(order) = order_of(magic) else {
        return Err(NgFault::Bad {
            reason: NgReason::Magic,
            place: counted.taken - 4,
        });
    };
    let total = order.read_u32(&octets);
    if !allows(28, total) {
        return Err(NgFault::Bad {
            reason: NgReason::Length,
            place: counted.taken - 8,
        });
    }
    take_version(
        Frame {
            order,
            start,
            total,
        },
        counted,
        files,
    )
}

/// Reads a section header behind its magic.
fn take_version<F: Files>(frame: Frame, counted: &mut Counted, files: &mut F) -> Got<Endian>
    requires none { counted.old.back ≡ [] }
    requires place { counted.old.taken ≡ frame.start + 12 }
    requires long { 28 ≤ frame.total }
    ensures none { counted.new.back ≡ [] }
    ensures grows { IfOk result (λ _. frame.start < counted.new.taken) }
    ensures reads { Scans F.Files files.old files.new (version_in frame) Cut counted.old counted.new (λ order. order)
        result }
{
    let place = counted.taken;
    let mut major = [0u8; 2];
    if let Err(fault) = take_front(2, counted, files, &mut major) {
        return Err(fault);
    }
    if frame.order.read_u16(&major) != 1 {
        return Err(NgFault::Bad {
            reason: NgReason::Version,
            place,
        });
    }
    match end_block(frame, frame.total as u64 - 18, counted, files) {
        Ok(()) => Ok(frame.order),
        Err(fault) => Err(fault),
    }
}
