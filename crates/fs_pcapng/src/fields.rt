//! Taking the fields of blocks.
ghost use Rattle.std.specs.Prelude.{◌≡◌, ◌≤◌, ◌+◌, [], IfOk, length, take};
ghost use Rattle.fs_pcap.specs.Order.{number};
ghost use Rattle.fs_input.specs.{Reads.{Scans, whole}, Scan.{field, skips}};
ghost use Rattle.fs_pcapng.specs.{Block.{close_in, end_in}, declared.fault.NgReason.TheVariants.{Cut}};

use crate::fault::{Got, NgFault, NgReason};
use fs_base::{Counted, Files};
use fs_input::{skip_octets, take_octets};
use fs_pcap::Endian;

/// Where a block stands: the order of its numbers, the place of its first octet, and its total length.
#[derive(Clone, Copy, Debug, PartialEq, Eq, Drop)]
pub(crate) struct Frame {
    pub(crate) order: Endian,
    pub(crate) start: u64,
    pub(crate) total: u32,
}

/// Takes so many octets into the front of `into`.
pub(crate) fn take_front<F: Files>(
    size: usize,
    counted: &mut Counted,
    files: &mut F,
    into: &mut [u8],
) -> Got<()>
    requires room { size ≤ length into.old }
    requires none { counted.old.back ≡ [] }
    ensures none { counted.new.back ≡ [] }
    ensures room { length into.new ≡ length into.old }
    ensures taken { IfOk result (λ _. counted.new.taken ≡ counted.old.taken + size) }
    ensures reads { Scans F.Files files.old files.new (field size whole) Cut counted.old counted.new
        (λ _. take size into.new) result }
{
    take_octets(NgReason::Cut, counted, files, &mut into[..size])
}

/// Takes a number of four octets.
pub(crate) fn take_number<F: Files>(order: Endian, counted: &mut Counted, files: &mut F) -> Got<u32>
    requires none { counted.old.back ≡ [] }
    ensures none { counted.new.back ≡ [] }
    ensures taken { IfOk result (λ _. counted.new.taken ≡ counted.old.taken + 4) }
    ensures reads { Scans F.Files files.old files.new (field 4 (number order 4)) Cut counted.old counted.new (λ n. n)
        result }
{
    let mut octets = [0u8; 4];
    if let Err(fault) = take_front(4, counted, files, &mut octets) {
        return Err(fault);
    }
    Ok(order.read_u32(&octets))
}

/// Takes the total length again.
pub(crate) fn close_block<F: Files>(frame: Frame, counted: &mut Counted, files: &mut F) -> Got<()>
    requires none { counted.old.back ≡ [] }
    requires place { counted.old.taken + 4 ≡ frame.start + frame.total }
    ensures none { counted.new.back ≡ [] }
    ensures taken { IfOk result (λ _. counted.new.taken ≡ frame.start + frame.total) }
    ensures reads { Scans F.Files files.old files.new (close_in frame) Cut counted.old counted.new (λ _. frame.total)
        result }
{
    let place = counted.taken;
    match take_number(frame.order, counted, files) {
        Ok(again) => {
            if again != frame.total {
                return Err(NgFault::Bad {
                    reason: NgReason::Length,
                    place,
                });
            }
            Ok(())
        }
        Err(fault) => Err(fault),
    }
}

/// Skips so many octets.
pub(crate) fn skip<F: Files>(size: u64, counted: &mut Counted, files: &mut F) -> Got<()>
    requires none { counted.old.back ≡ [] }
    ensures none { counted.new.back ≡ [] }
    ensures taken { IfOk result (λ _. counted.new.taken ≡ counted.old.taken + size) }
    ensures reads { Scans F.Files files.old files.new (skips size) Cut counted.old counted.new (λ _. size) result }
{
    let mut octets = [0u8; 64];
    skip_octets(NgReason::Cut, size, counted, files, &mut octets)
}

/// Skips what is left of a block, so many octets, and takes the total length again.
pub(crate) fn end_block<F: Files>(
    frame: Frame,
    size: u64,
    counted: &mut Counted,
    files: &mut F,
) -> Got<()>
    requires none { counted.old.back ≡ [] }
    requires place { counted.old.taken + size + 4 ≡ frame.start + frame.total }
    ensures none { counted.new.back ≡ [] }
    ensures taken { IfOk result (λ _. counted.new.taken ≡ frame.start + frame.total) }
    ensures reads { Scans F.Files files.old files.new (end_in frame size) Cut counted.old counted.new (λ _. frame.total)
        result }
{
    if let Err(fault) = skip(size, counted, files) {
        return Err(fault);
    }
    close_block(frame, counted, files)
}
