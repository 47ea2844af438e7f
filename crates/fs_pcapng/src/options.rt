//! The options of an interface.
ghost use Rattle.std.specs.Prelude.{◌≡◌, ◌≤◌, ◌<◌, ◌+◌, ◌-◌, ◌/◌, ◌*◌, [], IfOk, length};
ghost use Rattle.fs_pcap.specs.Head.{longest_record};
ghost use Rattle.fs_input.specs.Reads.{Scans};
ghost use Rattle.fs_pcapng.specs.{Options.{option_in, options_in, padded, unit_in, value_in, cursor}, declared.fault.NgReason.TheVariants.{Cut}};

use crate::fault::{Got, NgFault, NgReason};
use crate::fields::{skip, take_front};
use fs_base::{Counted, Files};
use fs_pcap::Endian;

/// Options that are walked: how many octets of them are left, and the unit of times so far.
#[derive(Clone, Copy, Debug, PartialEq, Eq, Drop)]
pub(crate) struct Cursor {
    pub(crate) left: u32,
    pub(crate) unit: u8,
}

/// So many octets, with those that pad them to a multiple of four.
pub(crate) fn padded(size: u32) -> u32
    requires { size ≤ longest_record }
    ensures { result ≡ padded size }
{
    (size + 3) / 4 * 4
}

/// Walks options of so many octets: the unit of times behind them.
pub(crate) fn read_options<F: Files>(
    order: Endian,
    size: u32,
    counted: &mut Counted,
    files: &mut F,
) -> Got<u8>
    requires none { counted.old.back ≡ [] }
    ensures none { counted.new.back ≡ [] }
    ensures taken { IfOk result (λ _. counted.new.taken ≡ counted.old.taken + size) }
    ensures reads { Scans F.Files files.old files.new (options_in order size (cursor size 6)) Cut
        counted.old counted.new (λ unit. unit) result }
{
    let mut now = Cursor {
        left: size,
        unit: 6,
    };
    'options: while now.left > 0 {
        match take_option(order, now, counted, files) {
            Ok(later) => now = later,
            Err(fault) => return Err(fault),
        }
    }
    Ok(now.unit)
}

/// Reads one option.
fn take_option<F: Files>(
    order: Endian,
    now: Cursor,
    counted: &mut Counted,
    files: &mut F,
) -> Got<Cursor>
    requires none { counted.old.back ≡ [] }
    ensures none { counted.new.back ≡ [] }
    ensures less { IfOk result (λ later. later.left < now.left) }
    ensures taken { IfOk result (λ later. counted.new.taken + later.left ≡ counted.old.taken + now.left) }
    ensures reads { Scans F.Files files.old files.new (option_in order now) Cut counted.old counted.new (λ later. later)
        result }
{
    let place = counted.taken;
    let mut head = [0u8; 4];
    if let Err(fault) = take_front(4, counted, files, &mut head) {
        return Err(fault);
    }
    let code = order.read_u16(&head);
    let size = order.read_u16(&head[2..]);
    if 4 + padded(size as u32) > now.left {
        return Err(NgFault::Bad {
            reason: NgReason::Length,
            place,
        });
    }
    take_value(now, code, size, counted, files)
}

/// Reads an option's value: of code 9 and length 1 the unit; others are skipped.
fn take_value<F: Files>(
    now: Cursor,
    code: u16,
    size: u16,
    counted: &mut Counted,
    files: &mut F,
) -> Got<Cursor>
    requires none { counted.old.back ≡ [] }
    requires room { 4 + padded size ≤ now.left }
    ensures none { counted.new.back ≡ [] }
    ensures less { IfOk result (λ later. later.left < now.left) }
    ensures taken { IfOk result (λ later. counted.new.taken + later.left + 4 ≡ counted.old.taken + now.left) }
    ensures reads { Scans F.Files files.old files.new (value_in now code size) Cut counted.old counted.new
        (λ later. later) result }
{
    if code == 9 && size == 1 {
        return take_unit(now, counted, files);
    }
    let size = padded(size as u32);
    match skip(size as u64, counted, files) {
        Ok(()) => Ok(Cursor {
            left: now.left - 4 - size,
            unit: now.unit,
        }),
        Err(fault) => Err(fault),
    }
}

/// Reads the unit, an octet and three that pad it.
fn take_unit<F: Files>(now: Cursor, counted: &mut Counted, files: &mut F) -> Got<Cursor>
    requires none { counted.old.back ≡ [] }
    requires room { 8 ≤ now.left }
    ensures none { counted.new.back ≡ [] }
    ensures less { IfOk result (λ later. later.left < now.left) }
    ensures taken { IfOk result (λ later. counted.new.taken + later.left + 4 ≡ counted.old.taken + now.left) }
    ensures reads { Scans F.Files files.old files.new (unit_in now) Cut counted.old counted.new (λ later. later)
        result }
{
    let mut octets = [0u8; 4];
    if let Err(fault) = take_front(4, counted, files, &mut octets) {
        return Err(fault);
    }
    Ok(Cursor {
        left: now.left - 8,
        unit: octets[0],
    })
}
