//! Taking the fields of a body.
ghost use Rattle.std.specs.Prelude.{◌≡◌, ◌≤◌, ◌+◌, [], IfOk, IsTrue, length, take, drop};
ghost use Rattle.fs_input.specs.{Reads.{Scans, whole}, Scan.{field}};
ghost use Rattle.fs_mrt.specs.{Record.{said_in}, Dump.{IsWithin, said_from}, declared.fault.DumpReason.TheVariants.{Cut}};

use crate::fault::{DumpFault, DumpReason};
use crate::heard::What;
use byteorder::{BigEndian, ByteOrder};
use fs_base::{Counted, Files};
use fs_input::{skip_octets, take_octets};

/// Takes so many octets into `into`, behind its first `from`.
pub(crate) fn take_part<F: Files>(
    from: usize,
    size: usize,
    counted: &mut Counted,
    files: &mut F,
    into: &mut [u8],
) -> Result<(), DumpFault>
    requires room { from + size ≤ length into.old }
    requires none { counted.old.back ≡ [] }
    ensures none { counted.new.back ≡ [] }
    ensures room { length into.new ≡ length into.old }
    ensures front { take from into.new ≡ take from into.old }
    ensures taken { IfOk result (λ _. counted.new.taken ≡ counted.old.taken + size) }
    ensures reads { Scans F.Files files.old files.new (field size whole) Cut counted.old counted.new
        (λ _. take size (drop from into.new)) result }
{
    take_octets(
        DumpReason::Cut,
        counted,
        files,
        &mut into[from..from + size],
    )
}

/// Reads a message or the states, in a body that has so many octets left.
pub(crate) fn take_said<F: Files>(
    change: bool,
    size: usize,
    counted: &mut Counted,
    files: &mut F,
    into: &mut [u8],
) -> Result<What, DumpFault>
    requires room { 65536 ≤ length into.old }
    requires size { size ≤ 65536 }
    requires some { IsTrue change → 4 ≤ size }
    requires none { counted.old.back ≡ [] }
    ensures none { counted.new.back ≡ [] }
    ensures room { length into.new ≡ length into.old }
    ensures within { IfOk result IsWithin }
    ensures grows { IfOk result (λ _. counted.old.taken ≤ counted.new.taken) }
    ensures reads { Scans F.Files files.old files.new (said_in change size) Cut counted.old counted.new
        (λ what. said_from what into.new) result }
{
    if change {
        if let Err(fault) = take_part(0, 4, counted, files, into) {
            return Err(fault);
        }
        let old = BigEndian::read_u16(into);
        let new = BigEndian::read_u16(&into[2..]);
        return match skip_octets(DumpReason::Cut, (size - 4) as u64, counted, files, into) {
            Ok(()) => Ok(What::Change { old, new }),
            Err(fault) => Err(fault),
        };
    }
    let place = counted.taken;
    let wrong = DumpFault::Bad {
        reason: DumpReason::Message,
        place,
    };
    if size < 19 {
        return Err(wrong);
    }
    if let Err(fault) = take_part(0, 18, counted, files, into) {
        return Err(fault);
    }
    if BigEndian::read_u16(&into[16..]) as usize != size {
        return Err(wrong);
    }
    if let Err(fault) = take_part(18, size - 18, counted, files, into) {
        return Err(fault);
    }
    Ok(What::Message(size))
}
