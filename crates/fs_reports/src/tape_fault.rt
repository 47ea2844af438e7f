//! The line of a tape's fault.

ghost use Rattle.std.specs.Prelude.{◌≡◌, IfOk};
ghost use Rattle.fs_reports.specs.TapeFault.{tape_reason_name, tape_fault_line};

use fs_base::Memory;
use fs_line::{append, append_decimal};
use fs_tape::TapeReason;
use std::alloc::Global;

/// The line of a tape's fault: its name and its place, the octet at which the tape is wrong.
///
/// # Errors
///
/// `Memory` where the machine refused memory.
pub fn tape_fault_text(alloc: Global, reason: TapeReason, place: u64) -> Result<Vec<u8>, Memory>
    ensures { IfOk result (λ text. text.items ≡ tape_fault_line reason place) }
{
    let mut text = Vec::new(alloc);
    append(b"tape ", &mut text)?;
    append(tape_reason_name(reason).as_bytes(), &mut text)?;
    append(b" at ", &mut text)?;
    append_decimal(place, &mut text)?;
    append(b"\n", &mut text)?;
    Ok(text)
}

/// The name of a tape's fault.
pub fn tape_reason_name(reason: TapeReason) -> &'static str
    ensures { result.now ≡ tape_reason_name reason }
{
    match reason {
        TapeReason::Magic => "Magic",
        TapeReason::Kind => "Kind",
        TapeReason::Peer => "Peer",
        TapeReason::Length => "Length",
        TapeReason::Cut => "Cut",
        TapeReason::Moment => "Moment",
    }
}
