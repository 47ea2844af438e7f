//! The lines of the commands that speak over a wire.

ghost use Rattle.std.specs.Prelude.{◌≡◌, ◌++◌, IfOk, OnOk};
ghost use Rattle.cmd_wire.specs.Lines.{closing_line, closing_text, ended_line, sent_line};

use fs_base::Memory;
use fs_line::{append, append_decimal};
use fs_reports::append_codes;
use fs_speaker::Closed;
use std::alloc::Global;

/// The line of a session that ended before it was established.
pub(crate) fn ended_line() -> &'static [u8]
    ensures { result.now ≡ ended_line }
{
    b"session ended\n"
}

/// The line of a session that closed.
///
/// # Errors
///
/// `Memory` where the machine refused memory, also where the session closed for that.
pub(crate) fn closing_line(alloc: Global, why: Closed) -> Result<Vec<u8>, Memory>
    ensures { IfOk result (λ text. text.items ≡ closing_line why) }
{
    let mut text = Vec::new(alloc);
    append_closing(why, &mut text)?;
    append(b"\n", &mut text)?;
    Ok(text)
}

/// Appends how a session closed.
fn append_closing(why: Closed, text: &mut Vec<u8>) -> Result<(), Memory>
    ensures { OnOk result (text.new.items ≡ text.old.items ++ closing_text why) }
{
    match why {
        Closed::Fault { code, subcode } => append_codes(b"session ", code, subcode, text),
        Closed::Notified { code, subcode } => {
            append_codes(b"session notified ", code, subcode, text)
        }
        Closed::NoFamily => append(b"session family", text),
        Closed::Memory => Err(Memory),
    }
}

/// The line of so many rules that were announced.
///
/// # Errors
///
/// `Memory` where the machine refused memory.
pub(crate) fn sent_line(alloc: Global, count: usize) -> Result<Vec<u8>, Memory>
    ensures { IfOk result (λ text. text.items ≡ sent_line count) }
{
    let mut text = Vec::new(alloc);
    append(b"sent ", &mut text)?;
    append_decimal(count, &mut text)?;
    append(b"\n", &mut text)?;
    Ok(text)
}
