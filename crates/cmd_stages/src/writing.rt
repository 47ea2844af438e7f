//! Texts that leave in one piece.

ghost use Rattle.std.specs.Prelude.{◌≡◌, ◌≢◌, ◌≤◌, ℕ, IfOk, IsOk, List, length};
ghost use Rattle.fs_base.specs.Outside.{Rose};
ghost use Rattle.cmd_stages.specs.{Refusal.{IsLate, answered}, Writing.{Writes}};

use crate::refusal::Refusal;
use fs_base::{Memory, Sink, write_all};

/// Writes a text in one piece. An empty one leaves the sink untouched.
///
/// # Errors
///
/// `Outside` where the sink failed, and then a front of the text is written.
pub fn write_text<S: Sink>(text: &[u8], sink: &mut S) -> Result<(), Refusal>
    ensures late { IsLate (answered result) }
    ensures known { answered result ≢ 6 }
    ensures idle { length text.now ≡ 0 → IsOk result × (sink.new ≡ sink.old) }
    ensures later { S.faults sink.old ≤ S.faults sink.new }
    ensures written { Writes text.now
        (Rose (S.faults sink.old) (S.faults sink.new)) (S.written sink.old) (S.written sink.new) result }
{
    write_all(sink, text)?;
    Ok(())
}

/// Writes a text that was made, in one piece.
///
/// # Errors
///
/// `Memory` where it couldn't be made, and then nothing is written; else as of [`write_text`].
pub fn write_made<S: Sink>(text: Result<Vec<u8>, Memory>, sink: &mut S) -> Result<(), Refusal>
    ensures late { IsLate (answered result) }
    ensures unwritten { answered result ≡ 6 → sink.new ≡ sink.old }
    ensures later { S.faults sink.old ≤ S.faults sink.new }
    ensures written { (said : List ℕ)
        → IfOk text (λ octets. octets.items ≡ said)
        → Writes said (Rose (S.faults sink.old) (S.faults sink.new)) (S.written sink.old) (S.written sink.new) result }
{
    match text {
        Ok(text) => write_text(&text, sink),
        Err(Memory) => Err(Refusal::Memory),
    }
}
