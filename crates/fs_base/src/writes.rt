//! Writing a whole piece.

ghost use Rattle.std.specs.Prelude.{◌≡◌, IsOk, OnOk, OnErr, length};
ghost use Rattle.fs_base.specs.{Outside.{HasCause}, Sink.{Grew, GrewPart}};

use crate::{Failed, Sink};

/// Writes the whole of `piece`. An empty piece leaves the sink untouched.
///
/// # Errors
///
/// `Failed` where a write failed; a front of `piece` was written then.
pub fn write_all<S: Sink>(sink: &mut S, piece: &[u8]) -> Result<(), Failed>
    ensures cause { HasCause (S.faults sink.old) (S.faults sink.new) result }
    ensures ok { OnOk result (Grew (S.written sink.old) (S.written sink.new) piece.now) }
    ensures idle { length piece.now ≡ 0 → (IsOk result) × (sink.new ≡ sink.old) }
    ensures err { OnErr result (GrewPart (S.written sink.old) (S.written sink.new) piece.now) }
{
    let mut rest = piece;
    while !rest.is_empty() {
        let count = sink.write(rest)?;
        rest = &rest[count..];
    }
    Ok(())
}
