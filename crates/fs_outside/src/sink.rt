//! Where lines go, as a trait.

ghost use Rattle.std.specs.Prelude.{◌<◌, ◌≤◌, ℕ, List, Option, IfOk, length};
ghost use Rattle.fs_outside.specs.{Outside.{HasCause}, Sink.{WriteGrew}};

use crate::Failed;

/// Where the program's lines go.
pub trait Sink {
    /// What was written, where the sink tells it.
    ghost written: { Self → Option (List ℕ) };

    /// The faults so far, at most 2^64 - 1.
    ghost faults: { Self → ℕ };

    /// Takes octets from the front of `piece` and answers how many: at least one, where `piece` isn't empty.
    ///
    /// # Errors
    ///
    /// `Failed` where the outside failed, which is counted; nothing was taken then.
    fn write(&mut self, piece: &[u8]) -> Result<usize, Failed>
        ensures cause { HasCause (faults self.old) (faults self.new) result }
        ensures bound { IfOk result (λ n. n ≤ length piece.now) }
        ensures taken { 0 < length piece.now → IfOk result (λ n. 0 < n) }
        ensures written { WriteGrew (written self.old) (written self.new) result piece.now };
}
