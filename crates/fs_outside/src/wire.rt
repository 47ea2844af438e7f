//! A wire with two ends, as a trait.

ghost use Rattle.std.specs.{Prelude.{◌<◌, ◌≤◌, ℕ, Option, IfOk, length}, Io.{ReadsAtMost}};
ghost use Rattle.fs_outside.specs.{Outside.{HasCause}, Wire.{WireEnds, Told, EndOpens, EndReads, EndWrites, EndCloses}};

use crate::Failed;

/// How an end of a wire is opened.
#[derive(Clone, Copy, Debug, PartialEq, Eq, Drop)]
pub enum Opening<'a> {
    /// End 0 listens at an address and takes one connection.
    Listen(&'a str),
    /// End 1 connects to an address.
    Dial(&'a str),
    /// Ends 0 and 1 are joined to each other.
    Both,
}

/// Two ends, 0 and 1, of byte streams. A call on one end leaves the other alone, except that a write to one of
/// two joined ends adds to what the other has left to read.
pub trait Wire {
    /// What the wire tells of its ends, where it does.
    ghost tells: { Self → Option WireEnds };

    /// The faults so far, at most 2^64 - 1.
    ghost faults: { Self → ℕ };

    /// Opens an end, or joins both.
    ///
    /// # Errors
    ///
    /// `Failed` where the outside failed, which is counted; an address that can't be read is such a fault.
    fn open_end(&mut self, how: Opening<'_>) -> Result<(), Failed>
        ensures cause { HasCause (faults self.old) (faults self.new) result }
        ensures opened { Told (EndOpens how.entry result) (tells self.old) (tells self.new) };

    /// Reads octets of `end` into the front of `into` and answers how many: 0 only at the end of the stream or
    /// where `into` has no room.
    ///
    /// # Errors
    ///
    /// `Failed` where the outside failed, which is counted; nothing was taken then.
    fn read(&mut self, end: u8, into: &mut [u8]) -> Result<usize, Failed>
        requires { end ≤ 1 }
        ensures bound { ReadsAtMost result into.new }
        ensures cause { HasCause (faults self.old) (faults self.new) result }
        ensures reads { Told (EndReads end result into.new) (tells self.old) (tells self.new) };

    /// Takes octets from the front of `piece` into `end` and answers how many: at least one, where `piece` isn't
    /// empty.
    ///
    /// # Errors
    ///
    /// `Failed` where the outside failed, which is counted; nothing was taken then.
    fn write(&mut self, end: u8, piece: &[u8]) -> Result<usize, Failed>
        requires { end ≤ 1 }
        ensures cause { HasCause (faults self.old) (faults self.new) result }
        ensures bound { IfOk result (λ n. n ≤ length piece.now) }
        ensures taken { 0 < length piece.now → IfOk result (λ n. 0 < n) }
        ensures writes { Told (EndWrites end result piece.now) (tells self.old) (tells self.new) };

    /// Closes `end` for writing. What was written through it and what it has left to be read stay.
    ///
    /// # Errors
    ///
    /// `Failed` where the outside failed, which is counted; octets that were written through `end` may be lost then.
    fn close(&mut self, end: u8) -> Result<(), Failed>
        requires { end ≤ 1 }
        ensures cause { HasCause (faults self.old) (faults self.new) result }
        ensures closes { Told EndCloses (tells self.old) (tells self.new) };
}
