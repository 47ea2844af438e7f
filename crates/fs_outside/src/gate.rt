//! Many connections at once, and a file that changes, as a trait.

ghost use Rattle.std.specs.Prelude.{◌≡◌, ◌<◌, ◌∷◌, [], ℕ, List, Option, IfOk, length};
ghost use Rattle.fs_outside.specs.{Gate.{FitsIn, HandsOver, IsCounted, Rereads, Tells, Turn, dialled, said, shut}, Outside.{HasCause}, Sink.{Grew}};

use crate::{Address, Failed, Memory};

/// What came at a gate. A line is the number of a connection: it is never that of another one.
#[derive(Clone, Copy, Debug, PartialEq, Eq, Drop)]
pub enum Came {
    /// A connection from this address was taken.
    Taken { line: u64, from: Address },
    /// A connection that was dialled is made.
    Made { line: u64 },
    /// A connection gave so many octets, at least one: they stand at the front of the buffer.
    Octets { line: u64, count: usize },
    /// A connection has ended, or one that was dialled could not be made.
    Ended { line: u64 },
    /// Nothing came, for as long as the gate waits.
    Nothing,
}

/// What came, and when: at so many nanoseconds from 1970 by the clock on the wall, which may be set back, and at so many
/// milliseconds of a steady clock, from a start of its own.
#[derive(Clone, Copy, Debug, PartialEq, Eq, Drop)]
pub struct Event {
    pub moment: u64,
    pub time: u64,
    pub came: Came,
}

/// What a reading of a file found.
#[derive(Clone, Copy, Debug, PartialEq, Eq, Drop)]
pub enum Found {
    /// All of it, fewer octets than the limit.
    Whole,
    /// No file has that name.
    Absent,
    /// It could not be read, which is counted as a fault.
    Failed,
    /// It has at least as many octets as the limit.
    TooLong,
}

/// What a reading of a file found, and when, by both clocks of an `Event`.
#[derive(Clone, Copy, Debug, PartialEq, Eq, Drop)]
pub struct Reading {
    pub moment: u64,
    pub time: u64,
    pub found: Found,
}

/// Connections that others make, and that are made to others, told by events; and a file that may change, read whole again
/// and again. No call waits longer than about a quarter of a second.
pub trait Gate {
    /// What came, what was read and what was asked so far, in order, where the gate tells it.
    ghost turns: { Self → Option (List Turn) };

    /// The faults so far, at most 2^64 - 1.
    ghost faults: { Self → ℕ };

    /// Takes connections at `address` from now on.
    ///
    /// # Errors
    ///
    /// `Failed` where the outside failed, which is counted; an address that can't be read is such a fault.
    fn open(&mut self, address: &str) -> Result<(), Failed>
        ensures cause { HasCause (faults self.old) (faults self.new) result }
        ensures opened { Grew (turns self.old) (turns self.new) [] };

    /// Begins a connection to `address`, and answers its line. Whether it is made comes as an event: `Made`, or `Ended`
    /// where it can't be.
    fn dial(&mut self, address: &str) -> u64
        ensures faults { faults self.new ≡ faults self.old }
        ensures dialled { Grew (turns self.old) (turns self.new) (dialled result address.now ∷ []) };

    /// The next event. Octets come into the front of `into`.
    ///
    /// # Errors
    ///
    /// `Failed` where the outside failed, which is counted; nothing came then.
    fn next(&mut self, into: &mut [u8]) -> Result<Event, Failed>
        requires { 0 < length into.old }
        ensures cause { HasCause (faults self.old) (faults self.new) result }
        ensures bound { IfOk result (λ event. FitsIn event.came into.new) }
        ensures told { Tells result into.new (turns self.old) (turns self.new) };

    /// Reads the file `name` whole, where it has fewer octets than `limit`: they are all of `into` then, which is empty
    /// in each other case.
    ///
    /// # Errors
    ///
    /// `Memory` where the machine refused memory for the octets; nothing is told then.
    fn reread(&mut self, name: &str, limit: u64, into: &mut Vec<u8>) -> Result<Reading, Memory>
        ensures cause { IsCounted (faults self.old) (faults self.new) result }
        ensures bound { HandsOver result limit into.new.items }
        ensures read { Rereads result name.now into.new.items (turns self.old) (turns self.new) };

    /// Sends octets through a connection. It never waits: what can't leave at once leaves later, and where that comes to
    /// nothing `Ended` tells it. A line that has ended or was closed takes nothing.
    fn send(&mut self, line: u64, piece: &[u8])
        ensures faults { faults self.new ≡ faults self.old }
        ensures sent { Grew (turns self.old) (turns self.new) (said line piece.now ∷ []) };

    /// Closes a connection: what was sent still leaves, and no event tells of it any more.
    fn close(&mut self, line: u64)
        ensures faults { faults self.new ≡ faults self.old }
        ensures closed { Grew (turns self.old) (turns self.new) (shut line ∷ []) };
}
