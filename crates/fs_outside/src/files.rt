//! The files of the outside, as a trait.

ghost use Rattle.std.specs.{Prelude.{◌≡◌, ◌≢◌, ◌↔◌, ◌≤◌, ℕ, Bool, List, Option, IsTrue, IsSome, IfOk}, Io.{ReadsAtMost}};
ghost use Rattle.fs_outside.specs.{Files.{OnlySlot, Opened, ReadTakes, one_opening, opened_content}, Outside.{HasCause}, Sink.{Grew}};

/// A call on the outside failed. It took and gave nothing where the content is known, and the fault is counted.
#[derive(Clone, Copy, Debug, PartialEq, Eq, Drop)]
pub struct Failed;

/// Files that are opened by name in one of the slots 0 to 2 and read from their front.
///
/// No call changes what a name holds, and a call on one slot leaves the others alone. A slot that was never
/// opened, or whose last opening found nothing or failed, is at its end.
pub trait Files {
    /// Whether this type says what its files hold: memory does, a real file system doesn't.
    ghost tells: { Bool };

    /// What a name holds.
    ghost holds: { Self → List ℕ → Option (List ℕ) };

    /// What a slot has left to be read.
    ghost left: { Self → ℕ → List ℕ };

    /// The openings so far, in order, whatever they answered, where the files tell them.
    ghost opened: { Self → Option (List Opened) };

    /// The faults so far, at most 2^64 - 1.
    ghost faults: { Self → ℕ };

    /// Opens the file `name` in `slot`, at its front. `false`: no file has that name.
    ///
    /// # Errors
    ///
    /// `Failed` where the outside failed, which is counted.
    fn open_file(&mut self, slot: u8, name: &str) -> Result<bool, Failed>
        requires { slot ≤ 2 }
        ensures cause { HasCause (faults self.old) (faults self.new) result }
        ensures answered { IfOk result (λ _. faults self.new ≡ faults self.old) }
        ensures found { IsTrue tells → IfOk result (λ found. IsTrue found ↔ IsSome (holds self.old name.now)) }
        ensures left { IsTrue tells → left self.new slot ≡ opened_content result (holds self.old name.now) }
        ensures opened { Grew (opened self.old) (opened self.new) (one_opening slot name.now) }
        ensures others { OnlySlot tells left holds slot self.old self.new };

    /// Reads octets of `slot` into the front of `into` and answers how many: 0 only at the end of the input or
    /// where `into` has no room.
    ///
    /// # Errors
    ///
    /// `Failed` where the outside failed, which is counted; nothing was taken then.
    fn read(&mut self, slot: u8, into: &mut [u8]) -> Result<usize, Failed>
        requires { slot ≤ 2 }
        ensures bound { ReadsAtMost result into.new }
        ensures cause { HasCause (faults self.old) (faults self.new) result }
        ensures left { IsTrue tells → ReadTakes (left self.old slot) (left self.new slot) result into.new }
        ensures opened { opened self.new ≡ opened self.old }
        ensures others { OnlySlot tells left holds slot self.old self.new };

    /// Whether a read of `slot` may wait for octets that are still to come, as one of a pipe or of a terminal may; one of a
    /// file of the system doesn't. No clause says of which: it decides only when lines leave.
    #[inline(always)]
    fn waits(&self, slot: u8) -> bool
        requires { slot ≤ 2 }
    {
        true
    }

    /// What `slot` gives without a call to the outside: octets that `read` would give next, or none where that isn't
    /// known. No clause says which: it decides only when lines leave.
    #[inline(always)]
    fn at_hand(&self, slot: u8) -> &[u8]
        requires { slot ≤ 2 }
    {
        &[]
    }
}
