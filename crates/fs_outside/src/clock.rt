//! A clock, as a trait.

ghost use Rattle.std.specs.Prelude.{◌∷◌, [], ℕ, List, Option};
ghost use Rattle.fs_outside.specs.Sink.{Grew};

/// A clock that answers moments in milliseconds, from a start of its own. A moment below an earlier one is allowed.
pub trait Clock {
    /// The moments that it answered so far, in order, where the clock tells them.
    ghost answers: { Self → Option (List ℕ) };

    /// The moment of this call.
    fn now(&mut self) -> u64
        ensures answered { Grew (answers self.old) (answers self.new) (result ∷ []) };
}
