//! An end that hears octets and says octets, as a trait.

ghost use Rattle.std.specs.Prelude.{◌≡◌, ◌≤◌, ◌<◌, ◌+◌, ℕ, List, Bool, false, length, IsTrue, IfOk, OnOk};
ghost use Rattle.fs_peering.specs.Round.{Hears, Pieces, Says};

use fs_base::Memory;

/// An end of a session, for the loops over a wire.
pub trait Speaker {
    /// That the end stands where hearing these pieces at their moments, and having said these octets, leaves it.
    ghost stands: { Self → Pieces → List ℕ → Type 0 };

    /// Whether it hears no more: it has closed, or needs to hear no more.
    ghost over: { Self → Bool };

    /// Whether it has closed.
    ghost shut: { Self → Bool };

    /// Whether it says what it has to say without hearing more.
    ghost ready: { Self → Bool };

    /// The octets that it heard, up to where it was ready.
    ghost count: { Self → ℕ };

    /// At most so many messages it has still to say unasked.
    ghost ahead: { Self → ℕ };

    /// Whether it has said what it says before it hears anything.
    ghost begun: { Self → Bool };

    /// How many messages it has said that it says once it is ready.
    ghost sent: { Self → ℕ };

    /// The end without what it heard and said: whose it is, and what it is to say. That stays.
    ghost own: { Self → Self };

    /// Hears a piece at a moment, and appends what it says to it.
    ///
    /// # Errors
    ///
    /// `Memory` where the machine refused memory.
    fn hear(&mut self, moment: u64, piece: &[u8], out: &mut Vec<u8>) -> Result<(), Memory>
        requires { over self.old ≡ false }
        ensures hears { OnOk result
            (Hears (stands self.old) (stands self.new) moment piece.now out.old.items out.new.items) }
        ensures ready { IsTrue (ready self.old) → OnOk result (IsTrue (ready self.new)) }
        ensures count { OnOk result (ready self.new ≡ false → count self.new ≡ count self.old + length piece.now) }
        ensures bound { OnOk result (count self.new ≤ count self.old + length piece.now) }
        ensures ahead { ahead self.new ≤ ahead self.old }
        ensures sent { OnOk result (sent self.new ≡ sent self.old) }
        ensures own { OnOk result (own self.new ≡ own self.old) };

    /// Appends the next message that it says unasked, and answers whether there was one.
    ///
    /// # Errors
    ///
    /// `Memory` where the machine refused memory.
    fn next(&mut self, out: &mut Vec<u8>) -> Result<bool, Memory>
        ensures says { OnOk result (Says (stands self.old) (stands self.new) out.old.items out.new.items) }
        ensures fewer { IfOk result (λ had. IsTrue had → ahead self.new < ahead self.old) }
        ensures silent { IfOk result (λ had. had ≡ false → out.new.items ≡ out.old.items) }
        ensures all { IfOk result (λ had. had ≡ false → IsTrue (ready self.old) → ahead self.new ≡ 0) }
        ensures begun { IfOk result (λ had. had ≡ false → over self.old ≡ false → IsTrue (begun self.new)) }
        ensures over { OnOk result (over self.new ≡ over self.old) }
        ensures shut { OnOk result (shut self.new ≡ shut self.old) }
        ensures ready { OnOk result (ready self.new ≡ ready self.old) }
        ensures count { OnOk result (count self.new ≡ count self.old) }
        ensures own { OnOk result (own self.new ≡ own self.old) };

    /// Whether it hears no more.
    fn is_over(&self) -> bool
        ensures { result ≡ over self.now };

    /// Whether it says what it has to say without hearing more.
    fn is_ready(&self) -> bool
        ensures { result ≡ ready self.now };

    /// How many octets it heard, up to where it was ready.
    fn count(&self) -> u64
        ensures { result ≡ count self.now };
}
