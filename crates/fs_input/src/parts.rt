//! The parts of a format, each a chain of fields.

use crate::fault::Fault;
use fs_base::{Counted, Files};

/// The octets with which the parts of a format begin, at most.
pub const MOST_FIRST: usize = 16;

/// The parts of a format, where an input of it stands: all that the reading of the next part depends on, beside the
/// octets and what is given from outside.
pub trait Parts {
    ghost use Rattle.std.specs.{Prelude.{ℕ, List, Option, None, ◌≡◌, ◌≤◌, ◌<◌, ◌-◌, [], IfOk, length}, Option.{option_map}};
    ghost use Rattle.fs_input.specs.{Coming.{Takes, part_in}, Reading.{answer_told}, Reads.{Scans}, Scan.{Scanner}};

    /// What is given from outside.
    type Given;

    /// What the call tells of a part.
    type Told: Drop;

    /// What may be wrong with an input.
    type Reason: Copy + Drop;

    /// A part that tells something, as the format's definition has it.
    ghost Part: { Type 0 };

    /// With how many octets a part begins.
    ghost first: { ℕ };

    /// The chain of fields behind these octets, of a part that begins at this place.
    ghost behind: { Self.Given → Self → ℕ → List ℕ → Scanner (Option Part × Self) Self.Reason };

    /// The fault of an input that ends within a part.
    ghost cut: { Self.Reason };

    /// The part of which this was told, with what stands in the buffer.
    ghost part_of: { List ℕ → Self.Told → Part };

    /// At most so many octets of a part stand in the buffer.
    ghost most: { ℕ };

    /// That what was read led from one state to another and told this, or nothing.
    ghost Moves: { Self → Self → Option Self.Told → Type 0 };

    /// With how many octets a part begins: at least as many as may be put back, at most `MOST_FIRST`.
    fn first_size(&self, given: &Self::Given) -> usize
        ensures exact { result ≡ first }
        ensures few { result ≤ 16 }
        ensures some { 4 ≤ result }
        ensures takes { (state : Self) → Takes 1 (part_in first (behind given.now) state) };

    /// The fault of an input that ends within a part.
    fn cut(&self) -> Self::Reason
        ensures { result ≡ cut };

    /// Reads a part behind the octets with which it begins, `front`: what it tells, if anything. Octets that it tells
    /// stand in `into`.
    ///
    /// # Errors
    ///
    /// `Bad` with the first field that stands whole and is wrong, or with the format's cut where the input ends within
    /// the part; `Limit` where the limit is reached and no field before it is wrong; `Read` where the files failed.
    fn take_behind<F: Files>(
        &mut self,
        given: &Self::Given,
        front: &[u8],
        counted: &mut Counted,
        files: &mut F,
        into: &mut [u8],
    ) -> Result<Option<Self::Told>, Fault<Self::Reason>>
        requires front { length front.now ≡ first }
        requires place { first ≤ counted.old.taken }
        requires room { most ≤ length into.old }
        requires none { counted.old.back ≡ [] }
        ensures none { counted.new.back ≡ [] }
        ensures room { length into.new ≡ length into.old }
        ensures grows { IfOk result (λ _. counted.old.taken - first < counted.new.taken) }
        ensures moves { Moves self.old self.new (answer_told result) }
        ensures reads { Scans F.Files files.old files.new
            (behind given.now self.old (counted.old.taken - first) front.now) cut counted.old counted.new
            (λ told. (option_map (part_of into.new) told, self.new)) result };

    /// Where nothing was read, the state stays.
    ghost stays: { (state : Self) → Moves state state None };

    /// Behind parts that told nothing, what the next one tells is told of all.
    ghost joins: { (first middle last : Self) (told : Option Self.Told)
        → Moves first middle None → Moves middle last told → Moves first last told };
}
