//! The heads of records.

/// The octets of the longest head.
pub const MOST_HEAD: usize = 16;

/// What the octets of a record's head say.
#[derive(Clone, Copy, Debug, PartialEq, Eq, Drop)]
pub enum Head<A, R> {
    /// All of it, and the payload's size in octets.
    Whole { said: A, size: usize },
    /// The first field that stands whole and is wrong, and its place in the head.
    Wrong { reason: R, offset: u8 },
    /// They are too few, and no field in them is wrong.
    Partial,
}

/// A record: what its head says, and its payload's size. The payload stands at the front of the buffer that was handed
/// in.
#[derive(Clone, Copy, Debug, PartialEq, Eq, Drop)]
pub struct Found<A> {
    pub said: A,
    pub size: usize,
}

/// The heads of a format, where an input of it stands.
pub trait Heads {
    ghost use Rattle.std.specs.Prelude.{ℕ, ◌≡◌, ◌≤◌, ◌<◌, length, List};
    ghost use Rattle.fs_input.specs.{NextRecord.{IsHeadWithin, IsKnown}, Records.{Format}};

    /// What a head says beside the payload's size.
    type Said: Copy + Drop;

    /// What may be wrong with an input.
    type Reason: Copy + Drop;

    ghost Item: { Type 0 };

    ghost format: { Format Self Self.Said Item Self.Reason };

    ghost most: { ℕ };

    ghost Known: { Self → Self.Said → Type 0 };

    /// How many octets the next head has.
    fn head_size(&self) -> usize
        ensures exact { result ≡ format.head_size self.now }
        ensures room { result ≤ 16 };

    /// Reads a head, of at most so many octets.
    fn read_head(&self, octets: &[u8]) -> Head<Self::Said, Self::Reason>
        ensures exact { result ≡ format.head_of self.now octets.now }
        ensures within { IsHeadWithin (format.head_size self.now) most (length octets.now) result }
        ensures known { IsKnown (Known self.now) result };

    /// The fault of an input that ends within a record.
    fn cut(&self) -> Self::Reason
        ensures { result ≡ format.cut };

    ghost some: { (state : Self) → 0 < format.head_size state };
}
