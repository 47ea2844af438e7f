//! Why octets aren't the front of an operator list.

ghost use Rattle.std.specs.Prelude.{◌≡◌};
ghost use Rattle.fs_ops.specs.declared.fault.OpsFault.TheVariants.{Memory as OutOfMemory};

use fs_base::Memory;

/// Why octets aren't the front of a list. A place counts octets from the list's first one, from 0.
#[derive(Clone, Copy, Debug, PartialEq, Eq, Drop)]
pub enum OpsFault {
    /// The octets end within a list; the place is their number.
    Cut { place: usize },
    /// The operator at the place gives its value a length that isn't allowed.
    Width { place: usize },
    /// The machine refused memory.
    Memory,
}

/// What a reader of lists answers.
pub(crate) type Answer<T> = Result<T, OpsFault>;

impl<E: Into<Memory> + Drop> From<E> for OpsFault {
    ghost from_gives = { λ e fault. fault ≡ OutOfMemory };

    fn from(_error: E) -> OpsFault {
        OpsFault::Memory
    }
}
