//! Want of memory.

use std::alloc::{AllocError, AllocFailed};

/// The machine refused memory. Nothing was changed by the call that answers it, unless the call says
/// otherwise.
#[derive(Clone, Copy, Debug, PartialEq, Eq, Drop)]
pub struct Memory;

impl From<AllocError> for Memory {
    ghost from_gives = { λ e r. Unit {0} };

    fn from(_error: AllocError) -> Memory {
        Memory
    }
}

impl<T: Drop> From<AllocFailed<T>> for Memory {
    ghost from_gives = { λ e r. Unit {0} };

    fn from(_error: AllocFailed<T>) -> Memory {
        Memory
    }
}
