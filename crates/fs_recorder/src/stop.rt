//! Why recording ends.

ghost use Rattle.std.specs.Prelude.{◌≡◌};

use fs_base::{Failed, Memory};
use std::alloc::AllocError;

/// Why recording ends.
#[derive(Clone, Copy, Debug, PartialEq, Eq, Drop)]
pub enum Stop {
    /// The sink or the gate failed.
    Failed,
    /// The machine refused memory.
    Memory,
    /// The next record would make the tape as long as the limit.
    Limit,
}

impl From<Failed> for Stop {
    ghost use Rattle.fs_recorder.specs.declared.stop.Stop.TheVariants as stop;

    ghost from_gives = { λ e r. r ≡ stop.Failed };

    fn from(_error: Failed) -> Stop {
        Stop::Failed
    }
}

impl From<Memory> for Stop {
    ghost use Rattle.fs_recorder.specs.declared.stop.Stop.TheVariants as stop;

    ghost from_gives = { λ e r. r ≡ stop.Memory };

    fn from(_error: Memory) -> Stop {
        Stop::Memory
    }
}

impl From<AllocError> for Stop {
    ghost use Rattle.fs_recorder.specs.declared.stop.Stop.TheVariants as stop;

    ghost from_gives = { λ e r. r ≡ stop.Memory };

    fn from(_error: AllocError) -> Stop {
        Stop::Memory
    }
}
