//! Why a run ends before its job is done.

ghost use Rattle.std.specs.Prelude.{◌≡◌};

use crate::status;
use fs_base::{Failed, Memory};
use fs_tape::TapeReason;
use std::alloc::AllocError;

/// Why a run ends before its job is done.
#[derive(Clone, Copy, Debug, PartialEq, Eq, Drop)]
pub enum Refusal {
    /// A call on the outside failed, or a file that the words name isn't there.
    Outside,
    /// The configuration or the rules file isn't accepted.
    Rejected,
    /// The tape has a fault, at this place in it.
    Tape { reason: TapeReason, place: u64 },
    /// The capture has a fault.
    Capture,
    /// The dump has a fault.
    Dump,
    /// The machine refused memory.
    Memory,
    /// An input, or what an end of a wire gave, has at least as many octets as the limit allows.
    Limit,
    /// A session closed, or its octets ended before it was established.
    Session,
}

impl Refusal {
    ghost use Rattle.cmd_stages.specs.Refusal.{status_of};

    /// The status with which the process ends.
    pub fn status(self) -> u8
        ensures { result ≡ status_of self }
    {
        match self {
            Refusal::Outside => status::OUTSIDE,
            Refusal::Rejected => status::FILES,
            Refusal::Tape { .. } => status::TAPE,
            Refusal::Capture => status::CAPTURE,
            Refusal::Dump => status::DUMP,
            Refusal::Memory => status::MEMORY,
            Refusal::Limit => status::LIMIT,
            Refusal::Session => status::SESSION,
        }
    }
}

impl From<Memory> for Refusal {
    ghost use Rattle.cmd_stages.specs.declared.refusal.Refusal.TheVariants.{Memory};

    ghost from_gives = { λ e r. r ≡ Memory };

    fn from(_error: Memory) -> Refusal {
        Refusal::Memory
    }
}

impl From<AllocError> for Refusal {
    ghost use Rattle.cmd_stages.specs.declared.refusal.Refusal.TheVariants.{Memory};

    ghost from_gives = { λ e r. r ≡ Memory };

    fn from(_error: AllocError) -> Refusal {
        Refusal::Memory
    }
}

impl From<Failed> for Refusal {
    ghost use Rattle.cmd_stages.specs.declared.refusal.Refusal.TheVariants.{Outside};

    ghost from_gives = { λ e r. r ≡ Outside };

    fn from(_error: Failed) -> Refusal {
        Refusal::Outside
    }
}
