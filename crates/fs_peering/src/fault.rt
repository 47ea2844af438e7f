//! Why a loop gave up.

ghost use Rattle.std.specs.Prelude.{◌≡◌};

use fs_base::{Failed, Memory};

/// Why a loop over a wire gave up.
#[derive(Clone, Copy, Debug, PartialEq, Eq, Drop)]
pub enum TalkFault {
    /// The wire failed.
    Failed,
    /// The machine refused memory.
    Memory,
}

impl From<Failed> for TalkFault {
    ghost use Rattle.fs_peering.specs.declared.fault.TalkFault.TheVariants as fault;

    ghost from_gives = { λ e r. r ≡ fault.Failed };

    fn from(_error: Failed) -> TalkFault {
        TalkFault::Failed
    }
}

impl From<Memory> for TalkFault {
    ghost use Rattle.fs_peering.specs.declared.fault.TalkFault.TheVariants as fault;

    ghost from_gives = { λ e r. r ≡ fault.Memory };

    fn from(_error: Memory) -> TalkFault {
        TalkFault::Memory
    }
}
