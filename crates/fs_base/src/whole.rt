//! Reading a file whole.

ghost use Rattle.std.specs.{Prelude.{◌≡◌, ◌≢◌, ◌≤◌, ℕ, IsTrue, IfOk}, Result.{IsErrOf}};
ghost use Rattle.fs_base.specs.{Draws.{PassedWithin}, Whole.{IsWhole}, Files.{OnlySlot}, Outside.{Rose}};

use super::{Counted, Files, Stop};
use std::alloc::{AllocError, Global};

/// What a slot had left.
#[derive(Debug, Drop)]
pub enum Whole {
    /// All of it, fewer octets than the limit.
    Content(Vec<u8>),
    /// It has at least as many octets as the limit.
    AtLimit,
}

/// Why a slot could not be read to its end.
#[derive(Clone, Copy, Debug, PartialEq, Eq, Drop)]
pub enum ReadStop {
    /// The files failed.
    Failed,
    /// The machine refused memory.
    Memory,
}

impl From<AllocError> for ReadStop {
    ghost use Rattle.std.specs.Prelude.{◌≡◌};
    ghost use Rattle.fs_base.specs.declared.whole.ReadStop.TheVariants.{Memory};

    ghost from_gives = { λ e r. r ≡ Memory };

    fn from(_error: AllocError) -> ReadStop {
        ReadStop::Memory
    }
}

/// Reads what `slot` has left, up to `limit` octets.
///
/// # Errors
///
/// `Failed` where the files failed; `Memory` where the machine refused memory.
pub fn read_whole<F: Files>(
    alloc: Global,
    files: &mut F,
    slot: u8,
    limit: u64,
) -> Result<Whole, ReadStop>
    requires { slot ≤ 2 }
    ensures failed { IsErrOf result ReadStop.Failed → Rose (F.faults files.old) (F.faults files.new) }
    ensures later { F.faults files.old ≤ F.faults files.new }
    ensures content { IsTrue F.tells → IfOk result (IsWhole limit (F.left files.old slot)) }
    ensures took { IsTrue F.tells → PassedWithin limit (F.left files.old slot) (F.left files.new slot) }
    ensures opened { F.opened files.new ≡ F.opened files.old }
    ensures others { OnlySlot F.tells F.left F.holds slot files.old files.new }
{
    let mut counted = Counted::new(slot, limit);
    let mut octets = Vec::new(alloc);
    let mut buffer = [0u8; 4096];
    loop {
        match counted.read(files, &mut buffer) {
            Ok(0) => return Ok(Whole::Content(octets)),
            Ok(count) => octets.extend_from_slice(&buffer[..count])?,
            Err(Stop::Limit) => return Ok(Whole::AtLimit),
            Err(Stop::Failed) => return Err(ReadStop::Failed),
        }
    }
}
