//! The closing of an end of the wire.

ghost use Rattle.std.specs.Prelude.{◌≡◌, ◌≤◌, ◌<◌, ◌⊎◌, IfErr, IsErr, IsOk, OnOk};
ghost use Rattle.fs_base.specs.{Outside.{Rose}, Wire.{EndCloses, Told}};
ghost use Rattle.cmd_stages.specs.declared.refusal.Refusal.TheVariants.{Outside};
ghost use Rattle.cmd_wire.specs.Announcing.{IsBrokenOff};

use cmd_stages::Refusal;
use fs_base::{Failed, Wire};

/// Closes an end of the wire through which so many rules were announced.
///
/// # Errors
///
/// `Outside` where rules were announced and the wire failed.
pub(crate) fn close_end<W: Wire>(wire: &mut W, end: u8, announced: usize) -> Result<(), Refusal>
    requires { end ≤ 1 }
    ensures later { W.faults wire.old ≤ W.faults wire.new }
    ensures broken { IfErr result (IsBrokenOff (Rose (W.faults wire.old) (W.faults wire.new))) }
    ensures unannounced { announced ≡ 0 → IsOk result }
    ensures closes { Told EndCloses (W.tells wire.old) (W.tells wire.new) }
{
    judge_closing(wire.close(end), announced)
}

/// What a closing leaves of an end through which so many rules were announced. One that failed may have lost octets: of
/// rules that is a fault. All else that an end writes opens the session or answers what it has read, and is of no more use
/// once its peer has gone.
fn judge_closing(closed: Result<(), Failed>, announced: usize) -> Result<(), Refusal>
    ensures lost { IfErr result (λ refusal. (refusal ≡ Outside) × ((0 < announced) × IsErr closed)) }
    ensures kept { OnOk result ((announced ≡ 0) ⊎ IsOk closed) }
{
    match closed {
        Err(_) if 0 < announced => Err(Refusal::Outside),
        _ => Ok(()),
    }
}
