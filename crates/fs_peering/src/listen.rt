//! A receiving end over a wire.

ghost use Rattle.std.specs.{Prelude.{◌≡◌, ◌≤◌, if◌then◌else◌, false, IfOk, []}, Result.{IsErrOf}};
ghost use Rattle.fs_base.specs.Outside.{Rose};
ghost use Rattle.fs_desk.specs.Desk.{standing_at_desk};
ghost use Rattle.fs_peering.specs.{Hearer.{Receives, is_ended}, Listen.{EndsHearing, ListensOver, is_settled}};
ghost use Rattle.fs_speaker.specs.declared.Closed.{Closed};

use crate::buffers::Buffers;
use crate::fault::TalkFault;
use crate::hearer::{Hearer, is_settled};
use crate::listening::{Stopped, hear_out};
use crate::tell::Ending;
use fs_base::{Clock, Wire};
use fs_speaker::Standing;

/// Receives through end 0 of the wire, which is open, and answers what comes, until the session closes, `limit` octets
/// came or the stream ends.
///
/// # Errors
///
/// `Failed` where the wire failed; `Memory` where the machine refused memory.
pub fn listen_over<W: Wire, C: Clock>(
    wire: &mut W,
    clock: &mut C,
    hearer: &mut Hearer<'_>,
    limit: u64,
    buffers: &mut Buffers,
) -> Result<Ending, TalkFault>
    requires some { 1 ≤ limit }
    requires fresh { Receives hearer.old.desk hearer.old.peer hearer.old.count [] [] }
    requires open { is_ended (standing_at_desk hearer.old.desk hearer.old.peer) ≡ false }
    ensures later { W.faults wire.old ≤ W.faults wire.new }
    ensures failed { IsErrOf result TalkFault.Failed → Rose (W.faults wire.old) (W.faults wire.new) }
    ensures listens { IfOk result (λ ending.
        ListensOver ending hearer.old.desk.config hearer.new.desk hearer.old.peer limit
        (W.tells wire.old) (W.tells wire.new) (C.answers clock.old) (C.answers clock.new)) }
{
    let heard = hear_out(wire, clock, 0, hearer, limit, buffers)?;
    Ok(ending_of(heard, hearer.standing()))
}

/// How the session ended of which no more is heard.
fn ending_of(heard: Stopped, standing: Standing) -> Ending
    ensures { EndsHearing heard standing result }
{
    match heard {
        Stopped::Over => closing_of(standing),
        Stopped::AtLimit => Ending::AtLimit,
        Stopped::All => end_of(standing),
    }
}

/// How a session has closed.
pub(crate) fn closing_of(standing: Standing) -> Ending
    ensures { (why : Closed) → standing ≡ Standing.Ended why → result ≡ Ending.Closed why }
{
    match standing {
        Standing::Ended(why) => Ending::Closed(why),
        Standing::Live(_) | Standing::Down => Ending::Ended,
    }
}

/// How a stream ended.
fn end_of(standing: Standing) -> Ending
    ensures { result ≡ (if is_settled standing then Ending.Done else Ending.Ended) }
{
    if is_settled(standing) {
        Ending::Done
    } else {
        Ending::Ended
    }
}
