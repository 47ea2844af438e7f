//! Both ends over a wire that joins them.

ghost use Rattle.std.specs.{Prelude.{◌≡◌, ◌≤◌, [], Some, false, true, IfOk}, Result.{IsErrOf}};
ghost use Rattle.fs_base.specs.{Config.{peer_of}, Outside.{Rose}, declared.config.{Config.{Config}, Peer.{Peer}}};
ghost use Rattle.fs_desk.specs.Desk.{standing_at_desk};
ghost use Rattle.fs_peering.specs.{Tell.{begins_with}, Hearer.{Receives, is_ended}, Pair.{EndsTalk, PairsOver}, Teller.{is_over}};
ghost use Rattle.fs_speaker.specs.declared.Sending.{Sending};

use crate::buffers::Buffers;
use crate::fault::TalkFault;
use crate::hearer::Hearer;
use crate::joined::{Talk, exchange};
use crate::listen::closing_of;
use crate::speaker::Speaker;
use crate::tell::Ending;
use crate::teller::Teller;
use fs_base::{Clock, Wire};
use fs_speaker::Closed;

/// Joins the receiving end at end 0 of the wire and the announcing one at end 1, which are open and joined: alternately
/// each hears what the other said, and the announcing end says its rules once it is established. Where nothing hinders
/// the rules (they can arrive, no hold time can have passed, no limit is met), all of them arrive and the answer is
/// `Done`.
///
/// # Errors
///
/// `Failed` where the wire failed; `Memory` where the machine refused memory.
pub fn pair_over<W: Wire, C: Clock>(
    wire: &mut W,
    clock: &mut C,
    hearer: &mut Hearer<'_>,
    teller: &mut Teller<'_>,
    limit: u64,
    buffers: &mut Buffers,
) -> Result<Ending, TalkFault>
    requires some { 1 ≤ limit }
    requires fresh { Receives hearer.old.desk hearer.old.peer hearer.old.count [] [] }
    requires open { is_ended (standing_at_desk hearer.old.desk hearer.old.peer) ≡ false }
    requires unheard { teller.old.count ≡ 0 }
    requires on { teller.old.hears_on ≡ true }
    requires other { is_over teller.old.hears_on teller.old.announcer.line ≡ false }
    ensures later { W.faults wire.old ≤ W.faults wire.new }
    ensures failed { IsErrOf result TalkFault.Failed → Rose (W.faults wire.old) (W.faults wire.new) }
    ensures pairs { IfOk result (λ ending. (config : Config) (whose : Peer) (sending : Sending)
        → hearer.old.desk.config ≡ config → peer_of hearer.old.peer config.peers ≡ Some whose
        → teller.old.announcer ≡ begins_with config whose sending → teller.old.started ≡ false
        → PairsOver ending config whose sending hearer.new.desk hearer.old.peer limit
        (W.tells wire.old) (W.tells wire.new) (C.answers clock.old) (C.answers clock.new)) }
{
    let talk = exchange(wire, clock, hearer, teller, limit, buffers)?;
    Ok(ending_of(talk, hearer, teller))
}

/// How the session ended of which no more is heard.
fn ending_of(talk: Talk, hearer: &Hearer<'_>, teller: &Teller<'_>) -> Ending
    ensures { EndsTalk talk (standing_at_desk hearer.now.desk hearer.now.peer) teller.now.announcer.line result }
{
    match talk {
        Talk::Done => {
            if teller.is_ready() {
                Ending::Done
            } else {
                Ending::Ended
            }
        }
        Talk::FirstOver => closing_of(hearer.standing()),
        Talk::SecondOver => closed_as(teller.closed()),
        Talk::AtLimit => Ending::AtLimit,
        Talk::Broken => Ending::Ended,
    }
}

/// How an end has closed.
fn closed_as(closed: Option<Closed>) -> Ending
    ensures { (why : Closed) → closed ≡ Some why → result ≡ Ending.Closed why }
{
    match closed {
        Some(why) => Ending::Closed(why),
        None => Ending::Ended,
    }
}
