//! An announcing end over a wire.

ghost use Rattle.std.specs.{Prelude.{◌≡◌, ◌≤◌, ◌++◌, false, IfOk, OnOk}, Result.{IsErrOf}};
ghost use Rattle.fs_base.specs.{Outside.{Rose}, Wire.{TakesIn, Told}, declared.config.{Config.{Config}, Peer.{Peer}}};
ghost use Rattle.fs_speaker.specs.declared.Sending.{Sending};
ghost use Rattle.fs_peering.specs.{Tell.{TellsOver, begins_with, farewell_to}, Teller.{is_over}};

use crate::buffers::Buffers;
use crate::fault::TalkFault;
use crate::listening::{Stopped, hear_out};
use crate::round::{say_all, write_end};
use crate::speaker::Speaker;
use crate::teller::Teller;
use fs_base::{Clock, Memory, Wire};
use fs_message::write_notice;
use fs_speaker::Closed;

/// The code of a hold time that expired (RFC 4271 section 4.5), of which the clock has said the NOTIFICATION.
const HOLD_TIMER_EXPIRED: u8 = 4;

/// How a session over a wire ended.
#[derive(Clone, Copy, Debug, PartialEq, Eq, Drop)]
pub enum Ending {
    /// All was said or heard.
    Done,
    /// An end has closed.
    Closed(Closed),
    /// The stream ended before the session was established.
    Ended,
    /// As many octets as the limit came.
    AtLimit,
}

/// Announces through end 1 of the wire, which is open: the OPEN, then what answers the octets that come, up to the
/// message that establishes the session, and then the rules. A fault of the octets is answered with its NOTIFICATION.
///
/// # Errors
///
/// `Failed` where the wire failed; `Memory` where the machine refused memory.
pub fn announce_over<W: Wire, C: Clock>(
    wire: &mut W,
    clock: &mut C,
    teller: &mut Teller<'_>,
    limit: u64,
    buffers: &mut Buffers,
) -> Result<Ending, TalkFault>
    requires some { 1 ≤ limit }
    requires fresh { teller.old.count ≡ 0 }
    requires early { teller.old.hears_on ≡ false }
    requires open { is_over teller.old.hears_on teller.old.announcer.line ≡ false }
    ensures later { W.faults wire.old ≤ W.faults wire.new }
    ensures failed { IsErrOf result TalkFault.Failed → Rose (W.faults wire.old) (W.faults wire.new) }
    ensures tells { IfOk result (λ ending. (config : Config) (peer : Peer) (sending : Sending)
        → teller.old.announcer ≡ begins_with config peer sending → teller.old.started ≡ false
        → TellsOver ending config peer sending limit (W.tells wire.old) (W.tells wire.new)
        (C.answers clock.old) (C.answers clock.new)) }
{
    say_all(wire, 1, teller, buffers)?;
    match hear_out(wire, clock, 1, teller, limit, buffers)? {
        Stopped::Over => {
            if let Some(why) = teller.closed() {
                say_why(wire, why, buffers)?;
                return Ok(Ending::Closed(why));
            }
            if limit <= teller.count() {
                return Ok(Ending::AtLimit);
            }
            say_all(wire, 1, teller, buffers)?;
            Ok(Ending::Done)
        }
        Stopped::AtLimit => Ok(Ending::AtLimit),
        Stopped::All => Ok(Ending::Ended),
    }
}

/// Writes the NOTIFICATION of a fault of the other end's octets (RFC 4271 section 6).
fn say_why<W: Wire>(wire: &mut W, why: Closed, buffers: &mut Buffers) -> Result<(), TalkFault>
    ensures later { W.faults wire.old ≤ W.faults wire.new }
    ensures failed { IsErrOf result TalkFault.Failed → Rose (W.faults wire.old) (W.faults wire.new) }
    ensures said { OnOk result (Told (TakesIn 1 (farewell_to why)) (W.tells wire.old) (W.tells wire.new)) }
{
    buffers.out.clear();
    append_why(why, &mut buffers.out)?;
    write_end(wire, 1, &buffers.out)?;
    Ok(())
}

/// Appends that NOTIFICATION.
fn append_why(why: Closed, out: &mut Vec<u8>) -> Result<(), Memory>
    ensures { OnOk result (out.new.items ≡ out.old.items ++ farewell_to why) }
{
    let Closed::Fault { code, subcode } = why else {
        return Ok(());
    };
    if code == HOLD_TIMER_EXPIRED {
        return Ok(());
    }
    write_notice(code, subcode, out)
}
