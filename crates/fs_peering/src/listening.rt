//! Hearing a stream to its end.

ghost use Rattle.std.specs.{Prelude.{◌≡◌, ◌≤◌, ◌<◌, false, IfOk, OnOk}, Result.{IsErrOf}};
ghost use Rattle.fs_base.specs.Outside.{Rose};
ghost use Rattle.fs_peering.specs.Listening.{HearsOut};

use crate::buffers::Buffers;
use crate::fault::TalkFault;
use crate::round::take_round;
use crate::speaker::Speaker;
use fs_base::{Clock, Wire};

/// Why an end hears no more.
#[derive(Clone, Copy, Debug, PartialEq, Eq, Drop)]
pub enum Stopped {
    /// The stream ended.
    All,
    /// The end hears no more.
    Over,
    /// It heard as many octets as the limit.
    AtLimit,
}

/// Hears what comes at an end, each piece at the moment that the clock answers behind its read, and writes what the
/// speaker says to it, until the speaker hears no more, has heard `limit` octets, or the stream ends.
///
/// # Errors
///
/// `Failed` where the wire failed; `Memory` where the machine refused memory.
pub fn hear_out<W: Wire, C: Clock, S: Speaker>(
    wire: &mut W,
    clock: &mut C,
    end: u8,
    speaker: &mut S,
    limit: u64,
    buffers: &mut Buffers,
) -> Result<Stopped, TalkFault>
    requires place { end ≤ 1 }
    requires some { S.count speaker.old < limit }
    requires open { S.over speaker.old ≡ false }
    requires deaf { (s : S) → S.own s ≡ S.own speaker.old → S.over s ≡ false → S.ready s ≡ false }
    ensures later { W.faults wire.old ≤ W.faults wire.new }
    ensures failed { IsErrOf result TalkFault.Failed → Rose (W.faults wire.old) (W.faults wire.new) }
    ensures bound { OnOk result (S.count speaker.new ≤ limit) }
    ensures sent { OnOk result (S.sent speaker.new ≡ S.sent speaker.old) }
    ensures own { OnOk result (S.own speaker.new ≡ S.own speaker.old) }
    ensures heard { IfOk result (λ heard.
        HearsOut
        heard
        (S.stands speaker.old)
        (S.stands speaker.new)
        (S.over speaker.new)
        (S.count speaker.old)
        (S.count speaker.new)
        end
        limit
        (W.tells wire.old)
        (W.tells wire.new)
        (C.answers clock.old)
        (C.answers clock.new)) }
{
    loop {
        let round = take_round(wire, clock, end, speaker, limit - speaker.count(), buffers)?;
        if speaker.is_over() {
            return Ok(Stopped::Over);
        }
        if limit <= speaker.count() {
            return Ok(Stopped::AtLimit);
        }
        if round.count == 0 {
            return Ok(Stopped::All);
        }
    }
}
