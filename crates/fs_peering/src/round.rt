//! One round of an end, and one message of its own.

ghost use Rattle.std.specs.Prelude.{◌≡◌, ◌≤◌, ◌<◌, ◌+◌, ◌∷◌, [], ℕ, false, IsSome, IsTrue, None, IfOk, IsOk, OnOk, OnErr, Ok, length, unwrap_or};
ghost use Rattle.std.specs.{Result.{IsErrOf}, Io.{ReadsAtMost}};
ghost use Rattle.fs_base.specs.{Outside.{HasCause, Rose}, Sink.{Grew}, Wire.{EndReads, TakesIn, Told}, declared.Failed.{Failed}};
ghost use Rattle.fs_peering.specs.Round.{Speech, Spoken, Round};

use crate::buffers::{Buffers, PIECE};
use crate::fault::TalkFault;
use crate::speaker::Speaker;
use fs_base::{Clock, Failed, Wire};

/// Writes the whole of `piece` through an end. An empty piece leaves the wire untouched.
pub(crate) fn write_end<W: Wire>(wire: &mut W, end: u8, piece: &[u8]) -> Result<(), Failed>
    requires { end ≤ 1 }
    ensures cause { HasCause (W.faults wire.old) (W.faults wire.new) result }
    ensures took { OnOk result (Told (TakesIn end piece.now) (W.tells wire.old) (W.tells wire.new)) }
    ensures idle { length piece.now ≡ 0 → (IsOk result) × (wire.new ≡ wire.old) }
{
    let mut rest = piece;
    while !rest.is_empty() {
        let count = wire.write(end, rest)?;
        rest = &rest[count..];
    }
    Ok(())
}

/// So many octets were read, and behind that the clock answered this moment.
#[derive(Clone, Copy, Debug, PartialEq, Eq, Drop)]
pub(crate) struct Arrival {
    pub moment: u64,
    pub count: usize,
}

/// Reads from an end, and then the clock.
pub(crate) fn read_end<W: Wire, C: Clock>(
    wire: &mut W,
    clock: &mut C,
    end: u8,
    into: &mut [u8],
) -> Result<Arrival, Failed>
    requires { end ≤ 1 }
    ensures cause { HasCause (W.faults wire.old) (W.faults wire.new) result }
    ensures bound { IfOk result (λ arrival. arrival.count ≤ length into.new) }
    ensures size { length into.new ≡ length into.old }
    ensures reads { IfOk result (λ arrival.
        Told (EndReads {E = Failed} end (Ok arrival.count) into.new) (W.tells wire.old) (W.tells wire.new)) }
    ensures moment { IfOk result (λ arrival. Grew (C.answers clock.old) (C.answers clock.new) (arrival.moment ∷ [])) }
    ensures unasked { OnErr result (C.answers clock.new ≡ C.answers clock.old) }
{
    let count = wire.read(end, into)?;
    let moment = clock.now();
    Ok(Arrival { moment, count })
}

/// So many octets were heard at that moment, and so many were said to them.
#[derive(Clone, Copy, Debug, PartialEq, Eq, Drop)]
pub(crate) struct Taken {
    pub moment: u64,
    pub count: u64,
    pub said: u64,
}

/// Reads from an end, at most `left` octets and at most a piece, hands them to the speaker with the moment behind the
/// read, and writes what it says to them.
pub(crate) fn take_round<W: Wire, C: Clock, S: Speaker>(
    wire: &mut W,
    clock: &mut C,
    end: u8,
    speaker: &mut S,
    left: u64,
    buffers: &mut Buffers,
) -> Result<Taken, TalkFault>
    requires place { end ≤ 1 }
    requires some { 1 ≤ left }
    requires open { S.over speaker.old ≡ false }
    ensures later { W.faults wire.old ≤ W.faults wire.new }
    ensures failed { IsErrOf result TalkFault.Failed → Rose (W.faults wire.old) (W.faults wire.new) }
    ensures within { IfOk result (λ taken. taken.count ≤ left) }
    ensures round { IfOk result (λ taken.
        Told
        (Round (S.stands speaker.old) (S.stands speaker.new) end taken.moment taken.count taken.said)
        (W.tells wire.old)
        (W.tells wire.new)) }
    ensures moment { IfOk result (λ taken. Grew (C.answers clock.old) (C.answers clock.new) (taken.moment ∷ [])) }
    ensures ready { IsTrue (S.ready speaker.old) → OnOk result (IsTrue (S.ready speaker.new)) }
    ensures count { IfOk result (λ taken.
        S.ready speaker.new ≡ false → S.count speaker.new ≡ S.count speaker.old + taken.count) }
    ensures bound { IfOk result (λ taken. S.count speaker.new ≤ S.count speaker.old + taken.count) }
    ensures ahead { OnOk result (S.ahead speaker.new ≤ S.ahead speaker.old) }
    ensures sent { OnOk result (S.sent speaker.new ≡ S.sent speaker.old) }
    ensures own { OnOk result (S.own speaker.new ≡ S.own speaker.old) }
{
    let most = left.min(PIECE as u64) as usize;
    let Arrival { moment, count } = read_end(wire, clock, end, &mut buffers.buffer[..most])?;
    buffers.out.clear();
    speaker.hear(moment, &buffers.buffer[..count], &mut buffers.out)?;
    write_end(wire, end, &buffers.out)?;
    Ok(Taken {
        moment,
        count: count as u64,
        said: buffers.out.len() as u64,
    })
}

/// Writes the next message that the speaker says unasked. Its length, or None where there was none.
pub(crate) fn speak<W: Wire, S: Speaker>(
    wire: &mut W,
    end: u8,
    speaker: &mut S,
    buffers: &mut Buffers,
) -> Result<Option<u64>, TalkFault>
    requires { end ≤ 1 }
    ensures later { W.faults wire.old ≤ W.faults wire.new }
    ensures failed { IsErrOf result TalkFault.Failed → Rose (W.faults wire.old) (W.faults wire.new) }
    ensures spoke { IfOk result (λ said.
        Told
        (Speech (S.stands speaker.old) (S.stands speaker.new) end (unwrap_or said 0))
        (W.tells wire.old)
        (W.tells wire.new)) }
    ensures fewer { IfOk result (λ said. IsSome said → S.ahead speaker.new < S.ahead speaker.old) }
    ensures all { IfOk result (λ said. said ≡ None → IsTrue (S.ready speaker.old) → S.ahead speaker.new ≡ 0) }
    ensures begun { IfOk result (λ said. said ≡ None → S.over speaker.old ≡ false → IsTrue (S.begun speaker.new)) }
    ensures over { OnOk result (S.over speaker.new ≡ S.over speaker.old) }
    ensures shut { OnOk result (S.shut speaker.new ≡ S.shut speaker.old) }
    ensures ready { OnOk result (S.ready speaker.new ≡ S.ready speaker.old) }
    ensures count { OnOk result (S.count speaker.new ≡ S.count speaker.old) }
    ensures own { OnOk result (S.own speaker.new ≡ S.own speaker.old) }
{
    buffers.out.clear();
    let had = speaker.next(&mut buffers.out)?;
    write_end(wire, end, &buffers.out)?;
    Ok(if had {
        Some(buffers.out.len() as u64)
    } else {
        None
    })
}

/// Writes all that the speaker says unasked.
pub fn say_all<W: Wire, S: Speaker>(
    wire: &mut W,
    end: u8,
    speaker: &mut S,
    buffers: &mut Buffers,
) -> Result<(), TalkFault>
    requires { end ≤ 1 }
    ensures later { W.faults wire.old ≤ W.faults wire.new }
    ensures failed { IsErrOf result TalkFault.Failed → Rose (W.faults wire.old) (W.faults wire.new) }
    ensures spoke { OnOk result
        (Told (Spoken (S.stands speaker.old) (S.stands speaker.new) end) (W.tells wire.old) (W.tells wire.new)) }
    ensures all { OnOk result (IsTrue (S.ready speaker.old) → S.ahead speaker.new ≡ 0) }
    ensures over { OnOk result (S.over speaker.new ≡ S.over speaker.old) }
    ensures shut { OnOk result (S.shut speaker.new ≡ S.shut speaker.old) }
    ensures ready { OnOk result (S.ready speaker.new ≡ S.ready speaker.old) }
    ensures count { OnOk result (S.count speaker.new ≡ S.count speaker.old) }
    ensures own { OnOk result (S.own speaker.new ≡ S.own speaker.old) }
{
    'messages: while let Some(_) = speak(wire, end, speaker, buffers)? {}
    Ok(())
}
