//! Two ends that are joined to each other, alternately.

ghost use Rattle.std.specs.{Prelude.{◌≡◌, ◌≤◌, ◌<◌, ◌+◌, ◌-◌, false, IfOk, OnOk}, Result.{IsErrOf}};
ghost use Rattle.fs_base.specs.Outside.{Rose};
ghost use Rattle.fs_peering.specs.Joined.{Exchanges};

use crate::buffers::Buffers;
use crate::fault::TalkFault;
use crate::round::{Taken, speak, take_round};
use crate::speaker::Speaker;
use fs_base::{Clock, Memory, Wire};

/// Why two ends hear no more of each other.
#[derive(Clone, Copy, Debug, PartialEq, Eq, Drop)]
pub enum Talk {
    /// The second end says no more, and the first heard all that it said.
    Done,
    /// The first end has closed.
    FirstOver,
    /// The second end has closed.
    SecondOver,
    /// An end heard as many octets as the limit.
    AtLimit,
    /// Octets that are in flight don't arrive.
    Broken,
}

/// The octets between two joined ends: how many are unread at each, and how many each has read.
#[derive(Clone, Copy, Debug, PartialEq, Eq, Drop)]
pub struct InFlight {
    pub to_first: u64,
    pub to_second: u64,
    pub first_read: u64,
    pub second_read: u64,
}

impl InFlight {
    ghost use Rattle.fs_peering.specs.InFlight.{no_flow, first_heard, second_heard, second_said};

    /// Nothing was said yet.
    fn none() -> InFlight
        ensures { result ≡ no_flow }
    {
        InFlight {
            to_first: 0,
            to_second: 0,
            first_read: 0,
            second_read: 0,
        }
    }

    /// The first end heard and said so much.
    fn first_heard(&self, round: &Taken) -> Result<InFlight, Memory>
        ensures { IfOk result (λ flow. flow ≡ first_heard round.now.count round.now.said self.now) }
    {
        Ok(InFlight {
            to_first: self.to_first.saturating_sub(round.count),
            to_second: sum(self.to_second, round.said)?,
            first_read: sum(self.first_read, round.count)?,
            second_read: self.second_read,
        })
    }

    /// The second end heard and said so much.
    fn second_heard(&self, round: &Taken) -> Result<InFlight, Memory>
        ensures { IfOk result (λ flow. flow ≡ second_heard round.now.count round.now.said self.now) }
    {
        Ok(InFlight {
            to_first: sum(self.to_first, round.said)?,
            to_second: self.to_second.saturating_sub(round.count),
            first_read: self.first_read,
            second_read: sum(self.second_read, round.count)?,
        })
    }

    /// The second end said so much unasked.
    fn second_said(&self, said: u64) -> Result<InFlight, Memory>
        ensures { IfOk result (λ flow. flow ≡ second_said said self.now) }
    {
        Ok(InFlight {
            to_first: sum(self.to_first, said)?,
            ..*self
        })
    }
}

/// No machine holds so many octets that their count doesn't fit.
fn sum(one: u64, other: u64) -> Result<u64, Memory>
    ensures { IfOk result (λ both. both ≡ one + other) }
{
    one.checked_add(other).ok_or(Memory)
}

/// Two ends that are joined hear each other alternately, each piece at the moment that the clock answers behind its read:
/// the first where octets to it are unread, else the second, else the second says its next message. Until an end has
/// closed, has heard `limit` octets (the second: up to where it was ready), or nothing more is said.
///
/// # Errors
///
/// `Failed` where the wire failed; `Memory` where the machine refused memory.
pub fn exchange<W: Wire, C: Clock, R: Speaker, A: Speaker>(
    wire: &mut W,
    clock: &mut C,
    first: &mut R,
    second: &mut A,
    limit: u64,
    buffers: &mut Buffers,
) -> Result<Talk, TalkFault>
    requires some { 1 ≤ limit }
    requires fresh { A.count second.old ≡ 0 }
    requires open { R.over first.old ≡ false }
    requires other { A.over second.old ≡ false }
    ensures later { W.faults wire.old ≤ W.faults wire.new }
    ensures failed { IsErrOf result TalkFault.Failed → Rose (W.faults wire.old) (W.faults wire.new) }
    ensures own { OnOk result ((R.own first.new ≡ R.own first.old) × (A.own second.new ≡ A.own second.old)) }
    ensures talked { IfOk result (λ talk.
        Exchanges
        talk
        (R.stands first.old)
        (R.stands first.new)
        (A.stands second.old)
        (A.stands second.new)
        (record {
          over_first = R.over first.new;
          over_second = A.over second.new;
          ready = A.ready second.new;
          begun = A.begun second.new;
          count = A.count second.new;
          ahead = A.ahead second.new;
        })
        limit
        (W.tells wire.old)
        (W.tells wire.new)
        (C.answers clock.old)
        (C.answers clock.new)) }
{
    let mut flow = InFlight::none();
    loop {
        if 0 < flow.to_first {
            let round = take_round(wire, clock, 0, first, limit - flow.first_read, buffers)?;
            flow = flow.first_heard(&round)?;
            if first.is_over() {
                return Ok(Talk::FirstOver);
            }
            if limit <= flow.first_read {
                return Ok(Talk::AtLimit);
            }
            if round.count == 0 {
                return Ok(Talk::Broken);
            }
        } else if 0 < flow.to_second && flow.second_read < limit {
            let round = take_round(wire, clock, 1, second, limit - flow.second_read, buffers)?;
            flow = flow.second_heard(&round)?;
            if second.is_over() {
                return Ok(Talk::SecondOver);
            }
            if limit <= second.count() {
                return Ok(Talk::AtLimit);
            }
            if round.count == 0 {
                return Ok(Talk::Broken);
            }
        } else {
            let Some(said) = speak(wire, 1, second, buffers)? else {
                return Ok(Talk::Done);
            };
            flow = flow.second_said(said)?;
        }
    }
}
