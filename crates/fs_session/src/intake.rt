//! What either end of a session takes of the other's octets.

use crate::side::{Side, refuse};
use crate::state::{Closed, Fed, State};
use crate::times::{Tick, Times};
use crate::transition::{Phase, transition};
use fs_attrs::Terms;
use fs_base::Memory;
use fs_message::{Deframer, write_keepalive};
use std::alloc::Global;
use std::marker::Model;

/// An end, the octets of the message begun, where the session stands, its moments, and how it closed.
#[derive(Drop)]
pub(crate) struct Intake<'a> {
    side: Side<'a>,
    deframer: Deframer,
    phase: Phase,
    times: Times,
    closed: Option<Closed>,
}

impl<'a> Model for Intake<'a> {
    ghost use Rattle.fs_session.specs.Line.{Intake, intake, lined, IsLive};

    ghost Value = { Intake };

    ghost view = { λ i. intake i.side (lined i.deframer i.phase i.times i.closed) };

    ghost invariant = { λ i. IsLive i.closed i.deframer };
}

impl<'a> Intake<'a> {
    ghost use Rattle.std.specs.Prelude.{◌≡◌, ◌<◌, ◌≤◌, None, length, IfOk};
    ghost use Rattle.fs_session.specs.Line.{intake, fresh, state_in, closed_as, closed_after, StaysOver, Advances, FeedsOpen, TicksOpen};
    ghost use Rattle.fs_session.specs.{Side.{machine_of}, Transition.{terms_of}};

    /// Before the first octet.
    pub(crate) fn new(alloc: Global, side: Side<'a>) -> Result<Intake<'a>, Memory>
        ensures { IfOk result (λ made. made ≡ intake side.entry fresh) }
    {
        Ok(Intake {
            side,
            deframer: Deframer::new(alloc)?,
            phase: Phase {
                state: State::WaitOpen,
                four: false,
                hold: 0,
            },
            times: Times::start(),
            closed: None,
        })
    }

    /// Takes octets of the piece, up to and with the end of the first message that ends in it, else all of them.
    /// What this end answers is appended to `out`.
    pub(crate) fn feed_at(&mut self, moment: u64, piece: &[u8], out: &mut Vec<u8>) -> Fed
        ensures side { self.new.side ≡ self.old.side }
        ensures again { StaysOver self.old.line self.new.line result out.old.items out.new.items }
        ensures closed { self.new.line.closed ≡ closed_after result }
        ensures some { IfOk result (λ fed. (fed.0 ≤ length piece.now) × (0 < length piece.now → 0 < fed.0)) }
        ensures exact { FeedsOpen (machine_of self.old.side) moment self.old.line self.new.line piece.now
            out.old.items out.new.items result }
    {
        if let Some(why) = self.closed {
            return Err(why);
        }
        self.times = self.times.at(moment);
        let fed = advance(
            &self.side,
            &mut self.deframer,
            &mut self.phase,
            &mut self.times,
            piece,
            out,
        );
        self.closed = closing(&fed);
        fed
    }

    /// The clock: the hold time may have expired, or a KEEPALIVE may be due.
    pub(crate) fn tick(&mut self, moment: u64, out: &mut Vec<u8>) -> Result<(), Closed>
        ensures side { self.new.side ≡ self.old.side }
        ensures again { StaysOver self.old.line self.new.line result out.old.items out.new.items }
        ensures closed { self.new.line.closed ≡ closed_after result }
        ensures exact { TicksOpen moment self.old.line self.new.line out.old.items out.new.items result }
    {
        if let Some(why) = self.closed {
            return Err(why);
        }
        self.times = self.times.at(moment);
        let ticked = tick_in(self.phase.hold, &mut self.times, out);
        self.closed = closing(&ticked);
        ticked
    }

    /// Closes so.
    pub(crate) fn close(&mut self, why: Closed)
        ensures { self.new ≡ intake self.old.side (closed_as why self.old.line) }
    {
        self.closed = Some(why);
    }

    /// Which end it is.
    pub(crate) fn side(&self) -> &Side<'a>
        ensures { result.now ≡ self.now.side }
    {
        &self.side
    }

    /// The terms of the UPDATEs, as the other's OPEN has them; before it AS numbers have two octets.
    pub(crate) fn terms(&self) -> Terms
        ensures { result ≡ terms_of self.now.side.config.now self.now.side.peer self.now.line.phase.four }
    {
        self.side.terms(self.phase.four)
    }

    /// What has closed this end, if anything has.
    pub(crate) fn closed(&self) -> Option<Closed>
        ensures { result ≡ self.now.line.closed }
    {
        self.closed
    }

    /// The state that this end is in; `Closed` from its closing on.
    pub(crate) fn state(&self) -> State
        ensures { result ≡ state_in self.now.line }
    {
        match self.closed {
            Some(_) => State::Closed,
            None => self.phase.state,
        }
    }

    /// The greatest moment so far.
    pub(crate) fn greatest(&self) -> u64
        ensures { result ≡ self.now.line.times.greatest }
    {
        self.times.greatest
    }
}

ghost use Rattle.std.specs.Prelude.{◌≡◌, ◌<◌, ◌≤◌, None, length, IfOk};
ghost use Rattle.fs_session.specs.{Line.{lined, closed_after, Advances, TimesTick}, Side.{machine_of}};

/// How a call closed this end, if it did.
fn closing<T>(done: &Result<T, Closed>) -> Option<Closed>
    ensures { result ≡ closed_after done.now }
{
    match done {
        Ok(_) => None,
        Err(why) => Some(*why),
    }
}

/// Goes on with an open session, at the greatest of its moments.
fn advance(
    side: &Side<'_>,
    deframer: &mut Deframer,
    phase: &mut Phase,
    times: &mut Times,
    piece: &[u8],
    out: &mut Vec<u8>,
) -> Fed
    requires { deframer.old.fault ≡ None }
    ensures live { IfOk result (λ _. deframer.new.fault ≡ None) }
    ensures some { IfOk result (λ fed. (fed.0 ≤ length piece.now) × (0 < length piece.now → 0 < fed.0)) }
    ensures exact { Advances (machine_of side.now) (lined deframer.old phase.old times.old None)
        (lined deframer.new phase.new times.new (closed_after result)) piece.now out.old.items out.new.items result }
{
    let count = match deframer.feed(piece) {
        Ok((count, _)) => count,
        Err(fault) => return Err(side.close(Closed::from(fault), out)),
    };
    let Some(frame) = deframer.message() else {
        return Ok((count, None));
    };
    let alloc = *out.allocator();
    let (next, update) = match transition(alloc, side, phase, &frame) {
        Ok(done) => done,
        Err(why) => return Err(side.close(why, out)),
    };
    side.reply(phase.state, out)?;
    *times = times.took(phase.state);
    *phase = next;
    Ok((count, update))
}

/// What is due at the greatest moment, with this hold time in seconds.
fn tick_in(hold: u16, times: &mut Times, out: &mut Vec<u8>) -> Result<(), Closed>
    ensures { TimesTick hold times.old times.new out.old.items out.new.items result }
{
    match times.tick(hold) {
        Tick::Quiet => Ok(()),
        Tick::Keeps => {
            write_keepalive(out)?;
            *times = times.wrote();
            Ok(())
        }
        Tick::Expires => Err(refuse(HOLD_TIMER_EXPIRED, 0, out)),
    }
}

/// The code of a NOTIFICATION Hold Timer Expired (RFC 4271, section 6.5).
const HOLD_TIMER_EXPIRED: u8 = 4;
