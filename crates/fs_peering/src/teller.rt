//! The announcing end of a session.

ghost use Rattle.std.specs.Prelude.{◌≡◌, ◌≤◌, ◌<◌, [], Bool, true, false, length, IfOk, IfSome, OnOk};
ghost use Rattle.fs_speaker.specs.{Announcer.{machine_in}, End.{TicksOver}};
ghost use Rattle.fs_peering.specs.{Round.{Says}, Teller.{SaysTo, ShutsBy, ahead_of, before_all, stops_at}, Sender.{CountsOn, KeepsHand, KeepsSettled, SaysOn}};

use crate::speaker::Speaker;
use crate::steps::{closes, count_on, is_established, is_settled, say, start};
use fs_base::{Config, Memory};
use fs_speaker::{Announcer, Closed, Sending};
use std::alloc::Global;

/// An announcing end: it says its OPEN, what it replies, and once established its rules. At each piece it first hears
/// the clock. Where it doesn't hear on, it takes octets up to and with the message that establishes its session, and
/// otherwise all that come; those up to and with that message are counted.
#[derive(Drop)]
pub struct Teller<'a> {
    announcer: Announcer<'a>,
    hears_on: bool,
    started: bool,
    count: u64,
}

impl<'a> Teller<'a> {
    ghost use Rattle.fs_speaker.specs.{Announcer.{CanSend, announcing}, Line.{fresh}, Sending.{sender_of}};
    ghost use Rattle.fs_peering.specs.Teller.{is_over};

    /// The end of the peer with the lowest number, before its OPEN. `hears_on` says whether it takes octets behind the
    /// message that establishes its session.
    ///
    /// # Errors
    ///
    /// `Memory` where the machine refused memory.
    #[tactic(auto, using(crate::proofs::Hearing::starts_open))]
    pub fn new(
        alloc: Global,
        config: &'a Config,
        sending: Sending,
        hears_on: bool,
    ) -> Result<Teller<'a>, Memory>
        requires { CanSend config.now (sender_of config.now.peers) sending }
        ensures open { IfOk result (λ made. is_over made.hears_on made.announcer.line ≡ false) }
        ensures fresh { IfOk result (λ made. made.count ≡ 0) }
        ensures on { IfOk result (λ made. made.hears_on ≡ hears_on) }
        ensures made { IfOk result (λ made. IfSome (sender_of config.now.peers) (λ peer.
            (made.announcer ≡ announcing config.now peer sending fresh false 0)
            × (made.started ≡ false))) }
    {
        Ok(Teller {
            announcer: Announcer::new(alloc, config, sending)?,
            hears_on,
            started: false,
            count: 0,
        })
    }

    /// How many rules it has announced, each in an UPDATE.
    pub fn announced(&self) -> usize
        ensures { result ≡ self.now.announcer.appended }
    {
        self.announcer.appended()
    }

    /// How it has closed.
    pub fn closed(&self) -> Option<Closed>
        ensures { result ≡ self.now.announcer.line.closed }
    {
        self.announcer.closed()
    }
}

/// Says its OPEN, unless it was said.
fn begin(announcer: &mut Announcer<'_>, started: bool, out: &mut Vec<u8>) -> Result<(), Memory>
    ensures own { OnOk result (before_all announcer.new ≡ before_all announcer.old) }
    ensures same { OnOk result (announcer.new.line ≡ announcer.old.line) }
    ensures sent { OnOk result (announcer.new.appended ≡ announcer.old.appended) }
    ensures ahead { ahead_of announcer.new started ≤ ahead_of announcer.old started }
    ensures least { OnOk result (ahead_of announcer.new true ≤ ahead_of announcer.old started) }
    ensures fewer { OnOk result (started ≡ false → ahead_of announcer.new true < ahead_of announcer.old started) }
    ensures begins { OnOk result ((hears_on : Bool) → Says
        (SaysOn hears_on announcer.old started) (SaysOn hears_on announcer.new true)
        out.old.items out.new.items) }
{
    if started {
        return Ok(());
    }
    start(announcer, out)
}

/// The clock, at a moment.
#[tactic(auto, using(crate::proofs::Settled::woke_settled, crate::proofs::Counting::woke_hand))]
pub(crate) fn wake(
    announcer: &mut Announcer<'_>,
    moment: u64,
    out: &mut Vec<u8>,
) -> Result<(), Memory>
    ensures wakes { OnOk result (TicksOver
        (machine_in announcer.old) moment announcer.old.line announcer.new.line out.old.items out.new.items) }
    ensures same { KeepsSettled announcer.old announcer.new }
    ensures kept { KeepsHand announcer.old.line announcer.new.line }
{
    match announcer.tick(moment, out) {
        Ok(()) => Ok(()),
        Err(why) => closes(why),
    }
}

/// Whether an end takes no more of a piece: it is established, and doesn't hear on.
fn stops(announcer: &Announcer<'_>, hears_on: bool) -> bool
    ensures { result ≡ stops_at hears_on announcer.now.line }
{
    !hears_on && is_established(announcer.state())
}

/// Takes the piece message by message, up to what closes the end, and where it doesn't hear on up to and with the one that
/// establishes it. Answers how many octets come up to and with the message that establishes it: where none does, all of
/// them, or those before the message that closes it.
#[tactic(auto, using(crate::proofs::Settled::settled_fed))]
pub(crate) fn take(
    announcer: &mut Announcer<'_>,
    hears_on: bool,
    moment: u64,
    piece: &[u8],
    out: &mut Vec<u8>,
) -> Result<usize, Memory>
    ensures says { OnOk result (SaysTo hears_on
        (machine_in announcer.old) moment announcer.old.line announcer.new.line piece.now out.old.items out.new.items) }
    ensures same { KeepsSettled announcer.old announcer.new }
    ensures bound { IfOk result (λ needed. needed ≤ length piece.now) }
    ensures counts { IfOk result (λ needed. CountsOn hears_on
        (machine_in announcer.old) announcer.old.line announcer.new.line piece.now [] needed) }
    ensures shuts { OnOk result (hears_on ≡ false
        → ShutsBy (machine_in announcer.old) announcer.old.line announcer.new.line piece.now) }
{
    let mut rest = piece;
    let mut needed = 0;
    'messages: loop {
        let was_settled = is_settled(announcer);
        match announcer.feed_at(moment, rest, out) {
            Ok(count) => {
                if !was_settled {
                    needed += count;
                }
                rest = &rest[count..];
            }
            Err(why) => {
                closes(why)?;
                return Ok(needed);
            }
        }
        if rest.is_empty() {
            return Ok(needed);
        }
        if stops(announcer, hears_on) {
            return Ok(needed);
        }
    }
}

impl<'a> Speaker for Teller<'a> {
    ghost use Rattle.std.specs.Option.{is_some};
    ghost use Rattle.fs_peering.specs.{Teller.{is_over, is_settled}, Sender.{SaysUpTo}};

    ghost stands = { λ t heard said. SaysUpTo t.hears_on t.announcer t.started t.count heard said };

    ghost over = { λ t. is_over t.hears_on t.announcer.line };

    ghost shut = { λ t. is_some t.announcer.line.closed };

    ghost ready = { λ t. is_settled t.announcer.line };

    ghost count = { λ t. t.count };

    ghost ahead = { λ t. ahead_of t.announcer t.started };

    ghost begun = { λ t. t.started };

    ghost sent = { λ t. t.announcer.appended };

    ghost own = { λ t. record { announcer = before_all t.announcer; hears_on = t.hears_on; started = false; count = 0 } };

    fn hear(&mut self, moment: u64, piece: &[u8], out: &mut Vec<u8>) -> Result<(), Memory> {
        let was_ready = self.is_ready();
        begin(&mut self.announcer, self.started, out)?;
        self.started = true;
        wake(&mut self.announcer, moment, out)?;
        let needed = take(&mut self.announcer, self.hears_on, moment, piece, out)?;
        self.count = count_on(self.count, needed, was_ready)?;
        Ok(())
    }

    fn next(&mut self, out: &mut Vec<u8>) -> Result<bool, Memory> {
        if self.announcer.closed().is_some() {
            return Ok(false);
        }
        if !self.started {
            begin(&mut self.announcer, self.started, out)?;
            self.started = true;
            return Ok(true);
        }
        say(&mut self.announcer, out)
    }

    fn is_over(&self) -> bool {
        if self.hears_on {
            self.announcer.closed().is_some()
        } else {
            is_settled(&self.announcer)
        }
    }

    fn is_ready(&self) -> bool {
        is_settled(&self.announcer)
    }

    fn count(&self) -> u64 {
        self.count
    }
}
