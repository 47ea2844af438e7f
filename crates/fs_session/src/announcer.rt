//! The announcing end of a session.

use crate::intake::Intake;
use crate::sending::{Sending, append_rule, sender};
use crate::side::{Needs, Role, Side};
use crate::state::{Closed, Fed, State};
use fs_attrs::Terms;
use fs_base::{Config, Memory};
use fs_message::write_open;
use std::alloc::Global;
use std::marker::Model;

/// The end that announces rules, at the peer with the lowest number: it sends an OPEN, a KEEPALIVE that answers the
/// other's OPEN, and once Established an UPDATE for each rule.
#[derive(Drop)]
pub struct Announcer<'a> {
    intake: Intake<'a>,
    sending: Sending,
    started: bool,
    appended: usize,
}

impl<'a> Model for Announcer<'a> {
    ghost use Rattle.fs_session.specs.Announcer.{Announcing, announcing_in, IsReady};

    ghost Value = { Announcing };

    ghost view = { λ a. announcing_in a.intake a.sending a.started a.appended };

    ghost invariant = { λ a. IsReady a.intake.side a.sending };
}

impl<'a> Announcer<'a> {
    ghost use Rattle.std.specs.Prelude.{◌≡◌, ◌<◌, ◌≤◌, length, false, IfOk, IfSome};
    ghost use Rattle.fs_session.specs.Announcer.{announcing, with_line, machine_in, counted, without_update, StaysEnded, StartsOpen, SaysOpen};
    ghost use Rattle.fs_session.specs.Announcer.{FeedsEnd, TicksEnd, CanSend};
    ghost use Rattle.fs_session.specs.{Line.{fresh, state_in, closed_after}, Sending.{needs_of, sender_of}, Transition.{terms_of}};

    /// The end of the peer with the lowest number, before its OPEN.
    pub fn new(alloc: Global, config: &'a Config, sending: Sending) -> Result<Announcer<'a>, Memory>
        requires { CanSend config.now (sender_of config.now.peers) sending }
        ensures { IfOk result (λ made. IfSome (sender_of config.now.peers)
            (λ peer. made ≡ announcing config.now peer sending fresh false 0)) }
    {
        let Some(peer) = sender(config) else {
            unreachable!();
        };
        let side = Side {
            config,
            peer: *peer,
            role: Role::Announcer(sending.needs()),
        };
        Ok(Announcer {
            intake: Intake::new(alloc, side)?,
            sending,
            started: false,
            appended: 0,
        })
    }

    /// Appends the OPEN that the end begins with; a later call appends nothing. Once closed, it answers the same
    /// again. After `Memory` `out` is as it was.
    pub fn start(&mut self, out: &mut Vec<u8>) -> Result<(), Closed>
        ensures again { StaysEnded self.old self.new result out.old.items out.new.items }
        ensures exact { StartsOpen self.old self.new out.old.items out.new.items result }
    {
        if let Some(why) = self.intake.closed() {
            return Err(why);
        }
        if self.started {
            return Ok(());
        }
        let side = self.intake.side();
        if write_open(side.peer.asn, side.config.hold_time, self.sending.id, out).is_err() {
            self.intake.close(Closed::Memory);
            return Err(Closed::Memory);
        }
        self.started = true;
        Ok(())
    }

    /// Takes octets of the piece: up to and with the end of the first message that ends in it, else all of them,
    /// and answers how many; of a piece that isn't empty at least one. An OPEN is answered with a KEEPALIVE, unless
    /// it lacks the family of a rule, which closes with `NoFamily`; a fault isn't answered. Once closed, it answers
    /// the same again and takes nothing. After `Memory` `out` is as it was. The moment is the greatest so far.
    pub fn feed(&mut self, piece: &[u8], out: &mut Vec<u8>) -> Result<usize, Closed>
        ensures again { StaysEnded self.old self.new result out.old.items out.new.items }
        ensures closed { self.new.line.closed ≡ closed_after result }
        ensures same { self.new ≡ with_line self.old self.new.line }
        ensures some { IfOk result (λ count. (count ≤ length piece.now) × (0 < length piece.now → 0 < count)) }
        ensures exact { FeedsEnd self.old.line.times.greatest self.old self.new piece.now out.old.items out.new.items
            result }
    {
        let moment = self.intake.greatest();
        self.feed_at(moment, piece, out)
    }

    /// As [`feed`](Announcer::feed) at a moment in milliseconds: a message that is taken moves the moment of the
    /// last one taken. A moment that falls counts as the greatest so far.
    pub fn feed_at(&mut self, moment: u64, piece: &[u8], out: &mut Vec<u8>) -> Result<usize, Closed>
        ensures again { StaysEnded self.old self.new result out.old.items out.new.items }
        ensures closed { self.new.line.closed ≡ closed_after result }
        ensures same { self.new ≡ with_line self.old self.new.line }
        ensures some { IfOk result (λ count. (count ≤ length piece.now) × (0 < length piece.now → 0 < count)) }
        ensures exact { FeedsEnd moment self.old self.new piece.now out.old.items out.new.items result }
    {
        count_of(self.intake.feed_at(moment, piece, out))
    }

    /// The clock, at a moment in milliseconds, as of a [`Session`](crate::Session).
    pub fn tick(&mut self, moment: u64, out: &mut Vec<u8>) -> Result<(), Closed>
        ensures again { StaysEnded self.old self.new result out.old.items out.new.items }
        ensures closed { self.new.line.closed ≡ closed_after result }
        ensures same { self.new ≡ with_line self.old self.new.line }
        ensures exact { TicksEnd moment self.old self.new out.old.items out.new.items result }
    {
        self.intake.tick(moment, out)
    }

    /// Appends the UPDATE of the next rule, once Established, and answers whether there was one: false while it
    /// isn't Established, and once all are appended. Once closed, it answers the same again. After `Memory` `out`
    /// is as it was.
    pub fn next_message(&mut self, out: &mut Vec<u8>) -> Result<bool, Closed>
        ensures again { StaysEnded self.old self.new result out.old.items out.new.items }
        ensures exact { SaysOpen self.old self.new out.old.items out.new.items result }
    {
        if let Some(why) = self.intake.closed() {
            return Err(why);
        }
        if self.intake.state() != State::Established {
            return Ok(false);
        }
        let terms = self.intake.terms();
        match append_next(&terms, &self.sending, self.appended, out) {
            Ok(false) => Ok(false),
            Ok(true) => {
                self.appended += 1;
                Ok(true)
            }
            Err(Memory) => {
                self.intake.close(Closed::Memory);
                Err(Closed::Memory)
            }
        }
    }

    /// The terms on which it writes UPDATEs (RFC 6793, section 4.1), as the other's OPEN has them; before it AS numbers
    /// have two octets.
    pub fn terms(&self) -> Terms
        ensures { result ≡ terms_of self.now.config self.now.peer self.now.line.phase.four }
    {
        self.intake.terms()
    }

    /// The families that the other's OPEN has to have.
    pub fn needs(&self) -> Needs
        ensures { result ≡ needs_of self.now.sending.rules }
    {
        self.sending.needs()
    }

    /// How many rules' UPDATEs it has appended.
    pub fn appended(&self) -> usize
        ensures { result ≡ self.now.appended }
    {
        self.appended
    }

    /// What has closed the end; None while it is open.
    pub fn closed(&self) -> Option<Closed>
        ensures { result ≡ self.now.line.closed }
    {
        self.intake.closed()
    }

    /// The end's state.
    pub fn state(&self) -> State
        ensures { result ≡ state_in self.now.line }
    {
        self.intake.state()
    }
}

ghost use Rattle.std.specs.{Prelude.{◌≡◌, ◌+◌, ◌^◌, ◌<◌, ◌≤◌, true, length, drop}, List.{list_all}};
ghost use Rattle.fs_session.specs.{Announcer.{counted, first_text, AppendsText}, Sending.{text_by, is_short}};

fn count_of(fed: Fed) -> Result<usize, Closed>
    ensures { result ≡ counted fed }
{
    match fed {
        Ok((count, _)) => Ok(count),
        Err(why) => Err(why),
    }
}

/// Appends the UPDATE of the rule with this number, and answers whether there is one.
fn append_next(
    terms: &Terms,
    sending: &Sending,
    number: usize,
    out: &mut Vec<u8>,
) -> Result<bool, Memory>
    requires few { length sending.now.as_path ≤ 255 }
    requires fits { list_all (is_short terms.now sending.now.as_path) sending.now.rules ≡ true }
    ensures text { AppendsText result
        (first_text (text_by terms.now sending.now.as_path) (drop number sending.now.rules))
        out.old.items out.new.items }
    ensures within { result ≡ Ok true → number + 1 < 2 ^ 64 }
{
    let Some(sent) = sending.rules.as_slice().get(number) else {
        return Ok(false);
    };
    append_rule(terms, &sending.as_path, sent, out)?;
    Ok(true)
}
