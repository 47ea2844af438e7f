//! Both ends of a session, joined by what is in flight between them.

use crate::ends::Ends;
use crate::event::Event;
use crate::flight::Flight;
use fs_attrs::Update;
use fs_base::{Config, Memory};
use fs_session::{Announcer, Closed, Sending, Session, sender};
use std::alloc::Global;
use std::marker::Model;

/// A receiving end 0 and an announcing end 1, at the peer with the lowest number, that are driven event by event. How
/// both ends have closed is kept beside them, since a step that is refused may leave them on the way.
#[derive(Drop)]
pub struct Joint<'a> {
    ends: Ends<'a>,
    events: Vec<Event>,
    taker_closed: Option<Closed>,
    teller_closed: Option<Closed>,
    spent: bool,
}

impl<'a> Model for Joint<'a> {
    ghost use Rattle.fs_speaker.specs.Joint.{Jointed, jointed, IsRun};

    ghost Value = { Jointed };

    ghost view = { λ j. jointed j.ends.teller.config j.ends.teller.peer j.ends.teller.sending j.events.items j.spent };

    ghost invariant = { λ j. IsRun j.ends j.events.items j.taker_closed j.teller_closed j.spent };
}

impl<'a> Joint<'a> {
    ghost use Rattle.std.specs.Prelude.{◌≡◌, ◌≤◌, [], true, false, OnOk, IfOk, IfSome, OnErr, IsTrue, option_copied, option_map, slice_get};
    ghost use Rattle.fs_session.specs.{Announcer.{CanSend}, Sending.{sender_of}};
    ghost use Rattle.fs_speaker.specs.Joint.{jointed, one_more, refused, world_of, closed_at, IsEnd};

    /// Both ends before the first event: the announcing end's OPEN is in flight.
    ///
    /// # Errors
    ///
    /// `Memory` where the machine refused memory.
    pub fn new(alloc: Global, config: &'a Config, sending: Sending) -> Result<Joint<'a>, Memory>
        requires { CanSend config.now (sender_of config.now.peers) sending }
        ensures { IfOk result (λ made. IfSome (sender_of config.now.peers)
            (λ peer. made ≡ jointed config.now peer sending [] false)) }
    {
        let Some(peer) = sender(config) else {
            unreachable!();
        };
        let taker = Session::new(alloc, config, peer.number)?;
        let mut teller = Announcer::new(alloc, config, sending)?;
        let mut said = Vec::new(alloc);
        if teller.start(&mut said).is_err() {
            return Err(Memory);
        }
        Ok(Joint {
            ends: Ends::new(taker, teller, Flight::new(alloc, said), Vec::new(alloc)),
            events: Vec::new(alloc),
            taker_closed: None,
            teller_closed: None,
            spent: false,
        })
    }

    /// Lets an event happen. After `Memory` the event counts as none: what [`taken`](Joint::taken) and
    /// [`closed`](Joint::closed) answer is as before it. Each later call answers `Memory`, and nothing changes any more.
    ///
    /// # Errors
    ///
    /// `Memory` where the machine refused memory.
    pub fn step(&mut self, event: Event) -> Result<(), Memory>
        requires { IsEnd event }
        ensures again { IsTrue self.old.spent → OnOk result ⊥ × (self.new ≡ self.old) }
        ensures done { OnOk result (self.new ≡ one_more event self.old) }
        ensures err { OnErr result (self.new ≡ refused self.old) }
    {
        if self.spent {
            return Err(Memory);
        }
        self.spent = true;
        self.events.reserve(1)?;
        self.ends.happen(event)?;
        self.events.push_reserved(event);
        self.taker_closed = self.ends.taker_closed();
        self.teller_closed = self.ends.teller_closed();
        self.spent = false;
        Ok(())
    }

    /// The update with this number, from 0, of those that the receiving end took; None past the last. A step that was
    /// refused took none.
    pub fn taken(&self, n: usize) -> Option<&Update>
        ensures { option_map (λ update. update.now) result ≡ slice_get (world_of self.now).taken n }
    {
        self.ends.taken(n)
    }

    /// How an end has closed; None while it is open. A step that was refused closed none.
    pub fn closed(&self, end: u8) -> Option<&Closed>
        requires { end ≤ 1 }
        ensures { option_copied result ≡ closed_at end (world_of self.now) }
    {
        if end == 0 {
            self.taker_closed.as_ref()
        } else {
            self.teller_closed.as_ref()
        }
    }
}
