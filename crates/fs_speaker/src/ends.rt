//! Both ends and what is in flight between them.

use crate::end::{closes, hand, tick};
use crate::event::Event;
use crate::flight::Flight;
use fs_attrs::Update;
use fs_base::Memory;
use fs_session::{Announcer, Closed, Session};
use std::marker::Model;

/// The receiving end, the announcing end, what is in flight, and the updates that the receiving end took.
#[derive(Drop)]
pub struct Ends<'a> {
    taker: Session<'a>,
    teller: Announcer<'a>,
    flight: Flight,
    taken: Vec<Update>,
}

impl<'a> Model for Ends<'a> {
    ghost use Rattle.fs_speaker.specs.Ends.{Both, both};

    ghost Value = { Both };

    ghost view = { λ e. both e.taker e.teller e.flight e.taken.items };
}

impl<'a> Ends<'a> {
    ghost use Rattle.std.specs.Prelude.{◌≡◌, ◌≤◌, [], OnOk, OnErr, option_map, slice_get};
    ghost use Rattle.fs_speaker.specs.{Ends.{both, Becomes, SameOnes, says_next}, Joint.{IsEnd}, World.{delivers, wakes, cuts, happens}};

    /// Before the first event.
    pub fn new(
        taker: Session<'a>,
        teller: Announcer<'a>,
        flight: Flight,
        taken: Vec<Update>,
    ) -> Ends<'a>
        ensures { result ≡ both taker.entry teller.entry flight taken.items }
    {
        Ends {
            taker,
            teller,
            flight,
            taken,
        }
    }

    /// The announcing end says its next message.
    fn say(&mut self) -> Result<(), Memory>
        ensures ok { OnOk result (Becomes says_next self.old self.new) }
        ensures same { SameOnes self.old self.new }
        ensures err { OnErr result (self.new.taken ≡ self.old.taken) }
    {
        let mut said = Vec::new(self.flight.alloc());
        match self.teller.next_message(&mut said) {
            Ok(_) => self.flight.tell_taker(&said),
            Err(why) => closes(why),
        }
    }

    fn cut(&mut self)
        ensures done { Becomes (λ config peer sending. cuts) self.old self.new }
        ensures same { SameOnes self.old self.new }
    {
        self.flight.cut();
    }

    /// The first octets in flight to an end arrive there.
    fn deliver(&mut self, to: u8, count: usize, moment: u64) -> Result<(), Memory>
        requires { to ≤ 1 }
        ensures ok { OnOk result (Becomes (λ config peer sending. delivers config peer sending to count moment)
            self.old self.new) }
        ensures same { SameOnes self.old self.new }
        ensures err { OnErr result (self.new.taken ≡ self.old.taken) }
    {
        let mut updates = Vec::new(self.flight.alloc());
        let mut said = Vec::new(self.flight.alloc());
        if to == 0 {
            let piece = self.flight.take_taker(count)?;
            hand(&mut self.taker, moment, &piece, &mut updates, &mut said)?;
            self.flight.tell_teller(&said)?;
            self.taken.append(&mut updates)?;
            return Ok(());
        }
        let piece = self.flight.take_teller(count)?;
        hand(&mut self.teller, moment, &piece, &mut updates, &mut said)?;
        self.flight.tell_taker(&said)
    }

    /// The clock at an end.
    fn wake(&mut self, end: u8, moment: u64) -> Result<(), Memory>
        requires { end ≤ 1 }
        ensures ok { OnOk result (Becomes (λ config peer sending. wakes config peer sending end moment)
            self.old self.new) }
        ensures same { SameOnes self.old self.new }
        ensures err { OnErr result (self.new.taken ≡ self.old.taken) }
    {
        let mut said = Vec::new(self.flight.alloc());
        if end == 0 {
            tick(&mut self.taker, moment, &mut said)?;
            return self.flight.tell_teller(&said);
        }
        tick(&mut self.teller, moment, &mut said)?;
        self.flight.tell_taker(&said)
    }

    /// Lets an event happen.
    pub fn happen(&mut self, event: Event) -> Result<(), Memory>
        requires { IsEnd event }
        ensures ok { OnOk result (Becomes (λ config peer sending. happens config peer sending event)
            self.old self.new) }
        ensures same { SameOnes self.old self.new }
        ensures err { OnErr result (self.new.taken ≡ self.old.taken) }
    {
        match event {
            Event::Send => self.say(),
            Event::Deliver { to, count, moment } => self.deliver(to, count, moment),
            Event::Tick { end, moment } => self.wake(end, moment),
            Event::Cut => {
                self.cut();
                Ok(())
            }
        }
    }

    /// The update with this number.
    pub fn taken(&self, n: usize) -> Option<&Update>
        ensures { option_map (λ update. update.now) result ≡ slice_get self.now.taken n }
    {
        self.taken.get(n)
    }

    /// How the receiving end has closed.
    pub fn taker_closed(&self) -> Option<Closed>
        ensures { result ≡ self.now.taker.closed }
    {
        self.taker.closed()
    }

    /// How the announcing end has closed.
    pub fn teller_closed(&self) -> Option<Closed>
        ensures { result ≡ self.now.teller.line.closed }
    {
        self.teller.closed()
    }
}
