//! The sessions with all configured peers, and the table of the routes that they hold.

ghost use Rattle.std.specs.Prelude.{◌≡◌, ◌<◌, ℕ, Bool, false, List, [], IsSome, IsOk, IfOk, OnOk, OnErr, Some};

use crate::hold_timer::tick_session;
use crate::receive::receive;
use crate::watched::Watched;
use fs_base::{Config, Memory, Steps};
use fs_rules::{Changes, Table};
use fs_speaker::{Session, Standing};
use std::alloc::Global;
use std::collections::BTreeMap;
use std::marker::{Brand, Model};
use std::sync::ledger::{Blank, Ledger};

/// The sessions with the peers that are up, by their numbers, and the table of the routes that all peers hold.
#[derive(Drop)]
pub struct Desk<'a> {
    alloc: Global,
    config: &'a Config,
    watched: Watched<'a>,
    sessions: BTreeMap<u16, Session<'a>>,
}

impl<'a> Model for Desk<'a> {
    ghost use Rattle.fs_desk.specs.Desk.{Desked};

    ghost Value = { Desked };

    ghost view = { λ d. record {
      config = d.config.now;
      held = d.watched.table;
      changes = d.watched.changes;
      sessions = d.sessions.entries;
    } };
}

impl<'a> Desk<'a> {
    ghost use Rattle.fs_base.specs.{declared.config.Config.{Config}, Config.{peer_of}};
    ghost use Rattle.fs_tape.specs.Tape.{Item, came_up, received, was_lost};
    ghost use Rattle.fs_desk.specs.Desk.{ExpiresPlayed, ExpiresSo, HandsPeer, IdlesOctets, IdlesTick, KeepsOthers, Notes, Played, PlayedBut, Plays};
    ghost use Rattle.fs_desk.specs.Desk.{RepliesBehind, StaysPlayed, TicksPeer, session_at, standing_at_desk, standing_but};
    ghost use Rattle.fs_desk.specs.Leaves.{LeavesBut};
    ghost use Rattle.fs_rules.specs.Table.{held_count};
    ghost use Rattle.fs_speaker.specs.Session.{begins};

    /// Every configured peer is down, and nothing is held. Never an error.
    pub fn new(alloc: Global, config: &'a Config) -> Result<Desk<'a>, Memory>
        ensures never { IsOk result }
        ensures played { IfOk result (Played config.entry.now []) }
    {
        Ok(Desk {
            alloc,
            config,
            watched: Watched {
                table: Table::new(alloc, config),
                changes: Changes::new(alloc),
            },
            sessions: BTreeMap::new(alloc),
        })
    }

    /// The peer comes up with a new session. One that was up is lost first. After `Memory` the peer is lost.
    pub fn up(&mut self, peer: u16) -> Result<(), Memory>
        requires { IsSome (peer_of peer self.old.config.peers) }
        ensures played { OnOk result (Plays (came_up peer) self.old self.new) }
        ensures lost { OnErr result (Plays (was_lost peer) self.old self.new) }
        ensures begun { OnOk result (session_at peer self.new.sessions ≡ begins self.old.config peer) }
        ensures others { OnOk result (KeepsOthers peer self.old self.new) }
        ensures config { self.new.config ≡ self.old.config }
        ensures told { OnOk result (Notes self.old self.new) }
        ensures idle { held_count peer self.old.held ≡ 0 → self.new.changes ≡ self.old.changes }
    {
        self.lost(peer);
        let session = Session::new(self.alloc, self.config, peer)?;
        self.sessions.insert(peer, session)?;
        Ok(())
    }

    /// The peer is lost, and with it all that it held. It needs not be up. Where it held nothing, no change is noted.
    pub fn lost(&mut self, peer: u16)
        ensures played { Plays (was_lost peer) self.old self.new }
        ensures others { KeepsOthers peer self.old self.new }
        ensures config { self.new.config ≡ self.old.config }
        ensures told { Notes self.old self.new }
        ensures idle { held_count peer self.old.held ≡ 0 → self.new.changes ≡ self.old.changes }
    {
        lose::<Brand>(Blank::new(1), &mut self.watched, peer);
        self.sessions.remove(&peer);
    }

    /// The peer sent these octets. Those of a peer that is down or whose session has closed are skipped. Where an
    /// update leaves the peer holding more routes than it may, the peer holds nothing any more and its session closes
    /// (RFC 4486, section 4). The replies of its session are appended to `replies`: to its OPEN the local OPEN and a
    /// KEEPALIVE, to a fault or such an update a NOTIFICATION (RFC 4271 section 6). The octets are heard at the
    /// greatest moment of the session so far: that of the last [`tick`](Desk::tick). Messages that announce and
    /// withdraw nothing note no change, unless the session closes and the peer held a route. After `Memory` `replies`
    /// is as before.
    pub fn octets(&mut self, peer: u16, piece: &[u8], replies: &mut Vec<u8>) -> Result<(), Memory>
        ensures played { OnOk result (Plays (received peer piece.now) self.old self.new) }
        ensures replied { OnOk result (RepliesBehind peer self.old piece.now replies.old.items replies.new.items) }
        ensures handed { OnOk result
            (HandsPeer peer self.old self.new piece.now replies.old.items replies.new.items) }
        ensures others { OnOk result (KeepsOthers peer self.old self.new) }
        ensures err { OnErr result (replies.new.items ≡ replies.old.items) }
        ensures config { self.new.config ≡ self.old.config }
        ensures told { OnOk result (Notes self.old self.new) }
        ensures idle { OnOk result (IdlesOctets peer piece.now self.old self.new) }
    {
        let start = replies.len();
        let Some(session) = self.sessions.get_mut(&peer) else {
            return Ok(());
        };
        let watched = &mut self.watched;
        match receive::<Brand>(Blank::new(1), session, watched, peer, piece, replies) {
            Ok(()) => Ok(()),
            Err(memory) => {
                replies.truncate(start);
                Err(memory)
            }
        }
    }

    /// The clock of the session with a peer, at a moment in milliseconds. Where the agreed hold time has passed since
    /// the last message was taken, the session closes with 4/0, its NOTIFICATION is appended to `replies`, and the
    /// peer holds nothing any more (RFC 4271, section 6.5); else a KEEPALIVE is appended where a third of it has passed
    /// since the last one. Nothing is done for a peer that is down or whose session has closed, before its OPEN, nor
    /// with a hold time of 0. All other peers go on. A change is noted only where a session closes and the peer held a
    /// route. After `Memory` `replies` is as before.
    pub fn tick(&mut self, peer: u16, moment: u64, replies: &mut Vec<u8>) -> Result<(), Memory>
        ensures ticked { OnOk result (TicksPeer peer moment self.old self.new replies.old.items replies.new.items) }
        ensures played { OnOk result (StaysPlayed peer self.old self.new) }
        ensures expired { OnOk result (ExpiresSo peer self.old self.new) }
        ensures others { OnOk result (ExpiresPlayed peer self.old self.new) }
        ensures err { OnErr result (replies.new.items ≡ replies.old.items) }
        ensures config { self.new.config ≡ self.old.config }
        ensures told { OnOk result (Notes self.old self.new) }
        ensures idle { OnOk result (IdlesTick peer self.old self.new) }
    {
        let Some(session) = self.sessions.get_mut(&peer) else {
            return Ok(());
        };
        let watched = &mut self.watched;
        tick_session::<Brand>(Blank::new(1), session, watched, peer, moment, replies)?;
        Ok(())
    }

    /// Notes changes of the admitted rules from here on.
    pub fn watch(&mut self)
        ensures { self.new ≡ record self.old { changes = record { places = []; all = false } } }
    {
        self.watched.changes.clear();
    }

    /// Where the rules that are admitted may be others than at the last [`watch`](Desk::watch).
    pub fn changes(&self) -> &Changes
        ensures { result.now ≡ self.now.changes }
    {
        &self.watched.changes
    }

    /// The configuration.
    pub fn config(&self) -> &'a Config
        ensures { result.now ≡ self.now.config }
    {
        self.config
    }

    /// How it stands with a peer: it is down, or its session is open in a state, or its session has closed.
    pub fn state(&self, peer: u16) -> Standing
        ensures state { result ≡ standing_at_desk self.now peer }
        ensures played { (expired : ℕ → Bool) (config : Config) (items : List Item)
            → PlayedBut expired config items self.now → result ≡ standing_but expired config items peer }
    {
        match self.sessions.get(&peer) {
            None => Standing::Down,
            Some(session) => standing(session),
        }
    }

    /// The table of the routes that peers hold.
    pub fn table(&self) -> &Table<'a>
        ensures table { result.now ≡ self.now.held }
        ensures left { (expired : ℕ → Bool) (config : Config) (items : List Item)
            → PlayedBut expired config items self.now → LeavesBut expired config items result.now }
    {
        &self.watched.table
    }
}

ghost use Rattle.fs_rules.specs.Table.{without_peer, held_count};
ghost use Rattle.fs_desk.specs.Watched.{Tells};
ghost use Rattle.fs_speaker.specs.State.{standing_by};

/// How it stands with the peer of a session.
fn standing(session: &Session<'_>) -> Standing
    ensures { result ≡ standing_by (Some session.now) }
{
    match session.closed() {
        Some(why) => Standing::Ended(why),
        None => Standing::Live(session.state()),
    }
}

/// Takes all that the peer holds out of the table.
fn lose<L: Ledger>(blank: Blank, watched: &mut Watched<'_>, peer: u16)
    requires name { blank.name ≡ L.name }
    requires parts { blank.parts ≡ L.parts }
    requires some { 0 < L.parts }
    ensures lost { watched.new.table ≡ without_peer peer watched.old.table }
    ensures told { Tells watched.old watched.new }
    ensures idle { held_count peer watched.old.table ≡ 0 → watched.new.changes ≡ watched.old.changes }
{
    let mut steps = Steps::<L>::new(blank);
    let changes = &mut watched.changes;
    watched.table.lose_telling(peer, changes, &mut steps);
}
