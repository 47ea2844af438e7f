//! The receiving end of a session.

use crate::intake::Intake;
use crate::side::{Role, Side, refuse};
use crate::state::{Closed, Fed, State};
use fs_base::{Config, Memory};
use std::alloc::Global;
use std::marker::Model;

/// A session with a peer, fed with the octets that the peer sent, however they come in pieces. It takes the
/// peer's UPDATEs and says what is to be replied.
#[derive(Drop)]
pub struct Session<'a> {
    intake: Intake<'a>,
}

impl<'a> Model for Session<'a> {
    ghost use Rattle.std.specs.Prelude.{◌≡◌};
    ghost use Rattle.fs_session.specs.{Session.{Live, live_in}, declared.side.Role.TheVariants.{Receiver}};

    ghost Value = { Live };

    ghost view = { λ s. live_in s.intake };

    ghost invariant = { λ s. s.intake.side.role ≡ Receiver };
}

impl<'a> Session<'a> {
    ghost use Rattle.std.specs.Prelude.{◌≡◌, ◌<◌, ◌≤◌, ◌++◌, length, IfOk, IfSome, IsSome};
    ghost use Rattle.fs_base.specs.Config.{peer_of};
    ghost use Rattle.fs_session.specs.{Line.{closed_after, TicksOpen, CeasesOpen}, Session.{begins, state_of, line_of, StaysClosed, GoesOn, GoesOnAt}};

    /// A session with a peer of the configuration, before its first octet.
    pub fn new(alloc: Global, config: &'a Config, peer: u16) -> Result<Session<'a>, Memory>
        requires { IsSome (peer_of peer config.now.peers) }
        ensures { IfOk result (λ made. begins config.now peer ≡ Some made) }
    {
        let Some(found) = config.peer(peer) else {
            unreachable!();
        };
        let side = Side {
            config,
            peer: *found,
            role: Role::Receiver,
        };
        Ok(Session {
            intake: Intake::new(alloc, side)?,
        })
    }

    /// Takes octets of the piece: up to and with the end of the first message that ends in it, else all of
    /// them. The answer is how many, at least one of a piece that isn't empty, and the update where the
    /// message was one. To an OPEN our OPEN and a KEEPALIVE are appended to `replies`, to a fault a
    /// NOTIFICATION without data. Once closed, it answers the same again and takes nothing. After `Memory`
    /// `replies` is as it was. The moment is the greatest so far.
    pub fn feed(&mut self, piece: &[u8], replies: &mut Vec<u8>) -> Fed
        ensures again { StaysClosed self.old self.new result replies.old.items replies.new.items }
        ensures closed { self.new.closed ≡ closed_after result }
        ensures same { (self.new.config ≡ self.old.config) × (self.new.peer ≡ self.old.peer) }
        ensures some { IfOk result (λ fed. (fed.0 ≤ length piece.now) × (0 < length piece.now → 0 < fed.0)) }
        ensures exact { GoesOn self.old self.new piece.now replies.old.items replies.new.items result }
    {
        let moment = self.intake.greatest();
        self.feed_at(moment, piece, replies)
    }

    /// As [`feed`](Session::feed) at a moment in milliseconds: a message that is taken moves the moment of the last
    /// one taken. A moment that falls counts as the greatest so far.
    pub fn feed_at(&mut self, moment: u64, piece: &[u8], replies: &mut Vec<u8>) -> Fed
        ensures again { StaysClosed self.old self.new result replies.old.items replies.new.items }
        ensures closed { self.new.closed ≡ closed_after result }
        ensures same { (self.new.config ≡ self.old.config) × (self.new.peer ≡ self.old.peer) }
        ensures some { IfOk result (λ fed. (fed.0 ≤ length piece.now) × (0 < length piece.now → 0 < fed.0)) }
        ensures exact { GoesOnAt moment self.old self.new piece.now replies.old.items replies.new.items result }
    {
        self.intake.feed_at(moment, piece, replies)
    }

    /// The clock, at a moment in milliseconds. Where the agreed hold time has passed since the last message was
    /// taken, the session closes with 4/0 and its NOTIFICATION is appended (RFC 4271, section 6.5); else a
    /// KEEPALIVE is appended where a third of it has passed since the last one (section 4.4). Nothing is done
    /// before OPEN, nor with a hold time of 0. Once closed, it answers the same again. After `Memory` `replies` is
    /// as it was.
    pub fn tick(&mut self, moment: u64, replies: &mut Vec<u8>) -> Result<(), Closed>
        ensures again { StaysClosed self.old self.new result replies.old.items replies.new.items }
        ensures closed { self.new.closed ≡ closed_after result }
        ensures same { (self.new.config ≡ self.old.config) × (self.new.peer ≡ self.old.peer) }
        ensures exact { TicksOpen moment (line_of self.old) (line_of self.new) replies.old.items replies.new.items
            result }
    {
        self.intake.tick(moment, replies)
    }

    /// Closes the session with a NOTIFICATION Cease of this subcode (RFC 4486), which is appended. A session that
    /// is closed answers how, and nothing is appended. After `Memory` `replies` is as it was.
    pub fn cease(&mut self, subcode: u8, replies: &mut Vec<u8>) -> Result<(), Closed>
        ensures again { StaysClosed self.old self.new result replies.old.items replies.new.items }
        ensures same { (self.new.config ≡ self.old.config) × (self.new.peer ≡ self.old.peer) }
        ensures exact { CeasesOpen subcode (line_of self.old) self.new.closed replies.old.items replies.new.items
            result }
    {
        if let Some(why) = self.intake.closed() {
            return Err(why);
        }
        let why = refuse(CEASE, subcode, replies);
        self.intake.close(why);
        match why {
            Closed::Memory => Err(Closed::Memory),
            _ => Ok(()),
        }
    }

    /// How many routes the peer may hold at most, where that is bounded.
    pub fn max_routes(&self) -> Option<u32>
        ensures { result ≡ self.now.peer.max_routes }
    {
        self.intake.side().peer.max_routes
    }

    /// What has closed the session; None while it is open.
    pub fn closed(&self) -> Option<Closed>
        ensures { result ≡ self.now.closed }
    {
        self.intake.closed()
    }

    /// The session's state.
    pub fn state(&self) -> State
        ensures { result ≡ state_of self.now }
    {
        self.intake.state()
    }
}

/// The code of a NOTIFICATION Cease (RFC 4486).
const CEASE: u8 = 6;
