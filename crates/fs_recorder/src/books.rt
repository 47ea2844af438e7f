//! A tape that is written, and the desk that plays what is written onto it.

ghost use Rattle.std.specs.{Prelude.{◌≡◌, ◌≤◌, [], IfOk, IsSome, OnOk, OnErr, drop, length}, Result.{IsErrOf}};
ghost use Rattle.fs_base.specs.{Config.{peer_of}, Outside.{Rose}, Sink.{Grew, GrewPart}};
ghost use Rattle.fs_tape.specs.{Magic.{magic_of}, Tape.{came_up, received, was_lost}, declared.magic.Version.TheVariants.{Two}};
ghost use Rattle.fs_desk.specs.Desk.{ExpiresPlayed, ExpiresSo, HandsPeer, KeepsOthers, RepliesBehind, StaysPlayed, TicksPeer, session_at, standing_at_desk};
ghost use Rattle.fs_speaker.specs.Session.{begins};
ghost use Rattle.fs_recorder.specs.{Books.{Agrees, Tells, TellsPart}, Tapes.{begun, passed}};

use crate::scribe::{HEAD_SIZE, Kind, Scribe};
use crate::stop::Stop;
use fs_base::{Config, Sink};
use fs_desk::Desk;
use fs_speaker::Standing;
use std::alloc::Global;
use std::marker::Model;

/// A tape and the desk beside it. Each record is written before the desk hears of it.
#[derive(Drop)]
pub(crate) struct Books<'a> {
    desk: Desk<'a>,
    scribe: Scribe,
}

impl<'a> Model for Books<'a> {
    ghost use Rattle.fs_recorder.specs.Books.{Booked};

    ghost Value = { Booked };

    ghost view = { λ b. record { desk = b.desk; scribe = b.scribe } };
}

impl<'a> Books<'a> {
    /// Begins a tape. All peers are down.
    ///
    /// # Errors
    ///
    /// `Limit` where the magic is as long as the limit; `Failed` where the sink failed.
    pub fn begin<S: Sink>(
        alloc: Global,
        config: &'a Config,
        limit: u64,
        sink: &mut S,
    ) -> Result<Books<'a>, Stop>
        ensures later { S.faults sink.old ≤ S.faults sink.new }
        ensures failed { IsErrOf result Stop.Failed → Rose (S.faults sink.old) (S.faults sink.new) }
        ensures agrees { IfOk result (Agrees config.entry.now []) }
        ensures limit { IsErrOf result Stop.Limit → limit ≤ 8 }
        ensures begun { IfOk result (λ books. books.scribe ≡ begun limit) }
        ensures config { IfOk result (λ books. books.desk.config ≡ config.entry.now) }
        ensures written { OnOk result (Grew (S.written sink.old) (S.written sink.new) (magic_of Two)) }
        ensures err { OnErr result (GrewPart (S.written sink.old) (S.written sink.new) (magic_of Two)) }
    {
        let desk = Desk::new(alloc, config)?;
        let scribe = Scribe::begin(limit, sink)?;
        Ok(Books { desk, scribe })
    }

    /// The configuration.
    pub fn config(&self) -> &'a Config
        ensures { result.now ≡ self.now.desk.config }
    {
        self.desk.config()
    }

    /// How it stands with a peer.
    pub fn standing(&self, peer: u16) -> Standing
        ensures { result ≡ standing_at_desk self.now.desk peer }
    {
        self.desk.state(peer)
    }

    /// The clock on the wall says this moment.
    pub fn pass(&mut self, moment: u64)
        ensures { self.new ≡ record { desk = self.old.desk; scribe = passed moment self.old.scribe } }
    {
        self.scribe.pass(moment);
    }

    /// The peer comes up.
    ///
    /// # Errors
    ///
    /// As `Scribe::write` has them; `Memory` where the machine refused memory.
    pub fn up<S: Sink>(&mut self, peer: u16, sink: &mut S) -> Result<(), Stop>
        requires { IsSome (peer_of peer self.old.desk.config.peers) }
        ensures later { S.faults sink.old ≤ S.faults sink.new }
        ensures failed { IsErrOf result Stop.Failed → Rose (S.faults sink.old) (S.faults sink.new) }
        ensures told { OnOk result
            (Tells (came_up peer) self.old self.new (S.written sink.old) (S.written sink.new)) }
        ensures begun { OnOk result (session_at peer self.new.desk.sessions ≡ begins self.old.desk.config peer) }
        ensures others { OnOk result (KeepsOthers peer self.old.desk self.new.desk) }
        ensures err { OnErr result
            (TellsPart (IsErrOf result Stop.Limit) (came_up peer) self.old (S.written sink.old) (S.written sink.new)) }
    {
        let mut piece = [0u8; HEAD_SIZE];
        self.scribe.write(Kind::Up, peer, &mut piece, sink)?;
        self.desk.up(peer)?;
        Ok(())
    }

    /// The peer is lost.
    ///
    /// # Errors
    ///
    /// As `Scribe::write` has them.
    pub fn lost<S: Sink>(&mut self, peer: u16, sink: &mut S) -> Result<(), Stop>
        requires { IsSome (peer_of peer self.old.desk.config.peers) }
        ensures later { S.faults sink.old ≤ S.faults sink.new }
        ensures failed { IsErrOf result Stop.Failed → Rose (S.faults sink.old) (S.faults sink.new) }
        ensures told { OnOk result
            (Tells (was_lost peer) self.old self.new (S.written sink.old) (S.written sink.new)) }
        ensures others { OnOk result (KeepsOthers peer self.old.desk self.new.desk) }
        ensures err { OnErr result
            (TellsPart (IsErrOf result Stop.Limit) (was_lost peer) self.old (S.written sink.old) (S.written sink.new)) }
    {
        let mut piece = [0u8; HEAD_SIZE];
        self.scribe.write(Kind::Lost, peer, &mut piece, sink)?;
        self.desk.lost(peer);
        Ok(())
    }

    /// The peer sent what stands in `piece` behind room for a head. Its session's replies are appended.
    ///
    /// # Errors
    ///
    /// As `Scribe::write` has them; `Memory` where the machine refused memory.
    pub fn octets<S: Sink>(
        &mut self,
        peer: u16,
        piece: &mut [u8],
        replies: &mut Vec<u8>,
        sink: &mut S,
    ) -> Result<(), Stop>
        requires known { IsSome (peer_of peer self.old.desk.config.peers) }
        requires head { 15 ≤ length piece.old }
        requires long { length piece.old ≤ 65551 }
        ensures later { S.faults sink.old ≤ S.faults sink.new }
        ensures failed { IsErrOf result Stop.Failed → Rose (S.faults sink.old) (S.faults sink.new) }
        ensures told { OnOk result
            (Tells (received peer (drop 15 piece.old)) self.old self.new (S.written sink.old) (S.written sink.new)) }
        ensures err { OnErr result
            (TellsPart (IsErrOf result Stop.Limit) (received peer (drop 15 piece.old)) self.old (S.written sink.old) (S.written sink.new)) }
        ensures handed { OnOk result (HandsPeer peer self.old.desk self.new.desk (drop 15 piece.old)
            replies.old.items replies.new.items) }
        ensures others { OnOk result (KeepsOthers peer self.old.desk self.new.desk) }
        ensures replied { OnOk result (RepliesBehind peer self.old.desk (drop 15 piece.old)
            replies.old.items replies.new.items) }
    {
        self.scribe.write(Kind::Received, peer, piece, sink)?;
        self.desk.octets(peer, &piece[HEAD_SIZE..], replies)?;
        Ok(())
    }

    /// The clock of the peer's session, at a time in milliseconds. What the session says is appended to the replies.
    ///
    /// # Errors
    ///
    /// `Memory` where the machine refused memory.
    pub fn tick(&mut self, peer: u16, time: u64, replies: &mut Vec<u8>) -> Result<(), Stop>
        ensures memory { OnErr result (result ≡ Err Stop.Memory) }
        ensures ticked { OnOk result
            (TicksPeer peer time self.old.desk self.new.desk replies.old.items replies.new.items) }
        ensures played { OnOk result (StaysPlayed peer self.old.desk self.new.desk) }
        ensures expired { OnOk result (ExpiresSo peer self.old.desk self.new.desk) }
        ensures others { OnOk result (ExpiresPlayed peer self.old.desk self.new.desk) }
        ensures config { self.new.desk.config ≡ self.old.desk.config }
        ensures scribe { self.new.scribe ≡ self.old.scribe }
    {
        self.desk.tick(peer, time, replies)?;
        Ok(())
    }
}
