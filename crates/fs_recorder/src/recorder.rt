//! The sessions with all configured peers, each over a connection of its own, and the tape of what they say.

ghost use Rattle.std.specs.{Prelude.{◌≡◌, ◌≤◌, ℕ, Bool, [], IfOk, IfSome, IsSome, OnOk, OnErr, drop, length}, Result.{IsErrOf}};
ghost use Rattle.fs_base.specs.{Config.{peer_of}, Gate.{FitsIn, taken, what_from}, Outside.{Rose}, Sink.{Grew, GrewPart}};
ghost use Rattle.fs_tape.specs.{Magic.{magic_of}, Tape.{was_lost}, declared.magic.Version.TheVariants.{Two}};
ghost use Rattle.fs_desk.specs.Desk.{expired_after};
ghost use Rattle.fs_recorder.specs.Books.{Agrees, Tells, TellsPart};
ghost use Rattle.fs_recorder.specs.Deeds.{AreKnown, Does, IsKnown, StayKnown, asked_in, is_closed, leaves, passing, says, stands_established};
ghost use Rattle.fs_recorder.specs.Door.{empty_door, without_guest};
ghost use Rattle.fs_recorder.specs.Steps.{admits, checks, checks_peer, comes, door_after, door_with, empty_station, ends, follows, gives, hears};
ghost use Rattle.fs_recorder.specs.Steps.{hears_octets, hurries_where_new, is_established, peer_for, peers_in, receives, replaces, speaks};
ghost use Rattle.fs_recorder.specs.Steps.{sweeps, sweeps_all, takes, vacates, waits, wakes};
ghost use Rattle.fs_recorder.specs.Tapes.{begun};
ghost use Rattle.fs_recorder.specs.Works.{BreaksAt, Left, RanAnswer, RanAt, RanHear, RanQuietly, RanSeat, RanSo, Stands, WakesSo};

use crate::books::Books;
use crate::door::{Door, Guest, has_time, said_as};
use crate::scribe::HEAD_SIZE;
use crate::seats::{Seat, add, are_told_apart, first_peer, free_by, remove, seat_for, seat_of};
use crate::stop::Stop;
use fs_base::{Address, Came, Config, Event, Gate, Sink};
use fs_speaker::{Standing, State};
use std::alloc::Global;
use std::marker::Model;

/// The NOTIFICATION of an expired hold time (RFC 4271, sections 4.5 and 6.5).
const EXPIRED: [u8; 21] = [
    255, 255, 255, 255, 255, 255, 255, 255, 255, 255, 255, 255, 255, 255, 255, 255, 0, 21, 3, 4, 0,
];

/// The sessions with all configured peers, and the tape of what they say.
#[derive(Drop)]
pub struct Recorder<'a> {
    books: Books<'a>,
    seats: Vec<Seat>,
    door: Door,
    replies: Vec<u8>,
}

impl<'a> Model for Recorder<'a> {
    ghost use Rattle.fs_recorder.specs.Deeds.{Recording};

    ghost Value = { Recording };

    ghost view = { λ r. record { books = r.books; seats = r.seats.items; door = r.door; replies = r.replies.items } };
}

impl<'a> Recorder<'a> {
    /// Begins a tape. No peer is up.
    ///
    /// # Errors
    ///
    /// `Limit` where the magic is as long as the limit; `Failed` where the sink failed.
    pub fn begin<S: Sink>(
        alloc: Global,
        config: &'a Config,
        limit: u64,
        sink: &mut S,
    ) -> Result<Recorder<'a>, Stop>
        ensures later { S.faults sink.old ≤ S.faults sink.new }
        ensures failed { IsErrOf result Stop.Failed → Rose (S.faults sink.old) (S.faults sink.new) }
        ensures agrees { IfOk result (λ recorder. Agrees config.entry.now [] recorder.books) }
        ensures limit { IsErrOf result Stop.Limit → limit ≤ 8 }
        ensures begun { IfOk result (λ recorder. recorder.books.scribe ≡ begun limit) }
        ensures config { IfOk result (λ recorder. recorder.books.desk.config ≡ config.entry.now) }
        ensures empty { IfOk result (λ recorder. recorder.seats ≡ []) }
        ensures stands { IfOk result (Stands empty_station) }
        ensures door { IfOk result (λ recorder. recorder.door ≡ empty_door) }
        ensures written { OnOk result (Grew (S.written sink.old) (S.written sink.new) (magic_of Two)) }
        ensures err { OnErr result (GrewPart (S.written sink.old) (S.written sink.new) (magic_of Two)) }
    {
        let books = Books::begin(alloc, config, limit, sink)?;
        Ok(Recorder {
            books,
            seats: Vec::new(alloc),
            door: Door::new(alloc),
            replies: Vec::new(alloc),
        })
    }

    /// Does what an event calls for. Octets that came stand in `buffer` behind room for a record's head.
    ///
    /// # Errors
    ///
    /// `Limit` where the next record would make the tape as long as the limit; `Failed` where the sink failed; `Memory`
    /// where the machine refused memory.
    pub fn hear<G: Gate, S: Sink>(
        &mut self,
        event: Event,
        buffer: &mut [u8],
        gate: &mut G,
        sink: &mut S,
    ) -> Result<(), Stop>
        requires known { AreKnown self.old.books.desk.config self.old.seats }
        requires head { 15 ≤ length buffer.old }
        requires long { length buffer.old ≤ 65551 }
        requires fits { FitsIn event.came (drop 15 buffer.old) }
        ensures still { G.faults gate.new ≡ G.faults gate.old }
        ensures later { S.faults sink.old ≤ S.faults sink.new }
        ensures failed { IsErrOf result Stop.Failed → Rose (S.faults sink.old) (S.faults sink.new) }
        ensures size { length buffer.new ≡ length buffer.old }
        ensures ran { RanHear result
            (door_after self.old.books.desk.config event.time (what_from event.came (drop 15 buffer.old)) self.old.seats self.old.door)
            (hears self.old.books.desk.config self.old.door event.time (what_from event.came (drop 15 buffer.old)))
            (passing event.moment self.old) self.new
            (G.turns gate.old) (G.turns gate.new) (S.written sink.old) (S.written sink.new) }
        ensures stay { OnOk result (StayKnown (passing event.moment self.old) self.new) }
    {
        self.books.pass(event.moment);
        self.follow(event, buffer, gate, sink)?;
        if !self.door.is_due(event.time) {
            return Ok(());
        }
        self.door.clear(event.time, gate);
        self.sweep(event.time, gate, sink)
    }

    /// Does what an event calls for itself.
    fn follow<G: Gate, S: Sink>(
        &mut self,
        event: Event,
        buffer: &mut [u8],
        gate: &mut G,
        sink: &mut S,
    ) -> Result<(), Stop>
        requires known { AreKnown self.old.books.desk.config self.old.seats }
        requires head { 15 ≤ length buffer.old }
        requires long { length buffer.old ≤ 65551 }
        requires fits { FitsIn event.came (drop 15 buffer.old) }
        ensures still { G.faults gate.new ≡ G.faults gate.old }
        ensures later { S.faults sink.old ≤ S.faults sink.new }
        ensures failed { IsErrOf result Stop.Failed → Rose (S.faults sink.old) (S.faults sink.new) }
        ensures size { length buffer.new ≡ length buffer.old }
        ensures ran { RanHear result
            (door_with self.old.books.desk.config event.time (what_from event.came (drop 15 buffer.old)) self.old.seats self.old.door)
            (follows self.old.books.desk.config self.old.door.guests event.time (what_from event.came (drop 15 buffer.old)))
            self.old self.new
            (G.turns gate.old) (G.turns gate.new) (S.written sink.old) (S.written sink.new) }
        ensures stay { OnOk result (StayKnown self.old self.new) }
    {
        match event.came {
            Came::Taken { line, from } => self.come(line, from, event.time, gate, sink),
            Came::Octets { line, count } => {
                let piece = &mut buffer[..HEAD_SIZE + count];
                self.give(line, event.time, piece, gate, sink)
            }
            Came::Ended { line } => {
                self.door.call(line);
                self.end(line, sink)
            }
            Came::Made { .. } | Came::Nothing => Ok(()),
        }
    }

    /// A connection was taken. Where the free peers of its address are told apart by the AS of an OPEN it waits for its own,
    /// if fewer wait than there are peers.
    fn come<G: Gate, S: Sink>(
        &mut self,
        line: u64,
        from: Address,
        time: u64,
        gate: &mut G,
        sink: &mut S,
    ) -> Result<(), Stop>
        requires known { AreKnown self.old.books.desk.config self.old.seats }
        ensures still { G.faults gate.new ≡ G.faults gate.old }
        ensures later { S.faults sink.old ≤ S.faults sink.new }
        ensures failed { IsErrOf result Stop.Failed → Rose (S.faults sink.old) (S.faults sink.new) }
        ensures ran { RanHear result
            (door_with self.old.books.desk.config time (taken line from) self.old.seats self.old.door)
            (comes self.old.books.desk.config line from time self.old.door.guests) self.old self.new
            (G.turns gate.old) (G.turns gate.new) (S.written sink.old) (S.written sink.new) }
        ensures stay { OnOk result (StayKnown self.old self.new) }
    {
        if self.waits(from) {
            let since = time;
            self.door.keep(Guest { line, from, since })?;
            return Ok(());
        }
        self.take(line, from, None, time, gate, sink)
    }

    fn waits(&self, from: Address) -> bool
        ensures { result ≡ waits self.now.books.desk.config from self.now.seats self.now.door.guests }
    {
        let peers = self.books.config().peers.as_slice();
        are_told_apart(peers, &self.seats, from) && self.door.count() < peers.len()
    }

    /// A connection speaks from now on for the first configured peer of its address for which none speaks, of those with the
    /// AS that was told if there is one. Where no such peer is left, and no hold time is configured, it replaces the
    /// connection of the first peer of its address; else it is closed (RFC 4271, section 6.8).
    fn take<G: Gate, S: Sink>(
        &mut self,
        line: u64,
        from: Address,
        told: Option<u16>,
        since: u64,
        gate: &mut G,
        sink: &mut S,
    ) -> Result<(), Stop>
        requires known { AreKnown self.old.books.desk.config self.old.seats }
        ensures still { G.faults gate.new ≡ G.faults gate.old }
        ensures later { S.faults sink.old ≤ S.faults sink.new }
        ensures failed { IsErrOf result Stop.Failed → Rose (S.faults sink.old) (S.faults sink.new) }
        ensures ran { RanSo result (takes self.old.books.desk.config line from told since) self.old self.new
            (G.turns gate.old) (G.turns gate.new) (S.written sink.old) (S.written sink.new) }
        ensures stay { OnOk result (StayKnown self.old self.new) }
    {
        match self.peer_for(from, told) {
            Some(peer) => self.replace(line, peer, since, gate, sink),
            None => {
                gate.close(line);
                Ok(())
            }
        }
    }

    /// The peer for which a connection from this address is to speak.
    fn peer_for(&self, from: Address, told: Option<u16>) -> Option<u16>
        ensures found { result ≡ peer_for self.now.books.desk.config from told self.now.seats }
        ensures known { IfSome result (λ peer. IsSome (peer_of peer self.now.books.desk.config.peers)) }
    {
        let config = self.books.config();
        let peers = config.peers.as_slice();
        if let Some(peer) = free_by(peers, &self.seats, from, told) {
            return Some(peer.number);
        }
        match first_peer(peers, from) {
            Some(peer) if config.hold_time == 0 => Some(peer.number),
            _ => None,
        }
    }

    /// The connection speaks for the peer. An earlier one that does is closed.
    fn replace<G: Gate, S: Sink>(
        &mut self,
        line: u64,
        peer: u16,
        since: u64,
        gate: &mut G,
        sink: &mut S,
    ) -> Result<(), Stop>
        requires known { AreKnown self.old.books.desk.config self.old.seats }
        requires peer { IsSome (peer_of peer self.old.books.desk.config.peers) }
        ensures still { G.faults gate.new ≡ G.faults gate.old }
        ensures later { S.faults sink.old ≤ S.faults sink.new }
        ensures failed { IsErrOf result Stop.Failed → Rose (S.faults sink.old) (S.faults sink.new) }
        ensures ran { RanSo result (replaces line peer since) self.old self.new
            (G.turns gate.old) (G.turns gate.new) (S.written sink.old) (S.written sink.new) }
        ensures stay { OnOk result (StayKnown self.old self.new) }
    {
        self.vacate(peer, gate, sink)?;
        self.seat(Seat { line, peer, since }, sink)
    }

    /// The connection that speaks for the peer, if one does, is closed.
    fn vacate<G: Gate, S: Sink>(
        &mut self,
        peer: u16,
        gate: &mut G,
        sink: &mut S,
    ) -> Result<(), Stop>
        requires known { AreKnown self.old.books.desk.config self.old.seats }
        ensures still { G.faults gate.new ≡ G.faults gate.old }
        ensures later { S.faults sink.old ≤ S.faults sink.new }
        ensures failed { IsErrOf result Stop.Failed → Rose (S.faults sink.old) (S.faults sink.new) }
        ensures ran { RanSo result (vacates peer) self.old self.new
            (G.turns gate.old) (G.turns gate.new) (S.written sink.old) (S.written sink.new) }
        ensures config { OnOk result (self.new.books.desk.config ≡ self.old.books.desk.config) }
        ensures stay { OnOk result (StayKnown self.old self.new) }
    {
        match seat_for(&self.seats, peer) {
            Some(seat) => self.dismiss(seat, gate, sink),
            None => Ok(()),
        }
    }

    /// A peer takes its seat.
    fn seat<S: Sink>(&mut self, seat: Seat, sink: &mut S) -> Result<(), Stop>
        requires { IsKnown self.old.books.desk.config seat }
        ensures later { S.faults sink.old ≤ S.faults sink.new }
        ensures failed { IsErrOf result Stop.Failed → Rose (S.faults sink.old) (S.faults sink.new) }
        ensures stay { OnOk result (StayKnown self.old self.new) }
        ensures ran { RanSeat result seat self.old self.new (S.written sink.old) (S.written sink.new) }
    {
        self.books.up(seat.peer, sink)?;
        add(&mut self.seats, seat)?;
        Ok(())
    }

    /// The connection of this seat is closed, and its peer lost.
    fn dismiss<G: Gate, S: Sink>(
        &mut self,
        seat: Seat,
        gate: &mut G,
        sink: &mut S,
    ) -> Result<(), Stop>
        requires { IsKnown self.old.books.desk.config seat }
        ensures still { G.faults gate.new ≡ G.faults gate.old }
        ensures later { S.faults sink.old ≤ S.faults sink.new }
        ensures failed { IsErrOf result Stop.Failed → Rose (S.faults sink.old) (S.faults sink.new) }
        ensures leaves { OnOk result ((expired : ℕ → Bool)
            → Does expired (expired_after (was_lost seat.peer) expired) (leaves seat) self.old.books self.new.books
            (G.turns gate.old) (G.turns gate.new) (S.written sink.old) (S.written sink.new)) }
        ensures stay { OnOk result (StayKnown self.old self.new) }
        ensures left { OnOk result (Left seat self.old self.new) }
        ensures breaks { OnErr result (BreaksAt (IsErrOf result Stop.Limit) (leaves seat) self.old.books
            (G.turns gate.old) (G.turns gate.new) (S.written sink.old) (S.written sink.new)) }
    {
        gate.close(seat.line);
        self.lose(seat, sink)
    }

    /// The peer of this seat is lost.
    fn lose<S: Sink>(&mut self, seat: Seat, sink: &mut S) -> Result<(), Stop>
        requires { IsKnown self.old.books.desk.config seat }
        ensures later { S.faults sink.old ≤ S.faults sink.new }
        ensures failed { IsErrOf result Stop.Failed → Rose (S.faults sink.old) (S.faults sink.new) }
        ensures told { OnOk result
            (Tells (was_lost seat.peer) self.old.books self.new.books (S.written sink.old) (S.written sink.new)) }
        ensures stay { OnOk result (StayKnown self.old self.new) }
        ensures err { OnErr result
            (TellsPart (IsErrOf result Stop.Limit) (was_lost seat.peer) self.old.books (S.written sink.old) (S.written sink.new)) }
        ensures left { OnOk result (Left seat self.old self.new) }
    {
        remove(&mut self.seats, seat.line);
        self.books.lost(seat.peer, sink)
    }

    /// A connection has ended: the peer for which it spoke is lost.
    fn end<S: Sink>(&mut self, line: u64, sink: &mut S) -> Result<(), Stop>
        requires known { AreKnown self.old.books.desk.config self.old.seats }
        ensures later { S.faults sink.old ≤ S.faults sink.new }
        ensures failed { IsErrOf result Stop.Failed → Rose (S.faults sink.old) (S.faults sink.new) }
        ensures stay { OnOk result (StayKnown self.old self.new) }
        ensures ran { RanQuietly result (ends line) self.old self.new (S.written sink.old) (S.written sink.new) }
    {
        match seat_of(&self.seats, line) {
            Some(seat) => self.lose(seat, sink),
            None => Ok(()),
        }
    }

    /// A connection gave octets: it speaks for a peer from now on if it waited for its OPEN.
    fn give<G: Gate, S: Sink>(
        &mut self,
        line: u64,
        time: u64,
        piece: &mut [u8],
        gate: &mut G,
        sink: &mut S,
    ) -> Result<(), Stop>
        requires known { AreKnown self.old.books.desk.config self.old.seats }
        requires head { 15 ≤ length piece.old }
        requires long { length piece.old ≤ 65551 }
        ensures still { G.faults gate.new ≡ G.faults gate.old }
        ensures later { S.faults sink.old ≤ S.faults sink.new }
        ensures failed { IsErrOf result Stop.Failed → Rose (S.faults sink.old) (S.faults sink.new) }
        ensures ran { RanHear result (without_guest line self.old.door)
            (gives self.old.books.desk.config line time (drop 15 piece.old) self.old.door.guests) self.old self.new
            (G.turns gate.old) (G.turns gate.new) (S.written sink.old) (S.written sink.new) }
        ensures stay { OnOk result (StayKnown self.old self.new) }
    {
        self.admit(line, &piece[HEAD_SIZE..], gate, sink)?;
        self.octets(line, time, piece, gate, sink)
    }

    /// The first octets of a connection that waits for its OPEN: it waits no more.
    fn admit<G: Gate, S: Sink>(
        &mut self,
        line: u64,
        octets: &[u8],
        gate: &mut G,
        sink: &mut S,
    ) -> Result<(), Stop>
        requires known { AreKnown self.old.books.desk.config self.old.seats }
        ensures still { G.faults gate.new ≡ G.faults gate.old }
        ensures later { S.faults sink.old ≤ S.faults sink.new }
        ensures failed { IsErrOf result Stop.Failed → Rose (S.faults sink.old) (S.faults sink.new) }
        ensures ran { RanHear result (without_guest line self.old.door)
            (admits self.old.books.desk.config line octets.now self.old.door.guests) self.old self.new
            (G.turns gate.old) (G.turns gate.new) (S.written sink.old) (S.written sink.new) }
        ensures stay { OnOk result (StayKnown self.old self.new) }
    {
        match self.door.call(line) {
            Some(guest) => {
                let told = said_as(octets);
                self.take(line, guest.from, told, guest.since, gate, sink)
            }
            None => Ok(()),
        }
    }

    /// A connection gave octets: first the clock of its session is heard, and then they are.
    fn octets<G: Gate, S: Sink>(
        &mut self,
        line: u64,
        time: u64,
        piece: &mut [u8],
        gate: &mut G,
        sink: &mut S,
    ) -> Result<(), Stop>
        requires known { AreKnown self.old.books.desk.config self.old.seats }
        requires head { 15 ≤ length piece.old }
        requires long { length piece.old ≤ 65551 }
        ensures still { G.faults gate.new ≡ G.faults gate.old }
        ensures later { S.faults sink.old ≤ S.faults sink.new }
        ensures failed { IsErrOf result Stop.Failed → Rose (S.faults sink.old) (S.faults sink.new) }
        ensures ran { RanSo result (hears_octets self.old.books.desk.config line time (drop 15 piece.old)) self.old self.new
            (G.turns gate.old) (G.turns gate.new) (S.written sink.old) (S.written sink.new) }
        ensures stay { OnOk result (StayKnown self.old self.new) }
    {
        match seat_of(&self.seats, line) {
            Some(seat) => self.speak(seat, time, piece, gate, sink),
            None => Ok(()),
        }
    }

    /// The clock of a seat's session, and where it is still open behind it, these octets.
    fn speak<G: Gate, S: Sink>(
        &mut self,
        seat: Seat,
        time: u64,
        piece: &mut [u8],
        gate: &mut G,
        sink: &mut S,
    ) -> Result<(), Stop>
        requires known { IsKnown self.old.books.desk.config seat }
        requires head { 15 ≤ length piece.old }
        requires long { length piece.old ≤ 65551 }
        ensures still { G.faults gate.new ≡ G.faults gate.old }
        ensures later { S.faults sink.old ≤ S.faults sink.new }
        ensures failed { IsErrOf result Stop.Failed → Rose (S.faults sink.old) (S.faults sink.new) }
        ensures ran { RanAt result seat (λ place. speaks self.old.books.desk.config time place (drop 15 piece.old)) self.old self.new
            (G.turns gate.old) (G.turns gate.new) (S.written sink.old) (S.written sink.new) }
        ensures stay { OnOk result (StayKnown self.old self.new) }
    {
        let is_open = self.wake(seat, time, gate, sink)?;
        if !is_open {
            return Ok(());
        }
        self.receive(seat, piece, gate, sink)
    }

    /// Octets of a seat's session, which is open.
    fn receive<G: Gate, S: Sink>(
        &mut self,
        seat: Seat,
        piece: &mut [u8],
        gate: &mut G,
        sink: &mut S,
    ) -> Result<(), Stop>
        requires known { IsKnown self.old.books.desk.config seat }
        requires head { 15 ≤ length piece.old }
        requires long { length piece.old ≤ 65551 }
        ensures still { G.faults gate.new ≡ G.faults gate.old }
        ensures later { S.faults sink.old ≤ S.faults sink.new }
        ensures failed { IsErrOf result Stop.Failed → Rose (S.faults sink.old) (S.faults sink.new) }
        ensures ran { RanAt result seat (λ place. receives self.old.books.desk.config place (drop 15 piece.old)) self.old self.new
            (G.turns gate.old) (G.turns gate.new) (S.written sink.old) (S.written sink.new) }
        ensures stay { OnOk result (StayKnown self.old self.new) }
    {
        self.replies.clear();
        self.books
            .octets(seat.peer, piece, &mut self.replies, sink)?;
        self.answer(seat, gate, sink)?;
        Ok(())
    }

    /// The clock of a seat's session. Answers whether it is still open.
    fn wake<G: Gate, S: Sink>(
        &mut self,
        seat: Seat,
        time: u64,
        gate: &mut G,
        sink: &mut S,
    ) -> Result<bool, Stop>
        requires { IsKnown self.old.books.desk.config seat }
        ensures still { G.faults gate.new ≡ G.faults gate.old }
        ensures later { S.faults sink.old ≤ S.faults sink.new }
        ensures failed { IsErrOf result Stop.Failed → Rose (S.faults sink.old) (S.faults sink.new) }
        ensures ran { RanAt result seat (wakes time) self.old self.new
            (G.turns gate.old) (G.turns gate.new) (S.written sink.old) (S.written sink.new) }
        ensures stay { OnOk result (StayKnown self.old self.new) }
        ensures lives { IfOk result (λ lives. WakesSo time seat self.old lives) }
        ensures config { OnOk result (self.new.books.desk.config ≡ self.old.books.desk.config) }
    {
        self.replies.clear();
        self.books.tick(seat.peer, time, &mut self.replies)?;
        self.answer(seat, gate, sink)
    }

    /// Sends what a seat's session replied. Where it has closed the seat goes. Answers whether it is still open.
    fn answer<G: Gate, S: Sink>(
        &mut self,
        seat: Seat,
        gate: &mut G,
        sink: &mut S,
    ) -> Result<bool, Stop>
        requires { IsKnown self.old.books.desk.config seat }
        ensures still { G.faults gate.new ≡ G.faults gate.old }
        ensures later { S.faults sink.old ≤ S.faults sink.new }
        ensures failed { IsErrOf result Stop.Failed → Rose (S.faults sink.old) (S.faults sink.new) }
        ensures answered { RanAnswer result seat self.old self.new
            (G.turns gate.old) (G.turns gate.new) (S.written sink.old) (S.written sink.new) }
        ensures stay { OnOk result (StayKnown self.old self.new) }
    {
        self.say(seat.line, gate);
        if !is_closed(self.books.standing(seat.peer)) {
            return Ok(true);
        }
        match self.dismiss(seat, gate, sink) {
            Ok(()) => Ok(false),
            Err(stop) => Err(stop),
        }
    }

    /// Sends what a session replied, if it did.
    fn say<G: Gate>(&self, line: u64, gate: &mut G)
        ensures still { G.faults gate.new ≡ G.faults gate.old }
        ensures said { Grew (G.turns gate.old) (G.turns gate.new) (asked_in (says line self.now.replies)) }
    {
        if !self.replies.is_empty() {
            gate.send(line, &self.replies);
        }
    }

    /// The clock of each session, in the order in which their connections were taken.
    fn sweep<G: Gate, S: Sink>(&mut self, time: u64, gate: &mut G, sink: &mut S) -> Result<(), Stop>
        requires known { AreKnown self.old.books.desk.config self.old.seats }
        ensures still { G.faults gate.new ≡ G.faults gate.old }
        ensures later { S.faults sink.old ≤ S.faults sink.new }
        ensures failed { IsErrOf result Stop.Failed → Rose (S.faults sink.old) (S.faults sink.new) }
        ensures ran { RanSo result (sweeps_all time) self.old self.new
            (G.turns gate.old) (G.turns gate.new) (S.written sink.old) (S.written sink.new) }
        ensures stay { OnOk result (StayKnown self.old self.new) }
    {
        let seats = self.seats.clone()?;
        self.check_each(&seats, time, gate, sink)
    }

    /// The clock of the session of each of these seats.
    fn check_each<G: Gate, S: Sink>(
        &mut self,
        seats: &[Seat],
        time: u64,
        gate: &mut G,
        sink: &mut S,
    ) -> Result<(), Stop>
        requires known { AreKnown self.old.books.desk.config self.old.seats }
        ensures still { G.faults gate.new ≡ G.faults gate.old }
        ensures later { S.faults sink.old ≤ S.faults sink.new }
        ensures failed { IsErrOf result Stop.Failed → Rose (S.faults sink.old) (S.faults sink.new) }
        ensures ran { RanSo result (sweeps time (peers_in seats.now)) self.old self.new
            (G.turns gate.old) (G.turns gate.new) (S.written sink.old) (S.written sink.new) }
        ensures stay { OnOk result (StayKnown self.old self.new) }
    {
        for seat in seats {
            self.check_peer(seat.peer, time, gate, sink)?;
        }
        Ok(())
    }

    /// The same of a peer, where a connection speaks for it.
    fn check_peer<G: Gate, S: Sink>(
        &mut self,
        peer: u16,
        time: u64,
        gate: &mut G,
        sink: &mut S,
    ) -> Result<(), Stop>
        requires known { AreKnown self.old.books.desk.config self.old.seats }
        ensures still { G.faults gate.new ≡ G.faults gate.old }
        ensures later { S.faults sink.old ≤ S.faults sink.new }
        ensures failed { IsErrOf result Stop.Failed → Rose (S.faults sink.old) (S.faults sink.new) }
        ensures ran { RanSo result (checks_peer time peer) self.old self.new
            (G.turns gate.old) (G.turns gate.new) (S.written sink.old) (S.written sink.new) }
        ensures stay { OnOk result (StayKnown self.old self.new) }
    {
        match seat_for(&self.seats, peer) {
            Some(seat) => self.check(seat, time, gate, sink),
            None => Ok(()),
        }
    }

    /// The clock of a seat's session, and the time that it has to be established.
    fn check<G: Gate, S: Sink>(
        &mut self,
        seat: Seat,
        time: u64,
        gate: &mut G,
        sink: &mut S,
    ) -> Result<(), Stop>
        requires { IsKnown self.old.books.desk.config seat }
        ensures still { G.faults gate.new ≡ G.faults gate.old }
        ensures later { S.faults sink.old ≤ S.faults sink.new }
        ensures failed { IsErrOf result Stop.Failed → Rose (S.faults sink.old) (S.faults sink.new) }
        ensures ran { RanAt result seat (checks time) self.old self.new
            (G.turns gate.old) (G.turns gate.new) (S.written sink.old) (S.written sink.new) }
        ensures stay { OnOk result (StayKnown self.old self.new) }
    {
        let is_open = self.wake(seat, time, gate, sink)?;
        if !is_open {
            return Ok(());
        }
        if has_time(seat.since, time) {
            return Ok(());
        }
        self.hurry(seat, gate, sink)
    }

    /// A session that isn't established by now closes.
    fn hurry<G: Gate, S: Sink>(
        &mut self,
        seat: Seat,
        gate: &mut G,
        sink: &mut S,
    ) -> Result<(), Stop>
        requires { IsKnown self.old.books.desk.config seat }
        ensures still { G.faults gate.new ≡ G.faults gate.old }
        ensures later { S.faults sink.old ≤ S.faults sink.new }
        ensures failed { IsErrOf result Stop.Failed → Rose (S.faults sink.old) (S.faults sink.new) }
        ensures ran { RanAt result seat hurries_where_new self.old self.new
            (G.turns gate.old) (G.turns gate.new) (S.written sink.old) (S.written sink.new) }
        ensures stay { OnOk result (StayKnown self.old self.new) }
    {
        if is_established(self.books.standing(seat.peer)) {
            return Ok(());
        }
        gate.send(seat.line, &EXPIRED);
        self.dismiss(seat, gate, sink)
    }
}

/// Whether a session has closed.
fn is_closed(standing: Standing) -> bool
    ensures { result ≡ is_closed standing }
{
    match standing {
        Standing::Ended(_) => true,
        Standing::Live(_) | Standing::Down => false,
    }
}

/// Whether a session is established.
fn is_established(standing: Standing) -> bool
    ensures { result ≡ stands_established standing }
{
    match standing {
        Standing::Live(State::Established) => true,
        Standing::Live(_) | Standing::Ended(_) | Standing::Down => false,
    }
}
