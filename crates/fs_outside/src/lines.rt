//! The connections of a gate.

ghost use Rattle.std.specs.Prelude.{◌≤◌, ◌<◌, IfOk, IfSome, length, vec_len};
ghost use Rattle.fs_outside.specs.Gate.{FitsIn, IsTaken};

use crate::line::{Heard, Line, prepare};
use crate::{Address, Came, Memory};
use std::alloc::Global;
use std::io;
use std::io::{ErrorKind, Read, Write};
use std::net::{IpAddr, OpenListener, OpenStream, SocketAddr};

/// So many connections are held at once: one more is closed as it comes.
const MOST_LINES: usize = 4096;

/// So many octets wait at most to leave through a connection that was taken.
const TAKEN_ROOM: usize = 16 * 1024;

/// So many octets wait at most to leave through a connection that was dialled.
const DIALLED_ROOM: usize = 64 * 1024 * 1024;

/// Where a connection couldn't be taken, for want of descriptors or memory of the system, none is taken for so many
/// milliseconds.
const ACCEPT_PAUSE: u64 = 100;

/// So many connections at most that are of no use are turned away at a time.
const TURNED_AWAY: u32 = 64;

/// The address of a peer. One of IPv4 that comes over IPv6 is that of IPv4.
fn address_of(from: SocketAddr) -> Address {
    match from.ip() {
        IpAddr::V4(ip) => Address::V4(ip.to_bits()),
        IpAddr::V6(ip) => match ip.to_ipv4_mapped() {
            Some(ip) => Address::V4(ip.to_bits()),
            None => Address::V6(ip.to_bits()),
        },
    }
}

/// A connection that was tried to be taken.
enum Taken<S> {
    Line(S, SocketAddr),
    /// One that is of no use, and is closed.
    Useless,
    /// None waits, or none can be taken for now.
    None,
}

/// Connections that don't wait, of which each has a number that no other one had.
#[derive(Drop)]
pub(crate) struct Lines<S: Read + Write + OpenStream + Drop> {
    alloc: Global,
    accept_from: u64,
    lines: Vec<Line<S>>,
    failed: Vec<u64>,
    turn: usize,
    numbers: u64,
}

impl<S: Read + Write + OpenStream + Drop> Lines<S> {
    /// None yet.
    pub fn new(alloc: Global) -> Lines<S> {
        Lines {
            alloc,
            accept_from: 0,
            lines: Vec::new(alloc),
            failed: Vec::new(alloc),
            turn: 0,
            numbers: 0,
        }
    }

    fn number(&mut self) -> u64 {
        self.numbers = self.numbers.saturating_add(1);
        self.numbers
    }

    /// Notes a connection that was dialled, or that it couldn't be made, and answers its number.
    ///
    /// # Errors
    ///
    /// `Memory` where the machine refused memory for it, beside its number.
    pub fn add_dialled(&mut self, dialled: io::Result<S>) -> (u64, Result<(), Memory>) {
        let number = self.number();
        let added = match dialled {
            Ok(stream) => {
                let line = Line::dialled(self.alloc, number, stream, DIALLED_ROOM);
                self.lines.push(line).map_err(Memory::from)
            }
            Err(_) => self.failed.push(number).map_err(Memory::from),
        };
        (number, added)
    }

    /// Tries to take one connection.
    fn try_taking<L: OpenListener<Stream = S>>(&mut self, listener: &L, time: u64) -> Taken<S> {
        match listener.accept() {
            Ok((stream, from)) if self.lines.len() < MOST_LINES && prepare(&stream).is_ok() =>
                Taken::Line(stream, from),
            Ok(_) => Taken::Useless,
            Err(error) => match error.kind() {
                ErrorKind::ConnectionAborted | ErrorKind::Interrupted => Taken::Useless,
                ErrorKind::WouldBlock => Taken::None,
                _ => {
                    self.accept_from = time.saturating_add(ACCEPT_PAUSE);
                    Taken::None
                }
            },
        }
    }

    /// Takes a connection, where one waits.
    fn take<L: OpenListener<Stream = S>>(
        &mut self,
        listener: &Option<L>,
        time: u64,
    ) -> Result<Option<Came>, Memory>
        ensures { IfOk result (λ one. IfSome one IsTaken) }
    {
        let Some(listener) = listener else {
            return Ok(None);
        };
        if time < self.accept_from {
            return Ok(None);
        }
        for _ in 0..TURNED_AWAY {
            match self.try_taking(listener, time) {
                Taken::Line(stream, from) => {
                    let line = self.number();
                    self.lines
                        .push(Line::new(self.alloc, line, stream, TAKEN_ROOM))?;
                    let from = address_of(from);
                    return Ok(Some(Came::Taken { line, from }));
                }
                Taken::Useless => {}
                Taken::None => return Ok(None),
            }
        }
        Ok(None)
    }

    /// What the connection at this place gives at once. One that has ended goes.
    fn hear(&mut self, place: usize, into: &mut [u8], time: u64) -> Option<Came>
        requires place { place < vec_len self.old.lines }
        requires room { 0 < length into.old }
        ensures { IfSome result (λ came. FitsIn came into.new) }
    {
        let open = &mut self.lines[place];
        let line = open.number;
        if open.comes_up() {
            return Some(Came::Made { line });
        }
        let is_told = open.is_told();
        match open.hear(into, time) {
            Heard::Octets(count) if is_told => Some(Came::Octets { line, count }),
            Heard::End => {
                self.lines.swap_remove(place);
                if is_told {
                    Some(Came::Ended { line })
                } else {
                    None
                }
            }
            _ => None,
        }
    }

    /// What the next one in turn gives at once: a connection, or the listener behind all of them.
    fn next_in_turn<L: OpenListener<Stream = S>>(
        &mut self,
        listener: &Option<L>,
        into: &mut [u8],
        time: u64,
    ) -> Result<Option<Came>, Memory>
        requires { 0 < length into.old }
        ensures { IfOk result (λ one. IfSome one (λ came. FitsIn came into.new)) }
    {
        let place = self.turn;
        if place < self.lines.len() {
            self.turn = place + 1;
            return Ok(self.hear(place, into, time));
        }
        self.turn = 0;
        self.take(listener, time)
    }

    /// Asks each connection and the listener once, beginning behind the one that was asked last, until one gives something.
    ///
    /// # Errors
    ///
    /// `Memory` where the machine refused memory for a connection that was taken. It is closed.
    pub fn ask<L: OpenListener<Stream = S>>(
        &mut self,
        listener: &Option<L>,
        into: &mut [u8],
        time: u64,
    ) -> Result<Option<Came>, Memory>
        requires { 0 < length into.old }
        ensures { IfOk result (λ one. IfSome one (λ came. FitsIn came into.new)) }
    {
        if let Some(line) = self.failed.pop() {
            return Ok(Some(Came::Ended { line }));
        }
        for _ in 0..self.lines.len().saturating_add(1) {
            let came = self.next_in_turn(listener, into, time)?;
            if came.is_some() {
                return Ok(came);
            }
        }
        Ok(None)
    }

    fn place_of(&self, number: u64) -> Option<usize> {
        self.lines.iter().position(|line| line.number == number)
    }

    /// Sends octets through a connection. One that isn't there takes none.
    ///
    /// # Errors
    ///
    /// `Memory` where the machine refused memory for what waits.
    pub fn send(&mut self, number: u64, piece: &[u8], time: u64) -> Result<(), Memory> {
        let Some(place) = self.place_of(number) else {
            return Ok(());
        };
        match self.lines.get_mut(place) {
            Some(line) => line.send(piece, time),
            None => Ok(()),
        }
    }

    /// Closes a connection. What was sent still leaves.
    pub fn close(&mut self, number: u64, time: u64) {
        self.failed.retain(|failed| *failed != number);
        let Some(place) = self.place_of(number) else {
            return;
        };
        let stays = match self.lines.get_mut(place) {
            Some(line) => line.close(time),
            None => return,
        };
        if !stays {
            self.lines.swap_remove(place);
        }
    }
}
