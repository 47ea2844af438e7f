//! A wire whose connection ends in the same thread.

use crate::fault::Fault;
use crate::fields::size;
use crate::octets::Octets;
use crate::terms::Terms;
use fs_base::{Failed, Opening, Wire};
use std::alloc::Global;
use std::io::{Error, ErrorKind, Read, Write};
use std::net::{Shutdown, TcpListener, TcpStream};

/// The other end of a connection: it listens at a free port of 127.0.0.1, takes one connection, hears all octets as soon
/// as they are sent, and answers its next piece where it is waited for. `ended` is noted once the connection's end was
/// heard behind all octets; a fault is kept with what was heard.
#[derive(Drop)]
pub struct Peer {
    alloc: Global,
    listener: TcpListener,
    stream: Option<TcpStream>,
    given: Vec<u8>,
    most: usize,
    answered: usize,
    pub heard: Octets,
    pub ended: Octets,
}

impl Peer {
    /// It gives what end 1 of these terms gives, in pieces of as many octets as a call moves.
    pub fn new(rt: &HostRuntime, terms: &Terms) -> Result<Peer, Fault> {
        Ok(Peer {
            alloc: rt.alloc(),
            listener: TcpListener::bind(rt, "127.0.0.1:0")?,
            stream: None,
            given: Vec::from_slice(rt.alloc(), terms.second.given.as_slice())?,
            most: size(terms.most.moved),
            answered: 0,
            heard: Octets::new(rt.alloc()),
            ended: Octets::new(rt.alloc()),
        })
    }

    /// The address at which it listens.
    pub fn address(&self) -> Result<String, Fault> {
        let address = self.listener.local_addr()?;
        Ok(format!(in self.alloc; "{address}")?)
    }

    fn accept(&mut self) {
        match self.listener.accept() {
            Ok((stream, _)) => self.stream = Some(stream),
            Err(_) => self.heard.fail(Fault::Outside),
        }
    }

    /// Hears so many octets that were sent.
    fn hear(&mut self, count: usize) {
        let Ok(mut piece) = vec![in self.alloc; 0u8; count] else {
            return self.heard.fail(Fault::Memory);
        };
        let heard = match &mut self.stream {
            Some(stream) => stream.read_exact(&mut piece),
            None => Err(unconnected()),
        };
        match heard {
            Ok(()) => self.heard.append(&piece),
            Err(_) => self.heard.fail(Fault::Outside),
        }
    }

    /// Answers its next piece. Behind the last it says no more.
    fn answer(&mut self) {
        let piece = self.given.chunks(self.most.max(1)).nth(self.answered);
        let done = match (&mut self.stream, piece) {
            (Some(stream), Some(piece)) => stream.write_all(piece),
            (Some(stream), None) => stream.shutdown(Shutdown::Write),
            (None, _) => Err(unconnected()),
        };
        if done.is_err() {
            self.heard.fail(Fault::Outside);
        }
        self.answered = self.answered.saturating_add(1);
    }

    fn hear_end(&mut self) {
        let heard = match &mut self.stream {
            Some(stream) => stream.read(&mut [0u8; 64]),
            None => Err(unconnected()),
        };
        match heard {
            Ok(0) => self.ended.word("ended, "),
            _ => self.heard.fail(Fault::Outside),
        }
    }
}

fn unconnected() -> Error {
    Error::from(ErrorKind::NotConnected)
}

/// A wire, and what stands at the other end of the connection that it dials, if that is tried.
#[derive(Drop)]
pub struct AnsweredWire<'a, W: Wire> {
    wire: &'a mut W,
    peer: Option<Peer>,
}

impl<'a, W: Wire> AnsweredWire<'a, W> {
    pub fn new(wire: &'a mut W, peer: Option<Peer>) -> AnsweredWire<'a, W> {
        AnsweredWire { wire, peer }
    }

    /// The first fault on the peer's way.
    pub fn check(&self) -> Result<(), Fault> {
        match &self.peer {
            Some(peer) => peer.heard.check(),
            None => Ok(()),
        }
    }

    /// Appends what the peer heard, and whether it heard the connection's end.
    pub fn tell(&self, heard: &mut Octets, ended: &mut Octets) {
        if let Some(peer) = &self.peer {
            heard.append(peer.heard.as_slice());
            ended.append(peer.ended.as_slice());
        }
    }
}

impl<'a, W: Wire> Wire for AnsweredWire<'a, W> {
    ghost tells = { λ answered. W.tells answered.wire.now };

    ghost faults = { λ answered. W.faults answered.wire.now };

    fn open_end(&mut self, how: Opening<'_>) -> Result<(), Failed> {
        let opened = self.wire.open_end(how);
        if let (Ok(()), Some(peer)) = (&opened, &mut self.peer) {
            peer.accept();
        }
        opened
    }

    fn read(&mut self, end: u8, into: &mut [u8]) -> Result<usize, Failed> {
        if let Some(peer) = &mut self.peer {
            peer.answer();
        }
        self.wire.read(end, into)
    }

    fn write(&mut self, end: u8, piece: &[u8]) -> Result<usize, Failed> {
        let moved = self.wire.write(end, piece);
        if let (Ok(count), Some(peer)) = (&moved, &mut self.peer) {
            peer.hear(*count);
        }
        moved
    }

    /// The wire waits until the peer says no more.
    fn close(&mut self, end: u8) -> Result<(), Failed> {
        if let Some(peer) = &mut self.peer {
            peer.answered = usize::MAX;
            peer.answer();
        }
        let closed = self.wire.close(end);
        if let Some(peer) = &mut self.peer {
            peer.hear_end();
        }
        closed
    }
}
