//! A wire of TCP connections.

ghost use Rattle.std.specs.{Prelude.{◌≡◌, ◌≤◌, ◌<◌, IfOk, length}, Io.{ReadsAtMost}};
ghost use Rattle.fs_outside.specs.Outside.{HasCause};

use crate::tally::fault;
use crate::{Failed, Opening, Wire};
use std::io;
use std::io::{ErrorKind, Read, Write};
use std::net::{Net, OpenListener, OpenStream, Shutdown, TcpListener, TcpStream};
use std::time::{Clock, Duration};

/// So many seconds an end that closes waits for its peer to close too, and what is written at once for room: a router may be
/// slow to read what it was sent.
const PATIENCE: u64 = 180;

/// An end that closes reads at most so many pieces of 4096 octets that its peer still sends.
const DRAINS: u32 = 1 << 30;

/// So many connections of others to the port of joined ends are turned away.
const STRANGERS: u32 = 1 << 16;

/// Each piece leaves at once, and waits for room no longer than `PATIENCE`.
fn prepare<S: OpenStream>(stream: &S) -> io::Result<()> {
    stream.set_nodelay(true)?;
    stream.set_write_timeout(Some(Duration::from_secs(PATIENCE)))
}

/// Takes one connection at an address.
fn listen<R: Net>(runtime: &R, address: &str) -> io::Result<R::Stream> {
    let listener = TcpListener::bind(runtime, address)?;
    let (stream, _) = listener.accept()?;
    prepare(&stream)?;
    Ok(stream)
}

/// Connects to an address.
fn dial<R: Net>(runtime: &R, address: &str) -> io::Result<R::Stream> {
    let stream = TcpStream::connect(runtime, address)?;
    prepare(&stream)?;
    Ok(stream)
}

/// Two ends of one connection, over a free port of 127.0.0.1. Whoever else connects to it is turned away.
fn both<R: Net>(runtime: &R) -> io::Result<(R::Stream, R::Stream)> {
    let listener = TcpListener::bind(runtime, "127.0.0.1:0")?;
    let second = TcpStream::connect(runtime, listener.local_addr()?)?;
    let address = second.local_addr()?;
    for _ in 0..STRANGERS {
        let (first, from) = listener.accept()?;
        if from == address {
            prepare(&first)?;
            prepare(&second)?;
            return Ok((first, second));
        }
    }
    Err(io::Error::from(ErrorKind::ConnectionRefused))
}

/// Whether the connection was torn down: by the peer, or by the system, which has had no answer for long. For BGP that is
/// the end of the connection as a close is (RFC 4271 section 8.1.4, TcpConnectionFails).
fn is_torn_down(error: &io::Error) -> bool {
    matches!(
        error.kind(),
        ErrorKind::ConnectionReset
            | ErrorKind::ConnectionAborted
            | ErrorKind::BrokenPipe
            | ErrorKind::NotConnected
            | ErrorKind::TimedOut
            | ErrorKind::HostUnreachable
            | ErrorKind::NetworkUnreachable
    )
}

/// Reads what the peer still sends until it closes, for `PATIENCE` in all: octets that are unread when a socket is dropped
/// make the system reset the connection, and the peer may lose what it hadn't read yet.
fn drain<R: Clock, S: Read + OpenStream>(runtime: &R, stream: &mut S) -> io::Result<()> {
    let patience = Duration::from_secs(PATIENCE);
    let begun = runtime.monotonic()?;
    let mut unread = [0u8; 4096];
    for _ in 0..DRAINS {
        let rest = patience.saturating_sub(runtime.monotonic()?.saturating_sub(begun));
        if rest.is_zero() {
            return Ok(());
        }
        stream.set_read_timeout(Some(rest))?;
        if stream.read(&mut unread)? == 0 {
            return Ok(());
        }
    }
    Ok(())
}

/// An end that is open, and how long what is written next may still wait for room.
#[derive(Drop)]
struct End<S: Read + Write + OpenStream + Drop> {
    stream: S,
    rest: Duration,
}

impl<S: Read + Write + OpenStream + Drop> End<S> {
    fn new(stream: S) -> End<S> {
        End {
            stream,
            rest: Duration::from_secs(PATIENCE),
        }
    }

    /// A connection that was torn down has ended.
    fn read(&mut self, into: &mut [u8]) -> io::Result<usize>
        ensures { ReadsAtMost result into.new }
    {
        match self.stream.read(into) {
            Err(error) if is_torn_down(&error) => Ok(0),
            read => read,
        }
    }

    /// What is written next may wait for so long. None at all is refused.
    fn grant(&mut self, rest: Duration) -> io::Result<()> {
        if rest != self.rest {
            self.rest = rest;
            self.stream.set_write_timeout(Some(rest))?;
        }
        Ok(())
    }

    /// What is written to a connection that was torn down is lost, which the closing answers: what the peer said before
    /// may still be read. A peer that takes a part of a piece has what is left of its time for the rest:
    /// so one that reads little by little holds nobody for longer than one that reads nothing.
    fn write<R: Clock>(&mut self, runtime: &R, piece: &[u8]) -> io::Result<usize>
        ensures { IfOk result (λ n. n ≤ length piece.now) }
    {
        let begun = runtime.monotonic()?;
        match self.stream.write(piece) {
            Err(error) if is_torn_down(&error) => Ok(piece.len()),
            Err(error) => Err(error),
            Ok(count) => {
                let rest = if count < piece.len() {
                    let spent = runtime.monotonic()?.saturating_sub(begun);
                    self.rest.saturating_sub(spent)
                } else {
                    Duration::from_secs(PATIENCE)
                };
                self.grant(rest)?;
                Ok(count)
            }
        }
    }

    /// Ends the writing side and, where `drains` says so, waits for the peer's close. A connection that was torn down
    /// refuses that: what was written may be lost.
    fn close<R: Clock>(&mut self, runtime: &R, drains: bool) -> io::Result<()> {
        self.stream.shutdown(Shutdown::Write)?;
        if drains {
            // however the waiting ends, what was written has left
            let _ = drain(runtime, &mut self.stream);
        }
        Ok(())
    }
}

/// The ends that are open, and the faults so far. Ends that are joined are each other's peer: the one that closes can't
/// wait for what the other still sends.
#[derive(Drop)]
struct Streams<S: Read + Write + OpenStream + Drop> {
    ends: [Option<End<S>>; 2],
    joined: bool,
    faults: u64,
}

impl<S: Read + Write + OpenStream + Drop> Streams<S> {
    /// Puts the outcome of an opening in place.
    fn put(&mut self, end: u8, opened: io::Result<S>) -> Result<(), Failed>
        requires { end ≤ 1 }
        ensures cause { HasCause self.old.faults self.new.faults result }
    {
        self.joined = false;
        match opened {
            Ok(stream) => {
                self.ends[end as usize] = Some(End::new(stream));
                Ok(())
            }
            Err(_) => Err(fault(&mut self.faults)),
        }
    }

    fn put_both(&mut self, opened: io::Result<(S, S)>) -> Result<(), Failed>
        ensures cause { HasCause self.old.faults self.new.faults result }
    {
        match opened {
            Ok((first, second)) => {
                self.ends = [Some(End::new(first)), Some(End::new(second))];
                self.joined = true;
                Ok(())
            }
            Err(_) => Err(fault(&mut self.faults)),
        }
    }

    /// Reads from an end. One that isn't open has nothing left.
    fn read(&mut self, end: u8, into: &mut [u8]) -> Result<usize, Failed>
        requires { end ≤ 1 }
        ensures cause { HasCause self.old.faults self.new.faults result }
        ensures bound { ReadsAtMost result into.new }
    {
        let Some(open) = &mut self.ends[end as usize] else {
            return Ok(0);
        };
        match open.read(into) {
            Ok(count) => Ok(count),
            Err(_) => Err(fault(&mut self.faults)),
        }
    }

    /// Hands the whole piece to the system, which takes what it has room for. An end that isn't open can't be written.
    fn write<R: Clock>(&mut self, runtime: &R, end: u8, piece: &[u8]) -> Result<usize, Failed>
        requires { end ≤ 1 }
        ensures cause { HasCause self.old.faults self.new.faults result }
        ensures bound { IfOk result (λ n. n ≤ length piece.now) }
        ensures taken { 0 < length piece.now → IfOk result (λ n. 0 < n) }
    {
        let Some(open) = &mut self.ends[end as usize] else {
            return Err(fault(&mut self.faults));
        };
        match open.write(runtime, piece) {
            Ok(count) if 0 < count || piece.is_empty() => Ok(count),
            _ => Err(fault(&mut self.faults)),
        }
    }

    /// Closes an end for writing.
    fn close<R: Clock>(&mut self, runtime: &R, end: u8) -> Result<(), Failed>
        requires { end ≤ 1 }
        ensures cause { HasCause self.old.faults self.new.faults result }
    {
        let drains = !self.joined;
        let Some(open) = &mut self.ends[end as usize] else {
            return Ok(());
        };
        match open.close(runtime, drains) {
            Ok(()) => Ok(()),
            Err(_) => Err(fault(&mut self.faults)),
        }
    }
}

/// A wire of TCP connections. An address is `host:port`; one that can't be read is a fault. Each end sends at once what
/// is written to it.
#[derive(Drop)]
pub struct RealWire<'a, R: Net + Clock> {
    runtime: &'a R,
    streams: Streams<R::Stream>,
}

impl<'a, R: Net + Clock> RealWire<'a, R> {
    ghost use Rattle.fs_outside.specs.Real.{real_wire_faults};

    /// No end is open, and no call has failed.
    pub fn new(runtime: &'a R) -> RealWire<'a, R>
        ensures faults { real_wire_faults result ≡ 0 }
    {
        let streams = Streams {
            ends: [None, None],
            joined: false,
            faults: 0,
        };
        RealWire { runtime, streams }
    }
}

impl<'a, R: Net + Clock> Wire for RealWire<'a, R> {
    ghost use Rattle.std.specs.Prelude.{None};
    ghost use Rattle.fs_outside.specs.Real.{real_wire_faults};

    ghost tells = { λ wire. None };

    ghost faults = { real_wire_faults };

    fn open_end(&mut self, how: Opening<'_>) -> Result<(), Failed> {
        match how {
            Opening::Listen(address) => {
                let opened = listen(self.runtime, address);
                self.streams.put(0, opened)
            }
            Opening::Dial(address) => {
                let opened = dial(self.runtime, address);
                self.streams.put(1, opened)
            }
            Opening::Both => {
                let opened = both(self.runtime);
                self.streams.put_both(opened)
            }
        }
    }

    fn read(&mut self, end: u8, into: &mut [u8]) -> Result<usize, Failed> {
        self.streams.read(end, into)
    }

    fn write(&mut self, end: u8, piece: &[u8]) -> Result<usize, Failed> {
        self.streams.write(self.runtime, end, piece)
    }

    /// The peer's octets are read to its end, as long as it goes on, before the connection goes; not of joined ends.
    fn close(&mut self, end: u8) -> Result<(), Failed> {
        self.streams.close(self.runtime, end)
    }
}
