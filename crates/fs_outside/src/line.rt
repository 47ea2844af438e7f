//! One TCP connection that doesn't wait.

ghost use Rattle.std.specs.Prelude.{◌<◌, length};
ghost use Rattle.fs_outside.specs.Heard.{FitsHeard};

use crate::Memory;
use crate::waiting::Waiting;
use std::alloc::Global;
use std::io;
use std::io::{ErrorKind, Read, Write};
use std::net::{OpenStream, Shutdown};

/// A connection where nothing could be written for so many milliseconds has ended.
const STUCK: u64 = 180_000;

/// A connection that is closed waits at most so many milliseconds for its peer to close too.
const LINGER: u64 = 5_000;

/// What a connection gave.
#[derive(Clone, Copy, Debug, PartialEq, Eq, Drop)]
pub(crate) enum Heard {
    /// So many octets, at the front of the buffer.
    Octets(usize),
    /// Nothing now.
    Nothing,
    /// Its end.
    End,
}

/// Where a connection stands.
#[derive(Clone, Copy, Debug, PartialEq, Eq, Drop)]
enum State {
    Open,
    /// Nothing can be written any more: what was received before is still read.
    Torn,
    /// More waits than there is room for: it is of no more use.
    Full,
    /// It was closed, and goes at this time at the latest.
    Closing { until: u64 },
    /// Its writing side has ended too.
    Shut { until: u64 },
}

/// Nothing waits: a read or a write that would wait says so. Each piece leaves at once.
pub(crate) fn prepare<S: OpenStream>(stream: &S) -> io::Result<()> {
    stream.set_nonblocking(true)?;
    stream.set_nodelay(true)
}

/// Whether the call can be made again: nothing is wrong with the connection.
fn is_for_later(error: &io::Error) -> bool {
    matches!(error.kind(), ErrorKind::WouldBlock | ErrorKind::Interrupted)
}

/// A connection, and what waits to leave through it, where it last moved at a time.
#[derive(Drop)]
pub(crate) struct Line<S: Read + Write + OpenStream + Drop> {
    pub number: u64,
    stream: S,
    waiting: Waiting,
    room: usize,
    moved: u64,
    was_told: bool,
    is_new: bool,
    state: State,
}

impl<S: Read + Write + OpenStream + Drop> Line<S> {
    /// An open connection, in which at most `room` octets wait to leave.
    pub fn new(alloc: Global, number: u64, stream: S, room: usize) -> Line<S> {
        Line {
            number,
            stream,
            waiting: Waiting::new(alloc),
            room,
            moved: 0,
            was_told: false,
            is_new: false,
            state: State::Open,
        }
    }

    /// Whether events tell of it: it wasn't closed.
    pub fn is_told(&self) -> bool {
        matches!(self.state, State::Open | State::Torn | State::Full)
    }

    /// A connection that was dialled, of which nothing was told yet.
    pub fn dialled(alloc: Global, number: u64, stream: S, room: usize) -> Line<S> {
        let mut line = Line::new(alloc, number, stream, room);
        line.is_new = true;
        line
    }

    /// Whether it is still to be told that the connection is made; from then on it is not.
    pub fn comes_up(&mut self) -> bool {
        let is_new = self.is_new && self.is_told();
        self.is_new = false;
        is_new
    }

    fn is_waiting(&self) -> bool {
        !self.waiting.rest().is_empty()
    }

    /// Hands the system what waits, of which it takes what it has room for.
    fn flush(&mut self, time: u64) {
        match self.stream.write(self.waiting.rest()) {
            Ok(count) => {
                self.waiting.leave(count);
                self.moved = time;
            }
            Err(error) if is_for_later(&error) => {}
            Err(_) => self.tear(),
        }
    }

    /// Nothing leaves any more.
    fn tear(&mut self) {
        self.waiting.clear();
        if self.state == State::Open {
            self.state = State::Torn;
        }
    }

    /// Sends a piece, as far as the system has room; the rest waits.
    ///
    /// # Errors
    ///
    /// `Memory` where the machine refused memory for what waits.
    pub fn send(&mut self, piece: &[u8], time: u64) -> Result<(), Memory> {
        if self.state != State::Open {
            return Ok(());
        }
        self.was_told = true;
        if !self.is_waiting() {
            self.moved = time;
        }
        self.waiting.append(piece)?;
        self.flush(time);
        if self.waiting.rest().len() > self.room {
            self.state = State::Full;
        }
        Ok(())
    }

    /// Ends the writing side once all has left.
    fn end_writing(&mut self) {
        if let State::Closing { until } = self.state {
            if !self.is_waiting() {
                // a connection that is torn down has no side to end
                let _ = self.stream.shutdown(Shutdown::Write);
                self.state = State::Shut { until };
            }
        }
    }

    /// Closes the connection. `false`: nothing was sent through it, so nobody has to be waited for.
    pub fn close(&mut self, time: u64) -> bool {
        if self.state == State::Open {
            self.state = State::Closing {
                until: time.saturating_add(LINGER),
            };
            self.end_writing();
            return self.was_told;
        }
        false
    }

    /// Whether what waits has waited for too long, or the time of a closed connection is over.
    fn is_over(&self, time: u64) -> bool {
        match self.state {
            State::Full => true,
            State::Open | State::Torn => self.is_waiting()
                && time.saturating_sub(self.moved) >= STUCK,
            State::Closing { until } | State::Shut { until } => until <= time,
        }
    }

    /// Sends what waits, and reads octets into the front of `into`, where the connection gives some at once.
    pub fn hear(&mut self, into: &mut [u8], time: u64) -> Heard
        requires { 0 < length into.old }
        ensures { FitsHeard result into.new }
    {
        if self.is_waiting() {
            self.flush(time);
        }
        self.end_writing();
        if self.is_over(time) {
            return Heard::End;
        }
        match self.stream.read(into) {
            Ok(0) => Heard::End,
            Ok(count) => Heard::Octets(count),
            Err(error) if is_for_later(&error) && self.state != State::Torn => Heard::Nothing,
            Err(_) => Heard::End,
        }
    }
}
