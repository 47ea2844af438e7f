//! A gate of TCP connections.

ghost use Rattle.std.specs.Prelude.{◌≡◌, ◌≤◌, ◌<◌, IfOk, length};
ghost use Rattle.fs_outside.specs.{Gate.{FitsIn}, Outside.{HasCause}};

use crate::line::prepare;
use crate::lines::Lines;
use crate::rereading::read_file;
use crate::tally::fault;
use crate::{Came, Clock as _, Event, Failed, Found, Gate, Memory, Reading, RealClock};
use std::alloc::Global;
use std::net::{Net, OpenListener, TcpListener, TcpStream, ToSocketAddrs};
use std::time::{Clock, Duration};
use std::{io, rt, thread};

/// Where nothing comes, the gate pauses so many milliseconds in all before it says so.
const WAIT: u64 = 200;

/// It pauses for so many milliseconds where something has just come, and for longer and longer where nothing does.
const LEAST_PAUSE: u64 = 1;

const MOST_PAUSE: u64 = 20;

/// A connection that is dialled is made within so many milliseconds.
const CONNECT: u64 = 250;

/// Listens at an address, without waiting for connections.
fn listen<R: Net>(runtime: &R, address: &str) -> io::Result<R::Listener> {
    let listener = TcpListener::bind(runtime, address)?;
    listener.set_nonblocking(true)?;
    Ok(listener)
}

/// Connects to an address. Of a name, which the system looks up, each address is tried.
fn connect<R: Net>(runtime: &R, address: &str) -> io::Result<R::Stream> {
    let mut last = io::Error::from(io::ErrorKind::InvalidInput);
    for address in address.to_socket_addrs(runtime)? {
        match TcpStream::connect_timeout(runtime, &address, Duration::from_millis(CONNECT)) {
            Ok(stream) => {
                prepare(&stream)?;
                return Ok(stream);
            }
            Err(error) => last = error,
        }
    }
    Err(last)
}

/// TCP connections, none of which is waited for, and files of the system. Beside what the trait says:
///
/// - An address is `host:port`. A connection that was taken may have 16 KiB waiting to leave, one that was dialled 64 MiB:
///   what is more ends it, as it does that nothing could be written for 180 seconds.
/// - Where descriptors are wanted no connection is taken for a tenth of a second; with 4,096 of them a further one is closed
///   as it comes.
/// - A connection that is closed after something was sent through it ends its own side first, and reads what its peer still
///   sends, for five seconds at most: octets that are unread when a socket goes make the system reset the connection, and
///   the peer may lose what it hadn't read.
/// - A name is looked up by the system, and a quarter of a second is given to each of its addresses: to dial one may take
///   longer than to dial an address of numbers.
/// - It pauses between looking, for one millisecond where something has just come and for up to twenty where nothing does.
/// - Memory that is refused to it is a failure of the next event.
#[derive(Drop)]
pub struct RealGate<'a, R: Net + Clock + rt::Files> {
    runtime: &'a R,
    clock: RealClock<'a, R>,
    moment: u64,
    listener: Option<R::Listener>,
    lines: Lines<R::Stream>,
    pause: u64,
    was_refused: bool,
    faults: u64,
}

impl<'a, R: Net + Clock + rt::Files> RealGate<'a, R> {
    ghost use Rattle.fs_outside.specs.Real.{real_gate_faults};

    /// No connection is taken, and no call has failed.
    pub fn new(alloc: Global, runtime: &'a R) -> RealGate<'a, R>
        ensures faults { real_gate_faults result ≡ 0 }
    {
        RealGate {
            runtime,
            clock: RealClock::new(runtime),
            moment: 0,
            listener: None,
            lines: Lines::new(alloc),
            pause: LEAST_PAUSE,
            was_refused: false,
            faults: 0,
        }
    }

    /// The moment of the clock on the wall. Where it can't be read, its last answer stands.
    fn read_wall(&mut self) -> u64
        ensures { real_gate_faults self.new ≡ real_gate_faults self.old }
    {
        if let Ok(since) = self.runtime.since_1970() {
            if let Ok(moment) = u64::try_from(since.as_nanos()) {
                self.moment = moment;
            }
        }
        self.moment
    }

    /// What came, with the moment and the time of now.
    fn event(&mut self, came: Came) -> Event
        ensures came { result.came ≡ came }
        ensures faults { real_gate_faults self.new ≡ real_gate_faults self.old }
    {
        Event {
            moment: self.read_wall(),
            time: self.clock.now(),
            came,
        }
    }

    /// Pauses for a while, and longer the next time; answers for how long.
    fn rest(&mut self) -> u64
        ensures { real_gate_faults self.new ≡ real_gate_faults self.old }
    {
        let pause = self.pause;
        thread::sleep(self.runtime, Duration::from_millis(pause));
        self.pause = pause.saturating_mul(2).min(MOST_PAUSE);
        pause
    }

    /// What comes within the time that the gate waits.
    fn wait(&mut self, into: &mut [u8]) -> Result<Came, Memory>
        requires { 0 < length into.old }
        ensures fits { IfOk result (λ came. FitsIn came into.new) }
        ensures faults { real_gate_faults self.new ≡ real_gate_faults self.old }
    {
        let mut waited = 0u64;
        for _ in 0..WAIT {
            let time = self.clock.now();
            if let Some(came) = self.lines.ask(&self.listener, into, time)? {
                self.pause = LEAST_PAUSE;
                return Ok(came);
            }
            if waited >= WAIT {
                break;
            }
            waited = waited.saturating_add(self.rest());
        }
        Ok(Came::Nothing)
    }

    /// Notes that memory was refused: the next event fails.
    fn note(&mut self, outcome: Result<(), Memory>)
        ensures { real_gate_faults self.new ≡ real_gate_faults self.old }
    {
        self.was_refused = self.was_refused || outcome.is_err();
    }
}

impl<'a, R: Net + Clock + rt::Files> Gate for RealGate<'a, R> {
    ghost use Rattle.std.specs.Prelude.{None};
    ghost use Rattle.fs_outside.specs.Real.{real_gate_faults};

    ghost turns = { λ gate. None };

    ghost faults = { real_gate_faults };

    fn open(&mut self, address: &str) -> Result<(), Failed> {
        match listen(self.runtime, address) {
            Ok(listener) => {
                self.listener = Some(listener);
                Ok(())
            }
            Err(_) => Err(fault(&mut self.faults)),
        }
    }

    fn dial(&mut self, address: &str) -> u64 {
        let dialled = connect(self.runtime, address);
        let (line, added) = self.lines.add_dialled(dialled);
        self.note(added);
        line
    }

    fn next(&mut self, into: &mut [u8]) -> Result<Event, Failed> {
        if self.was_refused {
            self.was_refused = false;
            return Err(fault(&mut self.faults));
        }
        match self.wait(into) {
            Ok(came) => Ok(self.event(came)),
            Err(Memory) => Err(fault(&mut self.faults)),
        }
    }

    fn reread(&mut self, name: &str, limit: u64, into: &mut Vec<u8>) -> Result<Reading, Memory> {
        let found = read_file(self.runtime, name, limit, into)?;
        if found == Found::Failed {
            let _ = fault(&mut self.faults);
        }
        Ok(Reading {
            moment: self.read_wall(),
            time: self.clock.now(),
            found,
        })
    }

    fn send(&mut self, line: u64, piece: &[u8]) {
        let time = self.clock.now();
        let sent = self.lines.send(line, piece, time);
        self.note(sent);
    }

    fn close(&mut self, line: u64) {
        let time = self.clock.now();
        self.lines.close(line, time);
    }
}
