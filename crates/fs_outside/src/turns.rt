//! The turns of a gate in memory.

ghost use Rattle.std.specs.Prelude.{◌≡◌, ◌∷◌, [], IfOk, IsTrue, Some, string_bytes};
ghost use Rattle.fs_outside.specs.{Gate.{FitsIn, came, content_from, dialled, read, said, shut, what_from}, Sink.{Grew}, Turning.{Adds}};

use crate::{Came, Event, Found, Memory, Reading};
use std::alloc::Global;
use std::marker::Model;

/// A turn, with the octets of an event, of a file that was read whole, or that were to be sent.
#[derive(Drop)]
pub(crate) enum NotedTurn {
    Came {
        event: Event,
        octets: Vec<u8>,
    },
    Read {
        reading: Reading,
        name: String,
        octets: Vec<u8>,
    },
    Dialled {
        line: u64,
        address: String,
    },
    Said {
        line: u64,
        octets: Vec<u8>,
    },
    Shut {
        line: u64,
    },
}

/// The turns so far, in order. Once the machine refused the memory to note one, none is told any more.
#[derive(Drop)]
pub(crate) struct Turns {
    noted: Vec<NotedTurn>,
    tells: bool,
}

impl Model for Turns {
    ghost use Rattle.std.specs.Prelude.{List, Option, Some, None, if◌then◌else◌, map};
    ghost use Rattle.fs_outside.specs.{Gate.{Turn}, Turning.{turn_of}};

    ghost Value = { Option (List Turn) };

    ghost view = { λ turns. if turns.tells then Some (map turn_of turns.noted.items) else None };
}

/// A copy of these octets.
fn copied(alloc: Global, octets: &[u8]) -> Result<Vec<u8>, Memory>
    ensures { IfOk result (λ copy. copy.items ≡ octets.now) }
{
    let mut copy = Vec::new(alloc);
    copy.extend_from_slice(octets)?;
    Ok(copy)
}

/// Appends an event; answers whether the machine had the memory for it, as do the calls below.
fn add_event(noted: &mut Vec<NotedTurn>, event: Event, into: &[u8]) -> bool
    requires { FitsIn event.came into.now }
    ensures { IsTrue result → Adds noted.old.items noted.new.items (came event.moment event.time (what_from event.came into.now)) }
{
    let octets = match event.came {
        Came::Octets { count, .. } => &into[..count],
        _ => &[],
    };
    let Ok(octets) = copied(*noted.allocator(), octets) else {
        return false;
    };
    noted.push(NotedTurn::Came { event, octets }).is_ok()
}

fn add_reading(noted: &mut Vec<NotedTurn>, reading: Reading, name: &str, octets: &[u8]) -> bool
    ensures { IsTrue result
        → Adds
        noted.old.items
        noted.new.items
        (read reading.moment reading.time name.now (content_from reading.found octets.now)) }
{
    let alloc = *noted.allocator();
    let Ok(name) = String::from_str(alloc, name) else {
        return false;
    };
    let Ok(octets) = copied(alloc, octets) else {
        return false;
    };
    noted
        .push(NotedTurn::Read {
            reading,
            name,
            octets,
        })
        .is_ok()
}

fn add_dialled(noted: &mut Vec<NotedTurn>, line: u64, address: &str) -> bool
    ensures { IsTrue result → Adds noted.old.items noted.new.items (dialled line address.now) }
{
    let Ok(address) = String::from_str(*noted.allocator(), address) else {
        return false;
    };
    noted.push(NotedTurn::Dialled { line, address }).is_ok()
}

fn add_said(noted: &mut Vec<NotedTurn>, line: u64, piece: &[u8]) -> bool
    ensures { IsTrue result → Adds noted.old.items noted.new.items (said line piece.now) }
{
    let Ok(octets) = copied(*noted.allocator(), piece) else {
        return false;
    };
    noted.push(NotedTurn::Said { line, octets }).is_ok()
}

fn add_shut(noted: &mut Vec<NotedTurn>, line: u64) -> bool
    ensures { IsTrue result → Adds noted.old.items noted.new.items (shut line) }
{
    noted.push(NotedTurn::Shut { line }).is_ok()
}

impl Turns {
    /// None so far.
    pub fn new(alloc: Global) -> Turns
        ensures { result ≡ Some [] }
    {
        Turns {
            noted: Vec::new(alloc),
            tells: true,
        }
    }

    /// Notes an event, whose octets stand at the front of `into`.
    pub fn event(&mut self, event: Event, into: &[u8])
        requires { FitsIn event.came into.now }
        ensures { Grew self.old self.new (came event.moment event.time (what_from event.came into.now) ∷ []) }
    {
        self.tells = self.tells && add_event(&mut self.noted, event, into);
    }

    /// Notes a reading, and the octets of a file that was read whole.
    pub fn reading(&mut self, reading: Reading, name: &str, octets: &[u8])
        ensures { Grew
            self.old
            self.new
            (read reading.moment reading.time name.now (content_from reading.found octets.now) ∷ []) }
    {
        self.tells = self.tells && add_reading(&mut self.noted, reading, name, octets);
    }

    /// Notes that a connection to `address` was begun.
    pub fn dialled(&mut self, line: u64, address: &str)
        ensures { Grew self.old self.new (dialled line address.now ∷ []) }
    {
        self.tells = self.tells && add_dialled(&mut self.noted, line, address);
    }

    /// Notes that octets were to be sent.
    pub fn said(&mut self, line: u64, piece: &[u8])
        ensures { Grew self.old self.new (said line piece.now ∷ []) }
    {
        self.tells = self.tells && add_said(&mut self.noted, line, piece);
    }

    /// Notes that a connection was closed.
    pub fn shut(&mut self, line: u64)
        ensures { Grew self.old self.new (shut line ∷ []) }
    {
        self.tells = self.tells && add_shut(&mut self.noted, line);
    }
}
