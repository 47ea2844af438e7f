//! Connections that were taken and wait for their OPEN before they speak for a peer.

ghost use Rattle.std.specs.{Prelude.{◌≡◌, ◌-◌, ◌∷◌, ◌==◌, [], OnOk, filter, length, map, nat_lt, not}, Option.{option_copied}};
ghost use Rattle.fs_base.specs.{Gate.{shut}, Sink.{Grew}};
ghost use Rattle.fs_recorder.specs.Door.{empty_door, guest_of, has_time, is_due, late_lines, open_time, said_as, swept_at, with_guest, without_guest};

use byteorder::{BigEndian, ByteOrder};
use fs_base::{Address, Gate, Memory};
use std::alloc::Global;
use std::marker::Model;

/// The clock of each connection is heard again where so many milliseconds have passed.
const SWEEP: u64 = 500;

/// A connection has so many milliseconds from its taking to be established (RFC 4271, section 8.2.2: a large hold time, for
/// which four minutes are suggested).
pub(crate) const OPEN_TIME: u64 = 240_000;

/// A connection that waits, its address, and the time in milliseconds when it was taken.
#[derive(Clone, Copy, Debug, PartialEq, Eq, Drop)]
pub(crate) struct Guest {
    pub line: u64,
    pub from: Address,
    pub since: u64,
}

/// When the clock was last heard of all connections, and those that wait, in the order in which they were taken.
#[derive(Drop)]
pub(crate) struct Door {
    swept: u64,
    guests: Vec<Guest>,
}

impl Model for Door {
    ghost use Rattle.fs_recorder.specs.Door.{AtDoor};

    ghost Value = { AtDoor };

    ghost view = { λ d. record { swept = d.swept; guests = d.guests.items } };
}

impl Door {
    /// None waits.
    pub fn new(alloc: Global) -> Door
        ensures { result ≡ empty_door }
    {
        Door {
            swept: 0,
            guests: Vec::new(alloc),
        }
    }

    /// How many wait.
    pub fn count(&self) -> usize
        ensures { result ≡ length self.now.guests }
    {
        self.guests.len()
    }

    /// One more waits.
    ///
    /// # Errors
    ///
    /// `Memory` where the machine refused memory.
    pub fn keep(&mut self, guest: Guest) -> Result<(), Memory>
        ensures { OnOk result (self.new ≡ with_guest guest self.old) }
    {
        self.guests.push(guest)?;
        Ok(())
    }

    /// The connection of this line, if it waits: it waits no more.
    pub fn call(&mut self, line: u64) -> Option<Guest>
        ensures found { result ≡ guest_of line self.old.guests }
        ensures left { self.new ≡ without_guest line self.old }
    {
        let guest = guest_of(&self.guests, line);
        forget(&mut self.guests, line);
        guest
    }

    /// Whether the clock is to be heard of all connections at this time.
    pub fn is_due(&self, time: u64) -> bool
        ensures { result ≡ is_due self.now.swept time }
    {
        time.saturating_sub(self.swept) >= SWEEP
    }

    /// The clock of all that wait: those that have waited too long are closed.
    pub fn clear<G: Gate>(&mut self, time: u64, gate: &mut G)
        ensures still { G.faults gate.new ≡ G.faults gate.old }
        ensures swept { self.new ≡ swept_at time self.old }
        ensures closed { Grew (G.turns gate.old) (G.turns gate.new) (map shut (late_lines time self.old.guests)) }
    {
        close_late(&self.guests, time, gate);
        forget_late(&mut self.guests, time);
        self.swept = time;
    }
}

fn guest_of(guests: &[Guest], line: u64) -> Option<Guest>
    ensures { result ≡ guest_of line guests.now }
{
    of_line(guests, line).copied()
}

fn of_line(guests: &[Guest], line: u64) -> Option<&Guest>
    ensures { option_copied result ≡ guest_of line guests.now }
{
    guests.iter().find(|guest| guest.line == line)
}

fn forget(guests: &mut Vec<Guest>, line: u64)
    ensures { guests.new.items ≡ filter (λ (guest : Guest). not (guest.line == line)) guests.old.items }
{
    guests.retain(|guest| guest.line != line);
}

fn forget_late(guests: &mut Vec<Guest>, time: u64)
    ensures { guests.new.items ≡ filter (λ (guest : Guest). has_time time guest) guests.old.items }
{
    guests.retain(|guest| has_time(guest.since, time));
}

/// Whether a connection that was taken then has time left at another time to be established.
pub(crate) fn has_time(since: u64, time: u64) -> bool
    ensures { result ≡ nat_lt (time - since) open_time }
{
    time.saturating_sub(since) < OPEN_TIME
}

fn close_late<G: Gate>(guests: &[Guest], time: u64, gate: &mut G)
    ensures still { G.faults gate.new ≡ G.faults gate.old }
    ensures closed { Grew (G.turns gate.old) (G.turns gate.new) (map shut (late_lines time guests.now)) }
{
    for guest in guests {
        close_where_late(*guest, time, gate);
    }
}

fn close_where_late<G: Gate>(guest: Guest, time: u64, gate: &mut G)
    ensures still { G.faults gate.new ≡ G.faults gate.old }
    ensures closed { Grew (G.turns gate.old) (G.turns gate.new) (map shut (late_lines time (guest ∷ []))) }
{
    if !has_time(guest.since, time) {
        gate.close(guest.line);
    }
}

/// The AS in the own field of an OPEN that stands at the front of these octets, as far as that field (RFC 4271, section 4.2).
pub(crate) fn said_as(octets: &[u8]) -> Option<u16>
    ensures { result ≡ said_as octets.now }
{
    if octets.len() < 22 {
        return None;
    }
    match octets[18] {
        1 => Some(BigEndian::read_u16(&octets[20..])),
        _ => None,
    }
}
