//! Wires in memory: one whose calls can be made to fail, and one that never fails.

ghost use Rattle.std.specs.{Prelude.{◌≡◌, ◌≤◌, ◌<◌, Some, IfOk, min, length, option_copied, option_map}, Io.{ReadsAtMost}};
ghost use Rattle.fs_outside.specs.Wire.{EndCloses, EndOpens, EndReads, EndWrites, end_at};

use crate::cable::Cable;
use crate::tally::{Tally, fault};
use crate::{Failed, Memory, Opening, Wire};
use std::alloc::Global;

/// A wire in memory. Its calls are counted from 1, and those that a list names fail, as does a write past the room. An
/// end that listens or dials gives what was handed in for it; joined ends give what was written through the other. A
/// read of 0 octets at a joined end says only that nothing is in flight.
#[derive(Drop)]
pub struct MemWire {
    cable: Cable,
    tally: Tally,
}

impl MemWire {
    ghost use Rattle.fs_outside.specs.{MemoryWires.{fresh_end, mem_wire_ends, mem_wire_room, mem_wire_tally, new_ends, with_end}, Tallies.{narrowed, no_calls}};

    /// A wire that isn't open, with room for `room` octets through each end. The calls of these numbers will fail.
    ///
    /// # Errors
    ///
    /// `Memory` where the machine refused the room.
    pub fn new(alloc: Global, room: usize, failing: Vec<u64>) -> Result<MemWire, Memory>
        ensures ends { IfOk result (λ wire. mem_wire_ends wire ≡ new_ends) }
        ensures room { IfOk result (λ wire. mem_wire_room wire ≡ room) }
        ensures tally { IfOk result (λ wire. mem_wire_tally wire ≡ no_calls failing.items) }
    {
        Ok(MemWire {
            cable: Cable::new(alloc, room)?,
            tally: Tally::new(failing),
        })
    }

    /// The end is to receive these octets once it is opened. It isn't open until then.
    pub fn give(&mut self, end: u8, octets: Vec<u8>)
        requires { end ≤ 1 }
        ensures ends { mem_wire_ends self.new ≡ with_end end (fresh_end octets.items) (mem_wire_ends self.old) }
        ensures room { mem_wire_room self.new ≡ mem_wire_room self.old }
        ensures tally { mem_wire_tally self.new ≡ mem_wire_tally self.old }
    {
        self.cable.give(end, octets);
    }

    /// From now on no call gives or takes more than `count` octets.
    pub fn narrow(&mut self, count: usize)
        requires { 1 ≤ count }
        ensures tally { mem_wire_tally self.new ≡ narrowed count (mem_wire_tally self.old) }
        ensures ends { mem_wire_ends self.new ≡ mem_wire_ends self.old }
        ensures room { mem_wire_room self.new ≡ mem_wire_room self.old }
    {
        self.tally.narrow(count);
    }

    /// What was written through the end.
    pub fn written(&self, end: u8) -> &[u8]
        requires { end ≤ 1 }
        ensures { result.now ≡ (end_at end (mem_wire_ends self.now)).written }
    {
        self.cable.written(end)
    }

    /// So many calls were made.
    pub fn calls(&self) -> u64
        ensures { result ≡ (mem_wire_tally self.now).calls }
    {
        self.tally.calls()
    }
}

impl Wire for MemWire {
    ghost use Rattle.fs_outside.specs.{MemoryWires.{mem_wire_ends, mem_wire_refuses, mem_wire_room, mem_wire_tally}, Tallies.{Counts, fails}};

    ghost tells = { λ wire. Some (mem_wire_ends wire) };

    ghost faults = { λ wire. (mem_wire_tally wire).faults };

    fn open_end(&mut self, how: Opening<'_>) -> Result<(), Failed>
        ensures opened { EndOpens how.entry result (mem_wire_ends self.old) (mem_wire_ends self.new) }
        ensures counts { Counts (fails (mem_wire_tally self.old)) (mem_wire_tally self.old) (mem_wire_tally self.new) result }
        ensures room { mem_wire_room self.new ≡ mem_wire_room self.old }
    {
        if self.tally.is_listed() {
            return Err(fault(&mut self.tally.faults));
        }
        self.cable.open(how);
        Ok(())
    }

    fn read(&mut self, end: u8, into: &mut [u8]) -> Result<usize, Failed>
        requires { end ≤ 1 }
        ensures bound { ReadsAtMost result into.new }
        ensures reads { EndReads end result into.new (mem_wire_ends self.old) (mem_wire_ends self.new) }
        ensures counts { Counts (fails (mem_wire_tally self.old)) (mem_wire_tally self.old) (mem_wire_tally self.new) result }
        ensures count { IfOk result (λ n. n ≡ min
            (length (end_at end (mem_wire_ends self.old)).left)
            (min (length into.new) (mem_wire_tally self.old).most)) }
        ensures room { mem_wire_room self.new ≡ mem_wire_room self.old }
    {
        if self.tally.is_listed() {
            return Err(fault(&mut self.tally.faults));
        }
        Ok(self.cable.read(end, self.tally.most, into))
    }

    fn write(&mut self, end: u8, piece: &[u8]) -> Result<usize, Failed>
        requires { end ≤ 1 }
        ensures bound { IfOk result (λ n. n ≤ length piece.now) }
        ensures taken { 0 < length piece.now → IfOk result (λ n. 0 < n) }
        ensures writes { EndWrites end result piece.now (mem_wire_ends self.old) (mem_wire_ends self.new) }
        ensures counts { Counts
            (mem_wire_refuses self.old end piece.now)
            (mem_wire_tally self.old)
            (mem_wire_tally self.new)
            result }
        ensures count { IfOk result (λ n. n ≡ min (length piece.now) (mem_wire_tally self.old).most) }
        ensures room { mem_wire_room self.new ≡ mem_wire_room self.old }
    {
        let count = piece.len().min(self.tally.most);
        if self.tally.is_listed() || !self.cable.write(end, &piece[..count]) {
            return Err(fault(&mut self.tally.faults));
        }
        Ok(count)
    }

    fn close(&mut self, end: u8) -> Result<(), Failed>
        requires { end ≤ 1 }
        ensures closes { EndCloses (mem_wire_ends self.old) (mem_wire_ends self.new) }
        ensures counts { Counts (fails (mem_wire_tally self.old)) (mem_wire_tally self.old) (mem_wire_tally self.new) result }
        ensures room { mem_wire_room self.new ≡ mem_wire_room self.old }
    {
        if self.tally.is_listed() {
            return Err(fault(&mut self.tally.faults));
        }
        Ok(())
    }
}

/// A wire in memory of which no call fails. A write past the room is taken, and the wire tells nothing from then on.
#[derive(Drop)]
pub struct CalmWire {
    cable: Cable,
    tells: bool,
}

impl CalmWire {
    ghost use Rattle.fs_outside.specs.MemoryWires.{calm_wire_ends, calm_wire_room, new_ends};

    /// A wire that isn't open, with room for `room` octets through each end.
    ///
    /// # Errors
    ///
    /// `Memory` where the machine refused the room.
    pub fn new(alloc: Global, room: usize) -> Result<CalmWire, Memory>
        ensures ends { IfOk result (λ wire. calm_wire_ends wire ≡ Some new_ends) }
        ensures room { IfOk result (λ wire. calm_wire_room wire ≡ room) }
    {
        Ok(CalmWire {
            cable: Cable::new(alloc, room)?,
            tells: true,
        })
    }

    /// What was written through the end, where no write went past the room.
    pub fn written(&self, end: u8) -> Option<&[u8]>
        requires { end ≤ 1 }
        ensures { option_copied result ≡ option_map (λ ends. (end_at end ends).written) (calm_wire_ends self.now) }
    {
        if self.tells {
            Some(self.cable.written(end))
        } else {
            None
        }
    }
}

impl Wire for CalmWire {
    ghost use Rattle.std.specs.Prelude.{IfSome, is_some};
    ghost use Rattle.fs_outside.specs.{MemoryWires.{calm_wire_ends, calm_wire_room, calm_wire_tells}, Outside.{HasCause}, Wire.{Told, opened}};

    ghost tells = { calm_wire_ends };

    ghost faults = { λ wire. 0 };

    fn open_end(&mut self, how: Opening<'_>) -> Result<(), Failed>
        ensures cause { HasCause 0 0 result }
        ensures opened { Told (EndOpens how.entry result) (calm_wire_ends self.old) (calm_wire_ends self.new) }
        ensures all { calm_wire_ends self.new ≡ option_map (opened how.entry) (calm_wire_ends self.old) }
        ensures room { calm_wire_room self.new ≡ calm_wire_room self.old }
    {
        self.cable.open(how);
        Ok(())
    }

    fn read(&mut self, end: u8, into: &mut [u8]) -> Result<usize, Failed>
        requires { end ≤ 1 }
        ensures bound { ReadsAtMost result into.new }
        ensures cause { HasCause 0 0 result }
        ensures reads { Told (EndReads end result into.new) (calm_wire_ends self.old) (calm_wire_ends self.new) }
        ensures count { IfSome (calm_wire_ends self.old)
            (λ ends. IfOk result (λ n. n ≡ min (length (end_at end ends).left) (length into.new))) }
        ensures room { calm_wire_room self.new ≡ calm_wire_room self.old }
        ensures tells { is_some (calm_wire_ends self.new) ≡ is_some (calm_wire_ends self.old) }
    {
        Ok(self.cable.read(end, usize::MAX, into))
    }

    fn write(&mut self, end: u8, piece: &[u8]) -> Result<usize, Failed>
        requires { end ≤ 1 }
        ensures cause { HasCause 0 0 result }
        ensures bound { IfOk result (λ n. n ≤ length piece.now) }
        ensures taken { 0 < length piece.now → IfOk result (λ n. 0 < n) }
        ensures writes { Told (EndWrites end result piece.now) (calm_wire_ends self.old) (calm_wire_ends self.new) }
        ensures whole { IfOk result (λ n. n ≡ length piece.now) }
        ensures room { calm_wire_room self.new ≡ calm_wire_room self.old }
        ensures tells { is_some (calm_wire_ends self.new)
            ≡ calm_wire_tells (calm_wire_room self.old) (calm_wire_ends self.old) end piece.now }
    {
        if !self.tells || !self.cable.write(end, piece) {
            self.tells = false;
        }
        Ok(piece.len())
    }

    fn close(&mut self, _end: u8) -> Result<(), Failed>
        ensures cause { HasCause 0 0 result }
        ensures closes { Told EndCloses (calm_wire_ends self.old) (calm_wire_ends self.new) }
        ensures stays { calm_wire_ends self.new ≡ calm_wire_ends self.old }
        ensures room { calm_wire_room self.new ≡ calm_wire_room self.old }
    {
        Ok(())
    }
}
