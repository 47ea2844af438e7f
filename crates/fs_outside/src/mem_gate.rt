//! A gate in memory, by a script.

ghost use Rattle.std.specs.Prelude.{◌≡◌, ◌∷◌, ◌||◌, [], ◌<◌, Some, IfOk, length, not};
ghost use Rattle.fs_outside.specs.{Gate.{FitsIn, HandsOver, IsCounted, Rereads, Tells, dialled, said, shut}, Outside.{HasCause}, Sink.{Grew}};

use crate::script::Script;
use crate::tally::{Tally, fault};
use crate::turns::Turns;
use crate::{Cue, Event, Failed, Found, Gate, Held, Memory, Reading};
use std::alloc::Global;

/// A gate in memory. What comes stands in a list of cues, each with its moment and its time; what the file holds in one of
/// readings, of which the last stays. The file has any name, and is read at the moment and the time of the last event.
/// Connections that are dialled have the numbers 1, 2, 3 and so on.
///
/// Calls of `open`, `next` and `reread` are counted together from 1, and those that a list names fail. `next` fails too
/// where no cue is left, and where the next one gives no octets, or more than fit. The gate tells its turns, up to the
/// first for which the machine refuses the memory to note it.
#[derive(Drop)]
pub struct MemGate {
    script: Script,
    turns: Turns,
    tally: Tally,
}

impl MemGate {
    ghost use Rattle.fs_outside.specs.MemoryGates.{mem_gate_script, mem_gate_tally, mem_gate_turns};
    ghost use Rattle.fs_outside.specs.Scripts.{AddsContent, AddsEvent, coming, held_of, new_script, what_of};
    ghost use Rattle.fs_outside.specs.Tallies.{no_calls};

    /// Nothing is to come. The calls of these numbers will fail.
    pub fn new(alloc: Global, failing: Vec<u64>) -> MemGate
        ensures script { mem_gate_script result ≡ new_script }
        ensures turns { mem_gate_turns result ≡ Some [] }
        ensures tally { mem_gate_tally result ≡ no_calls failing.items }
    {
        MemGate {
            script: Script::new(alloc),
            turns: Turns::new(alloc),
            tally: Tally::new(failing),
        }
    }

    /// This is to come after all that is to come before it, at a moment of the clock on the wall (nanoseconds from 1970)
    /// and a time of the steady one (milliseconds).
    ///
    /// # Errors
    ///
    /// `Memory`: nothing was added.
    pub fn cue(&mut self, moment: u64, time: u64, cue: Cue) -> Result<(), Memory>
        ensures script { AddsEvent
            result
            (coming moment time (what_of cue))
            (mem_gate_script self.old)
            (mem_gate_script self.new) }
        ensures turns { mem_gate_turns self.new ≡ mem_gate_turns self.old }
        ensures tally { mem_gate_tally self.new ≡ mem_gate_tally self.old }
    {
        self.script.cue(moment, time, cue)
    }

    /// This is what the file holds at the reading after those that are known, and from then on.
    ///
    /// # Errors
    ///
    /// `Memory`: nothing was added.
    pub fn hold(&mut self, held: Held) -> Result<(), Memory>
        ensures script { AddsContent result (held_of held) (mem_gate_script self.old) (mem_gate_script self.new) }
        ensures turns { mem_gate_turns self.new ≡ mem_gate_turns self.old }
        ensures tally { mem_gate_tally self.new ≡ mem_gate_tally self.old }
    {
        self.script.hold(held)
    }

    /// So many calls were counted.
    pub fn calls(&self) -> u64
        ensures { result ≡ (mem_gate_tally self.now).calls }
    {
        self.tally.calls()
    }
}

impl Gate for MemGate {
    ghost use Rattle.fs_outside.specs.MemoryGates.{CountsReading, FindsNext, FindsReading, mem_gate_refuses, mem_gate_script, mem_gate_tally};
    ghost use Rattle.fs_outside.specs.MemoryGates.{mem_gate_turns};
    ghost use Rattle.fs_outside.specs.{Scripts.{dialled_once}, Tallies.{Counts, fails}};

    ghost turns = { mem_gate_turns };

    ghost faults = { λ gate. (mem_gate_tally gate).faults };

    fn open(&mut self, _address: &str) -> Result<(), Failed>
        ensures opened { Grew (mem_gate_turns self.old) (mem_gate_turns self.new) [] }
        ensures counts { Counts (fails (mem_gate_tally self.old)) (mem_gate_tally self.old) (mem_gate_tally self.new) result }
        ensures script { mem_gate_script self.new ≡ mem_gate_script self.old }
    {
        if self.tally.is_listed() {
            return Err(fault(&mut self.tally.faults));
        }
        Ok(())
    }

    fn dial(&mut self, address: &str) -> u64
        ensures faults { (mem_gate_tally self.new).faults ≡ (mem_gate_tally self.old).faults }
        ensures dialled { Grew (mem_gate_turns self.old) (mem_gate_turns self.new) (dialled result address.now ∷ []) }
        ensures tally { mem_gate_tally self.new ≡ mem_gate_tally self.old }
        ensures script { mem_gate_script self.new ≡ dialled_once (mem_gate_script self.old) }
        ensures line { result ≡ (mem_gate_script self.new).dialled }
    {
        let line = self.script.dial();
        self.turns.dialled(line, address);
        line
    }

    fn next(&mut self, into: &mut [u8]) -> Result<Event, Failed>
        ensures bound { IfOk result (λ event. FitsIn event.came into.new) }
        ensures told { Tells result into.new (mem_gate_turns self.old) (mem_gate_turns self.new) }
        ensures counts { Counts
            (mem_gate_refuses self.old (length into.old))
            (mem_gate_tally self.old)
            (mem_gate_tally self.new)
            result }
        ensures gives { FindsNext result into.new (mem_gate_script self.old) (mem_gate_script self.new) }
    {
        if self.tally.is_listed() {
            return Err(fault(&mut self.tally.faults));
        }
        let Some(event) = self.script.next(into) else {
            return Err(fault(&mut self.tally.faults));
        };
        self.turns.event(event, into);
        Ok(event)
    }

    fn reread(&mut self, name: &str, limit: u64, into: &mut Vec<u8>) -> Result<Reading, Memory>
        ensures bound { HandsOver result limit into.new.items }
        ensures read { Rereads result name.now into.new.items (mem_gate_turns self.old) (mem_gate_turns self.new) }
        ensures counts { CountsReading (mem_gate_tally self.old) (mem_gate_tally self.new) result }
        ensures gives { FindsReading
            (fails (mem_gate_tally self.old))
            result
            limit
            into.new.items
            (mem_gate_script self.old)
            (mem_gate_script self.new) }
    {
        into.clear();
        let found = if self.tally.is_listed() {
            let _ = fault(&mut self.tally.faults);
            Found::Failed
        } else {
            self.script.reread(limit, into)?
        };
        let reading = self.script.reading(found);
        self.turns.reading(reading, name, into);
        Ok(reading)
    }

    fn send(&mut self, line: u64, piece: &[u8])
        ensures faults { (mem_gate_tally self.new).faults ≡ (mem_gate_tally self.old).faults }
        ensures sent { Grew (mem_gate_turns self.old) (mem_gate_turns self.new) (said line piece.now ∷ []) }
        ensures tally { mem_gate_tally self.new ≡ mem_gate_tally self.old }
        ensures script { mem_gate_script self.new ≡ mem_gate_script self.old }
    {
        self.turns.said(line, piece);
    }

    fn close(&mut self, line: u64)
        ensures faults { (mem_gate_tally self.new).faults ≡ (mem_gate_tally self.old).faults }
        ensures closed { Grew (mem_gate_turns self.old) (mem_gate_turns self.new) (shut line ∷ []) }
        ensures tally { mem_gate_tally self.new ≡ mem_gate_tally self.old }
        ensures script { mem_gate_script self.new ≡ mem_gate_script self.old }
    {
        self.turns.shut(line);
    }
}
