//! A gate at which nothing ever comes.

ghost use Rattle.std.specs.Prelude.{◌≡◌, IfOk, IsErr, IsOk};
ghost use Rattle.fs_outside.specs.Outside.{HasCause};

use crate::tally::fault;
use crate::{Event, Failed, Found, Gate, Memory, Reading};

/// A gate at which nothing ever comes: it opens, and waiting for an event fails at once, so that who waits here ends. No
/// connection that is dialled is ever told of, and the file isn't there. It tells no turns. It serves runs of commands that
/// ask nothing of a gate.
#[derive(Drop)]
pub struct CalmGate {
    faults: u64,
}

impl CalmGate {
    ghost use Rattle.fs_outside.specs.MemoryGates.{calm_gate_faults};

    /// A gate of which no call has failed.
    pub fn new() -> CalmGate
        ensures { calm_gate_faults result ≡ 0 }
    {
        CalmGate { faults: 0 }
    }
}

impl Gate for CalmGate {
    ghost use Rattle.std.specs.Prelude.{None};
    ghost use Rattle.fs_outside.specs.{Gate.{HandsOver, IsCounted}, MemoryGates.{calm_gate_faults}};

    ghost turns = { λ gate. None };

    ghost faults = { calm_gate_faults };

    fn open(&mut self, _address: &str) -> Result<(), Failed>
        ensures cause { HasCause (calm_gate_faults self.old) (calm_gate_faults self.new) result }
        ensures opened { IsOk result }
        ensures stays { self.new ≡ self.old }
    {
        Ok(())
    }

    fn dial(&mut self, _address: &str) -> u64
        ensures faults { calm_gate_faults self.new ≡ calm_gate_faults self.old }
        ensures line { result ≡ 0 }
        ensures stays { self.new ≡ self.old }
    {
        0
    }

    fn next(&mut self, _into: &mut [u8]) -> Result<Event, Failed>
        ensures cause { HasCause (calm_gate_faults self.old) (calm_gate_faults self.new) result }
        ensures nothing { IsErr result }
    {
        Err(fault(&mut self.faults))
    }

    fn reread(&mut self, _name: &str, _limit: u64, into: &mut Vec<u8>) -> Result<Reading, Memory>
        ensures cause { IsCounted (calm_gate_faults self.old) (calm_gate_faults self.new) result }
        ensures bound { HandsOver result _limit into.new.items }
        ensures absent { IfOk result (λ reading. reading.found ≡ Found.Absent) }
        ensures stays { self.new ≡ self.old }
    {
        into.clear();
        Ok(Reading {
            moment: 0,
            time: 0,
            found: Found::Absent,
        })
    }

    fn send(&mut self, _line: u64, _piece: &[u8])
        ensures faults { calm_gate_faults self.new ≡ calm_gate_faults self.old }
        ensures stays { self.new ≡ self.old }
    {}

    fn close(&mut self, _line: u64)
        ensures faults { calm_gate_faults self.new ≡ calm_gate_faults self.old }
        ensures stays { self.new ≡ self.old }
    {}
}
