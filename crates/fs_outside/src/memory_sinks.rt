//! Sinks in memory: one whose writes can be made to fail, and one that never fails.

ghost use Rattle.std.specs.Prelude.{◌≡◌, ◌≤◌, ◌<◌, [], Some, IfOk, min, length, option_copied};
ghost use Rattle.fs_outside.specs.{Outside.{HasCause}, Sink.{WriteGrew}};

use crate::tally::{Tally, fault};
use crate::text::Text;
use crate::{Failed, Memory, Sink};
use std::alloc::Global;

/// A sink in memory with room for a stated count of octets. Its writes are counted from 1, and those that a list
/// names fail, as does a write past the room.
#[derive(Drop)]
pub struct MemSink {
    text: Text,
    tally: Tally,
}

impl MemSink {
    ghost use Rattle.fs_outside.specs.{MemorySinks.{mem_sink_room, mem_sink_tally, mem_sink_text}, Tallies.{narrowed, no_calls}};

    /// An empty sink with room for `room` octets. The writes of these numbers will fail.
    ///
    /// # Errors
    ///
    /// `Memory` where the machine refused the room.
    pub fn new(alloc: Global, room: usize, failing: Vec<u64>) -> Result<MemSink, Memory>
        ensures text { IfOk result (λ sink. mem_sink_text sink ≡ []) }
        ensures room { IfOk result (λ sink. mem_sink_room sink ≡ room) }
        ensures tally { IfOk result (λ sink. mem_sink_tally sink ≡ no_calls failing.items) }
    {
        Ok(MemSink {
            text: Text::new(alloc, room)?,
            tally: Tally::new(failing),
        })
    }

    /// From now on no write takes more than `count` octets.
    pub fn narrow(&mut self, count: usize)
        requires { 1 ≤ count }
        ensures tally { mem_sink_tally self.new ≡ narrowed count (mem_sink_tally self.old) }
        ensures text { mem_sink_text self.new ≡ mem_sink_text self.old }
        ensures room { mem_sink_room self.new ≡ mem_sink_room self.old }
    {
        self.tally.narrow(count);
    }

    /// What was written.
    pub fn text(&self) -> &[u8]
        ensures { result.now ≡ mem_sink_text self.now }
    {
        &self.text.octets
    }
}

impl Sink for MemSink {
    ghost use Rattle.fs_outside.specs.{MemorySinks.{mem_sink_refuses, mem_sink_room, mem_sink_tally, mem_sink_text}, Tallies.{Counts}};

    ghost written = { λ sink. Some (mem_sink_text sink) };

    ghost faults = { λ sink. (mem_sink_tally sink).faults };

    fn write(&mut self, piece: &[u8]) -> Result<usize, Failed>
        ensures bound { IfOk result (λ n. n ≤ length piece.now) }
        ensures taken { 0 < length piece.now → IfOk result (λ n. 0 < n) }
        ensures written { WriteGrew (Some (mem_sink_text self.old)) (Some (mem_sink_text self.new)) result piece.now }
        ensures counts { Counts (mem_sink_refuses self.old piece.now) (mem_sink_tally self.old) (mem_sink_tally self.new) result }
        ensures count { IfOk result (λ n. n ≡ min (length piece.now) (mem_sink_tally self.old).most) }
        ensures room { mem_sink_room self.new ≡ mem_sink_room self.old }
    {
        let count = piece.len().min(self.tally.most);
        if self.tally.is_listed() || !self.text.append(&piece[..count]) {
            return Err(fault(&mut self.tally.faults));
        }
        Ok(count)
    }
}

/// A sink in memory of which no write fails. It has room for a stated count of octets; a write past it is taken,
/// and the sink tells nothing from then on.
#[derive(Drop)]
pub struct CalmSink {
    text: Text,
    tells: bool,
}

impl CalmSink {
    ghost use Rattle.fs_outside.specs.MemorySinks.{calm_sink_room, calm_sink_written};

    /// An empty sink with room for `room` octets.
    ///
    /// # Errors
    ///
    /// `Memory` where the machine refused the room.
    pub fn new(alloc: Global, room: usize) -> Result<CalmSink, Memory>
        ensures written { IfOk result (λ sink. calm_sink_written sink ≡ Some []) }
        ensures room { IfOk result (λ sink. calm_sink_room sink ≡ room) }
    {
        Ok(CalmSink {
            text: Text::new(alloc, room)?,
            tells: true,
        })
    }

    /// What was written, where no write went past the room.
    pub fn text(&self) -> Option<&[u8]>
        ensures { option_copied result ≡ calm_sink_written self.now }
    {
        if self.tells {
            Some(&self.text.octets)
        } else {
            None
        }
    }
}

impl Sink for CalmSink {
    ghost use Rattle.fs_outside.specs.MemorySinks.{calm_sink_room, calm_sink_after, calm_sink_written};

    ghost written = { calm_sink_written };

    ghost faults = { λ sink. 0 };

    fn write(&mut self, piece: &[u8]) -> Result<usize, Failed>
        ensures cause { HasCause 0 0 result }
        ensures bound { IfOk result (λ n. n ≤ length piece.now) }
        ensures taken { 0 < length piece.now → IfOk result (λ n. 0 < n) }
        ensures written { WriteGrew (calm_sink_written self.old) (calm_sink_written self.new) result piece.now }
        ensures whole { IfOk result (λ n. n ≡ length piece.now) }
        ensures room { calm_sink_room self.new ≡ calm_sink_room self.old }
        ensures tells { calm_sink_written self.new
            ≡ calm_sink_after (calm_sink_room self.old) (calm_sink_written self.old) piece.now }
    {
        if !self.tells || !self.text.append(piece) {
            self.tells = false;
        }
        Ok(piece.len())
    }
}
