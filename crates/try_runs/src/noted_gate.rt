//! A gate of which each call is noted.

use crate::octets::Octets;
use fs_base::{Event, Failed, Gate, Memory, Reading};
use std::alloc::Global;

/// A gate, and what was asked of it in order, each with a comma behind it: `open ADDRESS`, `dial ADDRESS`, `read NAME`,
/// `send LINE OCTETS` in hexadecimal, `close LINE`.
#[derive(Drop)]
pub struct NotedGate<G: Gate + Drop> {
    gate: G,
    pub asked: Octets,
}

impl<G: Gate + Drop> NotedGate<G> {
    /// Nothing was asked yet.
    pub fn new(alloc: Global, gate: G) -> NotedGate<G> {
        NotedGate {
            gate,
            asked: Octets::new(alloc),
        }
    }
}

impl<G: Gate + Drop> Gate for NotedGate<G> {
    ghost turns = { λ noted. G.turns noted.gate };

    ghost faults = { λ noted. G.faults noted.gate };

    fn open(&mut self, address: &str) -> Result<(), Failed> {
        note("open ", address, &mut self.asked);
        self.gate.open(address)
    }

    fn dial(&mut self, address: &str) -> u64 {
        note("dial ", address, &mut self.asked);
        self.gate.dial(address)
    }

    fn next(&mut self, into: &mut [u8]) -> Result<Event, Failed> {
        self.gate.next(into)
    }

    fn reread(&mut self, name: &str, limit: u64, into: &mut Vec<u8>) -> Result<Reading, Memory> {
        note("read ", name, &mut self.asked);
        self.gate.reread(name, limit, into)
    }

    fn send(&mut self, line: u64, piece: &[u8]) {
        self.asked.word("send ");
        self.asked.show(&line);
        self.asked.word(" ");
        self.asked.digits_of(piece);
        self.asked.word(", ");
        self.gate.send(line, piece);
    }

    fn close(&mut self, line: u64) {
        self.asked.word("close ");
        self.asked.show(&line);
        self.asked.word(", ");
        self.gate.close(line);
    }
}

/// Notes a call by its word, and by the name that it was given.
fn note(word: &str, name: &str, asked: &mut Octets) {
    asked.word(word);
    asked.word(name);
    asked.word(", ");
}
