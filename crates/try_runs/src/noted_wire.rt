//! A wire of which each call is noted.

use crate::octets::Octets;
use fs_base::{Failed, Opening, Wire};
use std::alloc::Global;

/// A wire, and the calls made on it in their order, each with a comma behind it: `listen ADDRESS`, `dial ADDRESS`,
/// `join`; and with the end's number `close`, and `read` and `write` with how many octets they moved, 0 where they failed.
#[derive(Drop)]
pub struct NotedWire<W: Wire + Drop> {
    pub wire: W,
    pub calls: Octets,
}

impl<W: Wire + Drop> NotedWire<W> {
    /// No call was made yet.
    pub fn new(alloc: Global, wire: W) -> NotedWire<W> {
        NotedWire {
            wire,
            calls: Octets::new(alloc),
        }
    }
}

impl<W: Wire + Drop> Wire for NotedWire<W> {
    ghost tells = { λ noted. W.tells noted.wire };

    ghost faults = { λ noted. W.faults noted.wire };

    fn open_end(&mut self, how: Opening<'_>) -> Result<(), Failed> {
        match how {
            Opening::Listen(address) => note_opening(&mut self.calls, "listen ", address),
            Opening::Dial(address) => note_opening(&mut self.calls, "dial ", address),
            Opening::Both => note_opening(&mut self.calls, "join", ""),
        }
        self.wire.open_end(how)
    }

    fn read(&mut self, end: u8, into: &mut [u8]) -> Result<usize, Failed> {
        let moved = self.wire.read(end, into);
        note_moved(&mut self.calls, "read ", end, &moved);
        moved
    }

    fn write(&mut self, end: u8, piece: &[u8]) -> Result<usize, Failed> {
        let moved = self.wire.write(end, piece);
        note_moved(&mut self.calls, "write ", end, &moved);
        moved
    }

    fn close(&mut self, end: u8) -> Result<(), Failed> {
        note(&mut self.calls, "close ", end);
        self.calls.word(", ");
        self.wire.close(end)
    }
}

fn note_opening(calls: &mut Octets, word: &str, address: &str) {
    calls.word(word);
    calls.word(address);
    calls.word(", ");
}

fn note(calls: &mut Octets, word: &str, end: u8) {
    calls.word(word);
    calls.show(&end);
}

fn note_moved(calls: &mut Octets, word: &str, end: u8, moved: &Result<usize, Failed>) {
    note(calls, word, end);
    calls.word(" ");
    calls.show(&match moved {
        Ok(count) => *count,
        Err(_) => 0,
    });
    calls.word(", ");
}
