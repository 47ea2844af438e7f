//! Octets written within a room.

ghost use Rattle.std.specs.Prelude.{◌≡◌, ◌≤◌, ◌+◌, ◌++◌, [], IfOk, not, nat_lt, if◌then◌else◌, length, vec_capacity, vec_len};

use crate::Memory;
use std::alloc::Global;

/// What was written, with room for so many octets.
#[derive(Drop)]
pub(crate) struct Text {
    pub octets: Vec<u8>,
    pub room: usize,
    pub ghost reserved: { room ≤ vec_capacity octets },
    pub ghost within: { vec_len octets ≤ room },
}

impl Text {
    /// Nothing yet.
    pub fn new(alloc: Global, room: usize) -> Result<Text, Memory>
        ensures octets { IfOk result (λ text. text.octets.items ≡ []) }
        ensures room { IfOk result (λ text. text.room ≡ room) }
    {
        Ok(Text {
            octets: Vec::with_capacity(alloc, room)?,
            room,
        })
    }

    /// Appends octets, where they go within the room, and answers whether they do.
    pub fn append(&mut self, piece: &[u8]) -> bool
        ensures fits { result ≡ not (nat_lt self.old.room (length self.old.octets.items + length piece.now)) }
        ensures octets { self.new.octets.items
            ≡ (if result then self.old.octets.items ++ piece.now else self.old.octets.items) }
        ensures room { self.new.room ≡ self.old.room }
    {
        piece.len() <= self.room - self.octets.len() && self.octets.extend_from_slice(piece).is_ok()
    }
}
