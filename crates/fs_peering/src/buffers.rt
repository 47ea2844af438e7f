//! The buffers of a loop.

use std::alloc::Global;

/// So many octets are read at once.
pub(crate) const PIECE: usize = 4096;

/// What is read, and what an end says to it.
#[derive(Drop)]
pub struct Buffers {
    pub buffer: [u8; PIECE],
    pub out: Vec<u8>,
}

impl Buffers {
    /// Empty buffers.
    pub fn new(alloc: Global) -> Buffers {
        Buffers {
            buffer: [0; PIECE],
            out: Vec::new(alloc),
        }
    }
}
