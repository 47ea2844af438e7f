//! A file that is read in blocks.

ghost use Rattle.std.specs.{Prelude.{◌≡◌, ◌≤◌, length, vec_len}, Io.{ReadsAtMost}};

use crate::Failed;
use std::alloc::{AllocError, Global};
use std::io::Read;

/// Files are read in blocks of so many octets, so that small reads cost no call of the system.
const BLOCK: usize = 256 * 1024;

/// A file, and its last block, of which the octets in `from..to` are still to be given.
#[derive(Drop)]
pub(crate) struct Blocks<F> {
    file: F,
    block: Vec<u8>,
    from: usize,
    to: usize,
    ghost ordered: { from ≤ to },
    ghost within: { to ≤ vec_len block },
}

impl<F: Read + Drop> Blocks<F> {
    /// No block is read yet.
    pub fn new(alloc: Global, file: F) -> Result<Blocks<F>, AllocError> {
        Ok(Blocks {
            file,
            block: vec![in alloc; 0u8; BLOCK]?,
            from: 0,
            to: 0,
        })
    }

    /// Fills `into` where the block holds as many octets, and answers whether it does.
    #[inline(always)]
    pub fn fill(&mut self, into: &mut [u8]) -> bool {
        let end = self.from + into.len();
        if end > self.to {
            return false;
        }
        into.copy_from_slice(&self.block[self.from..end]);
        self.from = end;
        true
    }

    /// What the block still holds.
    #[inline(always)]
    pub fn at_hand(&self) -> &[u8] {
        &self.block[self.from..self.to]
    }

    /// Reads octets into the front of `into`: what the block still holds, else of the next one, and past all blocks
    /// where `into` is as large as one.
    #[inline(never)]
    pub fn read(&mut self, into: &mut [u8]) -> Result<usize, Failed>
        ensures { ReadsAtMost result into.new }
    {
        if self.from == self.to {
            if into.len() >= BLOCK {
                return read_once(&mut self.file, into);
            }
            self.from = 0;
            self.to = 0;
            self.to = read_once(&mut self.file, &mut self.block)?;
        }
        let count = into.len().min(self.to - self.from);
        into[..count].copy_from_slice(&self.block[self.from..self.from + count]);
        self.from += count;
        Ok(count)
    }
}

/// One read of the system's.
fn read_once<F: Read>(file: &mut F, into: &mut [u8]) -> Result<usize, Failed>
    ensures { ReadsAtMost result into.new }
{
    match file.read(into) {
        Ok(count) => Ok(count),
        Err(_) => Err(Failed),
    }
}
