//! Octets that wait to leave.

ghost use Rattle.std.specs.Prelude.{◌≤◌, vec_len};

use crate::Memory;
use std::alloc::Global;

/// Octets that wait to leave: those of `octets` from `left` on.
#[derive(Drop)]
pub(crate) struct Waiting {
    octets: Vec<u8>,
    left: usize,
    ghost within: { left ≤ vec_len octets },
}

impl Waiting {
    /// None.
    pub fn new(alloc: Global) -> Waiting {
        Waiting {
            octets: Vec::new(alloc),
            left: 0,
        }
    }

    /// What waits.
    pub fn rest(&self) -> &[u8] {
        &self.octets[self.left..]
    }

    /// So many have left.
    pub fn leave(&mut self, count: usize) {
        self.left += count.min(self.octets.len() - self.left);
        if self.left == self.octets.len() {
            self.clear();
        }
    }

    /// None waits any more.
    pub fn clear(&mut self) {
        self.octets.clear();
        self.left = 0;
    }

    /// These wait too, behind the others. The room of what has left is used again once it is as large as what waits.
    ///
    /// # Errors
    ///
    /// `Memory` where the machine refused memory for them.
    pub fn append(&mut self, piece: &[u8]) -> Result<(), Memory> {
        let rest = self.octets.len() - self.left;
        if self.left > rest {
            self.octets.copy_within(self.left.., 0);
            self.octets.truncate(rest);
            self.left = 0;
        }
        self.octets.extend_from_slice(piece)?;
        Ok(())
    }
}
