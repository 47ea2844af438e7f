//! Octets that were read and put back.

ghost use Rattle.std.specs.Prelude.{◌≡◌, ◌≤◌, ◌+◌, ◌++◌, ◌↔◌, [], IsTrue, drop, length, min, take};

use std::marker::Model;

/// At most four octets that were read, and are to be read again.
#[derive(Clone, Copy, Debug, Drop)]
pub struct Back {
    octets: [u8; 4],
    from: usize,
}

impl Model for Back {
    ghost use Rattle.std.specs.Prelude.{ℕ, List, ◌-◌, ◌++◌, drop, length, replicate};
    ghost use Rattle.fs_base.specs.Back.{IsBack, from_again, octets_again};

    ghost Value = { List ℕ };

    ghost view = { λ back. drop back.from back.octets };

    ghost invariant = { λ back. IsBack back.octets back.from };

    ghost inverse = { λ octets. record {
      octets = replicate (4 - length octets) 0 ++ octets;
      from = 4 - length octets;
    } };

    ghost inverse_ok = { λ back h i. record {
      octets = octets_again h i;
      from = from_again h i;
    } };
}

impl Back {
    /// None.
    pub fn none() -> Back
        ensures { result ≡ [] }
    {
        Back {
            octets: [0; 4],
            from: 4,
        }
    }

    /// Whether there are none.
    pub fn is_empty(&self) -> bool
        ensures { IsTrue result ↔ (length self.now ≡ 0) }
    {
        self.from == 4
    }

    /// Puts octets before those that are there.
    pub fn put(&mut self, octets: &[u8])
        requires { length octets.now + length self.old ≤ 4 }
        ensures { self.new ≡ octets.now ++ self.old }
    {
        let from = self.from - octets.len();
        self.octets[from..self.from].copy_from_slice(octets);
        self.from = from;
    }

    /// Takes octets from the front into the front of `into`, as far as it has room, and answers how many.
    pub fn take(&mut self, into: &mut [u8]) -> usize
        ensures count { result ≡ min (length self.old) (length into.new) }
        ensures copied { take result into.new ≡ take result self.old }
        ensures left { self.new ≡ drop result self.old }
    {
        let rest = &self.octets[self.from..];
        let count = rest.len().min(into.len());
        into[..count].copy_from_slice(&rest[..count]);
        self.octets[self.from..self.from + count].fill(0);
        self.from += count;
        count
    }
}
