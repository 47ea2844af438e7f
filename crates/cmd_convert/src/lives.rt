//! Which peers have a life, as the tape so far tells.

ghost use Rattle.std.specs.Prelude.{◌≡◌};
ghost use Rattle.cmd_convert.specs.Lives.{has_width};

use fs_base::Memory;
use std::alloc::Global;
use std::marker::Model;

/// How many numbers there are for peers.
const NUMBERS: usize = 65536;

/// The life of each peer, by its number: `None` where it is down, else whether its OPEN told that AS numbers have four
/// octets.
#[derive(Drop)]
pub(crate) struct Lives {
    by_number: Vec<Option<bool>>,
}

impl Model for Lives {
    ghost use Rattle.std.specs.Prelude.{◌≡◌, Bool, List, Option, length};

    ghost Value = { List (Option Bool) };

    ghost view = { λ a. a.by_number.items };

    ghost invariant = { λ a. length a.by_number.items ≡ 65536 };
}

impl Lives {
    ghost use Rattle.std.specs.Prelude.{◌≡◌, ℕ, None, Some, IfOk};
    ghost use Rattle.cmd_convert.specs.Lives.{lives_of, with_life};

    /// Every peer is down. Takes all memory that is needed; no other call takes any.
    pub(crate) fn new(alloc: Global) -> Result<Lives, Memory>
        ensures { IfOk result (λ lives. (peer : ℕ) → lives_of lives peer ≡ None) }
    {
        Ok(Lives {
            by_number: vec![in alloc; None; NUMBERS]?,
        })
    }

    /// The peer's life.
    pub(crate) fn of(&self, peer: u16) -> Option<bool>
        ensures { result ≡ lives_of self.now peer }
    {
        self.by_number[usize::from(peer)]
    }

    /// The peer has this life from now on.
    pub(crate) fn set(&mut self, peer: u16, life: Option<bool>)
        ensures { (other : ℕ) → lives_of self.new other ≡ with_life peer life (lives_of self.old) other }
    {
        self.by_number[usize::from(peer)] = life;
    }
}

/// Whether it is a life whose OPEN told AS numbers of this width.
pub(crate) fn has_width(life: Option<bool>, wide: bool) -> bool
    ensures { result ≡ has_width life wide }
{
    match life {
        Some(told) => told == wide,
        None => false,
    }
}
