//! A list of which a front was taken.

ghost use Rattle.std.specs.Prelude.{◌≡◌, ◌≤◌, ◌++◌, ◌∷◌, [], MatchResult, drop, length, option_copied, slice_get, vec_len};

use crate::Memory;
use std::alloc::Global;
use std::marker::Model;

/// What remains of a list: the items from `taken` on.
#[derive(Drop)]
pub(crate) struct Remaining<T> {
    items: Vec<T>,
    taken: usize,
    ghost within: { taken ≤ vec_len items },
}

impl<T> Model for Remaining<T> {
    ghost use Rattle.std.specs.Prelude.{List, drop};

    ghost Value = { List T };

    ghost view = { λ list. drop list.taken list.items.items };
}

impl<T: Drop> Remaining<T> {
    /// Nothing.
    pub fn new(alloc: Global) -> Remaining<T>
        ensures { result ≡ [] }
    {
        Remaining {
            items: Vec::new(alloc),
            taken: 0,
        }
    }

    /// Adds an item at the end.
    ///
    /// # Errors
    ///
    /// `Memory`: nothing was added.
    #[tactic(auto, using(crate::proofs::Scripting::one_more))]
    pub fn push(&mut self, item: T) -> Result<(), Memory>
        ensures { MatchResult result (λ _. self.new ≡ self.old ++ item ∷ []) (λ _. self.new ≡ self.old) }
    {
        self.items.push(item)?;
        Ok(())
    }

    /// The first that remains.
    #[tactic(auto, using(crate::proofs::Scripting::first_of))]
    pub fn first(&self) -> Option<&T>
        ensures { option_copied result ≡ slice_get self.now 0 }
    {
        self.items.get(self.taken)
    }

    /// So many remain.
    #[tactic(auto, using(crate::proofs::Scripting::size_of))]
    pub fn len(&self) -> usize
        ensures { result ≡ length self.now }
    {
        self.items.len() - self.taken
    }

    /// Takes the first, where there is one.
    #[tactic(auto, using(crate::proofs::Scripting::passed, crate::proofs::Scripting::all_passed))]
    pub fn pass(&mut self)
        ensures { self.new ≡ drop 1 self.old }
    {
        if self.taken < self.items.len() {
            self.taken += 1;
        }
    }
}
