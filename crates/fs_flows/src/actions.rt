//! Actions that routes share.

ghost use Rattle.std.specs.Prelude.{◌≡◌, ◌↔◌, IfOk, IsTrue};

use fs_actions::Actions;
use fs_base::Memory;
use std::alloc::Global;
use std::marker::Model;
use std::rc::Rc;

/// Actions that many routes may have: most of a peer's routes have the same.
#[derive(Drop)]
pub struct SharedActions {
    actions: Rc<Actions>,
}

impl Model for SharedActions {
    ghost use Rattle.std.specs.Prelude.{ℕ, List};

    ghost Value = { List (List ℕ) };

    ghost view = { λ a. a.actions.value };
}

impl SharedActions {
    /// Actions of one route.
    pub fn new(alloc: Global, actions: Actions) -> Result<SharedActions, Memory>
        ensures { IfOk result (λ shared. shared ≡ actions) }
    {
        let actions = Rc::new(alloc, actions)?;
        Ok(SharedActions { actions })
    }

    /// The same actions once more, of which none is copied.
    ///
    /// # Errors
    ///
    /// `Memory` where they are shared too often to be counted.
    pub fn share(&self) -> Result<SharedActions, Memory>
        ensures { IfOk result (λ shared. shared ≡ self.now) }
    {
        let actions = self.actions.clone()?;
        Ok(SharedActions { actions })
    }

    /// The actions.
    pub fn actions(&self) -> &Actions
        ensures { result.now ≡ self.now }
    {
        self.actions.as_ref()
    }

    /// Whether these are the actions.
    pub fn are(&self, actions: &Actions) -> bool
        ensures { IsTrue result ↔ self.now ≡ actions.now }
    {
        self.actions().as_slice() == actions.as_slice()
    }
}
