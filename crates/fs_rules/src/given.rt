//! What the routes of one UPDATE have in common.

ghost use Rattle.std.specs.Prelude.{◌≡◌, IfOk};

use fs_actions::Actions;
use fs_base::{Memory, Path};
use fs_flows::SharedActions;
use fs_unicast::SharedPath;
use std::alloc::Global;

/// The path and the actions of the routes that one UPDATE gives: its routes share both.
#[derive(Drop)]
pub struct Given {
    pub path: SharedPath,
    pub actions: SharedActions,
}

impl Given {
    /// The path and the actions, shared by no route yet.
    pub(crate) fn new(alloc: Global, path: Path, actions: Actions) -> Result<Given, Memory>
        ensures { IfOk result (λ given. given ≡ record { path = path; actions = actions }) }
    {
        Ok(Given {
            path: SharedPath::new(alloc, path)?,
            actions: SharedActions::new(alloc, actions)?,
        })
    }

    /// The same path and actions once more. Nothing is copied.
    pub(crate) fn share(&self) -> Result<Given, Memory>
        ensures { IfOk result (λ given. given ≡ self.now) }
    {
        Ok(Given {
            path: self.path.share()?,
            actions: self.actions.share()?,
        })
    }

    /// The path and the actions, each as those that came before have it where it is equal.
    pub(crate) fn beside(self, before: Option<&Given>) -> Result<Given, Memory>
        ensures { IfOk result (λ given. given ≡ self) }
    {
        let Some(before) = before else {
            return Ok(self);
        };
        let path = path_beside(self.path, &before.path)?;
        let actions = actions_beside(self.actions, &before.actions)?;
        Ok(Given { path, actions })
    }
}

fn path_beside(path: SharedPath, before: &SharedPath) -> Result<SharedPath, Memory>
    ensures { IfOk result (λ shared. shared ≡ path) }
{
    if before.is(path.path()) {
        before.share()
    } else {
        Ok(path)
    }
}

fn actions_beside(actions: SharedActions, before: &SharedActions) -> Result<SharedActions, Memory>
    ensures { IfOk result (λ shared. shared ≡ actions) }
{
    if before.are(actions.actions()) {
        before.share()
    } else {
        Ok(actions)
    }
}
