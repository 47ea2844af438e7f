//! Flow routes that others hold beside the table.

use crate::route::SharedRoute;
use fs_base::Memory;
use std::alloc::Global;
use std::marker::Model;
use std::rc::Rc;

/// A held flow route. Whoever shares it may keep it for as long as it likes, also when the table holds it no more.
#[derive(Drop)]
pub struct SharedFlow {
    route: Rc<SharedRoute>,
}

impl Model for SharedFlow {
    ghost use Rattle.fs_validate.specs.declared.route.FlowRoute.{FlowRoute};
    ghost use Rattle.fs_flows.specs.Shared.{flow_of};

    ghost Value = { FlowRoute };

    ghost view = { λ a. flow_of a.route.value };
}

impl SharedFlow {
    ghost use Rattle.std.specs.Prelude.{◌≡◌, IfOk};
    ghost use Rattle.fs_flows.specs.Shared.{flow_of};

    /// A flow route of one holder.
    pub(crate) fn new(alloc: Global, route: SharedRoute) -> Result<SharedFlow, Memory>
        ensures { IfOk result (λ shared. shared ≡ flow_of route) }
    {
        let route = Rc::new(alloc, route)?;
        Ok(SharedFlow { route })
    }

    /// The same flow route once more. Nothing is copied.
    ///
    /// # Errors
    ///
    /// `Memory` where the count of those that hold it has no room for one more.
    pub fn share(&self) -> Result<SharedFlow, Memory>
        ensures { IfOk result (λ shared. shared ≡ self.now) }
    {
        let route = self.route.clone()?;
        Ok(SharedFlow { route })
    }

    /// The route.
    pub fn route(&self) -> &SharedRoute
        ensures { flow_of result.now ≡ self.now }
    {
        self.route.as_ref()
    }
}
