//! Copies of components.

ghost use Rattle.std.specs.Prelude.{◌≡◌, IfOk};

use crate::component::Component;
use fs_base::Memory;
use std::alloc::Global;

impl Component {
    ghost use Rattle.std.specs.Prelude.{◌≡◌, IfOk};

    /// An equal component.
    pub fn copy(&self) -> Result<Component, Memory>
        ensures { IfOk result (λ copy. copy ≡ self.now) }
    {
        let copy = match self {
            Component::Destination(form) => Component::Destination(*form),
            Component::Source(form) => Component::Source(*form),
            Component::Protocol(list) => Component::Protocol(list.copy()?),
            Component::Port(list) => Component::Port(list.copy()?),
            Component::DestinationPort(list) => Component::DestinationPort(list.copy()?),
            Component::SourcePort(list) => Component::SourcePort(list.copy()?),
            Component::IcmpType(list) => Component::IcmpType(list.copy()?),
            Component::IcmpCode(list) => Component::IcmpCode(list.copy()?),
            Component::TcpFlags(list) => Component::TcpFlags(list.copy()?),
            Component::PacketLength(list) => Component::PacketLength(list.copy()?),
            Component::Dscp(list) => Component::Dscp(list.copy()?),
            Component::Fragment(list) => Component::Fragment(list.copy()?),
            Component::FlowLabel(list) => Component::FlowLabel(list.copy()?),
        };
        Ok(copy)
    }
}

/// Equal components, in order.
pub(crate) fn copy_all(alloc: Global, components: &[Component]) -> Result<Vec<Component>, Memory>
    ensures { IfOk result (λ copy. copy.items ≡ components.now) }
{
    let mut list = Vec::with_capacity(alloc, components.len())?;
    for component in components {
        list.push(component.copy()?)?;
    }
    Ok(list)
}
