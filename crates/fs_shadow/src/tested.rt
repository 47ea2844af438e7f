//! What a component tests, by its type.

ghost use Rattle.fs_nlri.specs.Component.{part_of};
ghost use Rattle.fs_shadow.specs.Tested.{IsTested};

use fs_nlri::{Component, PrefixForm};
use fs_ops::{MaskList, NumList};

/// What a component tests.
#[derive(Clone, Copy)]
pub(crate) enum Tested<'a> {
    /// Bits of an address.
    Prefix(PrefixForm),
    /// A number, by its size.
    Number(&'a NumList),
    /// A number, by its bits.
    Bits(&'a MaskList),
}

pub(crate) fn test_of(component: &Component) -> Tested<'_>
    ensures { IsTested (part_of component.now) result }
{
    match component {
        Component::Destination(form) => Tested::Prefix(*form),
        Component::Source(form) => Tested::Prefix(*form),
        Component::Protocol(list) => Tested::Number(list),
        Component::Port(list) => Tested::Number(list),
        Component::DestinationPort(list) => Tested::Number(list),
        Component::SourcePort(list) => Tested::Number(list),
        Component::IcmpType(list) => Tested::Number(list),
        Component::IcmpCode(list) => Tested::Number(list),
        Component::TcpFlags(list) => Tested::Bits(list),
        Component::PacketLength(list) => Tested::Number(list),
        Component::Dscp(list) => Tested::Number(list),
        Component::Fragment(list) => Tested::Bits(list),
        Component::FlowLabel(list) => Tested::Number(list),
    }
}
