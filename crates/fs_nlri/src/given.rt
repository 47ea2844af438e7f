//! Whether components are the family's, by rising types (RFC 8955 section 4.2, RFC 8956 section 3).

ghost use Rattle.std.specs.{Prelude.{◌≡◌, ◌↔◌, IsTrue, IfNone}, Bool.{OnTrue}};
ghost use Rattle.fs_ops.specs.OperatorList.{IsNormal};
ghost use Rattle.fs_nlri.specs.{Forms.{all_allowed, prefix_form}, Component.{body_of, part_of, parts_of}, Spelling.{IsRange}};
ghost use Rattle.fs_nlri.specs.Making.{is_range, body_given, part_given, all_given, rises, IsTypedBody, IsTyped, AreTyped, fault_in};

use crate::component::{Component, PrefixForm};
use crate::fault::RuleFault;
use fs_base::Family;
use fs_ops::{OfKind, OperatorList, width_code_of};

/// Whether each value has one of the widths, by their codes.
fn are_allowed(widths: &[u8], pairs: &[(u8, u64)]) -> bool
    ensures { result ≡ all_allowed widths.now pairs.now }
{
    for &(operator, _) in pairs {
        if !widths.contains(&width_code_of(operator)) {
            return false;
        }
    }
    true
}

fn list_allowed<K: OfKind>(widths: &[u8], list: &OperatorList<K>) -> bool
    ensures value { result ≡ all_allowed widths.now list.now }
    ensures normal { IsNormal K.KIND list.now }
{
    are_allowed(widths, list.pairs())
}

/// Whether the bits from `offset` to `length` are a part of an address, or both are 0.
pub(crate) fn has_range(length: u8, offset: u8) -> bool
    ensures tested { result ≡ is_range length offset }
    ensures range { IsTrue result ↔ IsRange length offset }
{
    length <= 128 && (offset < length || length == 0 && offset == 0)
}

/// Whether the form of a prefix component is the family's.
fn form_given(family: Family, form: &PrefixForm) -> bool
    ensures value { result ≡ body_given (prefix_form family) (body_of form.now) }
    ensures sound { OnTrue result (IsTypedBody (prefix_form family) (body_of form.now)) }
{
    match (family, *form) {
        (Family::V4, PrefixForm::V4(prefix)) => prefix.family == Family::V4,
        (Family::V6, PrefixForm::V6 { length, offset, .. }) => has_range(length, offset),
        _ => false,
    }
}

/// The codes of all widths.
pub(crate) const ALL_WIDTHS: [u8; 4] = [0, 1, 2, 3];

/// Of TCP flags: one octet or two (RFC 8955 section 4.2.2.9).
pub(crate) const FLAG_WIDTHS: [u8; 2] = [0, 1];

/// One octet alone.
pub(crate) const ONE_OCTET: [u8; 1] = [0];

/// The bits of an octet that are the DSCP (RFC 8955 section 4.2.2.11).
pub(crate) const DSCP_BITS: u64 = 0x3f;

/// Whether the family gives the component's type, and the type its form and its widths.
pub(crate) fn is_given(family: Family, component: &Component) -> bool
    ensures value { result ≡ part_given family (part_of component.now) }
    ensures sound { OnTrue result (IsTyped family (part_of component.now)) }
{
    match component {
        Component::Destination(form) | Component::Source(form) => form_given(family, form),
        Component::Protocol(list)
        | Component::Port(list)
        | Component::DestinationPort(list)
        | Component::SourcePort(list)
        | Component::IcmpType(list)
        | Component::IcmpCode(list)
        | Component::PacketLength(list) => list_allowed(&ALL_WIDTHS, list),
        Component::TcpFlags(list) => list_allowed(&FLAG_WIDTHS, list),
        Component::Dscp(list) => list_allowed(&ONE_OCTET, list),
        Component::Fragment(list) => list_allowed(&ONE_OCTET, list),
        Component::FlowLabel(list) => family == Family::V6 && list_allowed(&ALL_WIDTHS, list),
    }
}

/// Whether all components are the family's.
fn are_given(family: Family, components: &[Component]) -> bool
    ensures value { result ≡ all_given family (parts_of components.now) }
    ensures sound { OnTrue result (AreTyped family (parts_of components.now)) }
{
    for component in components {
        if !is_given(family, component) {
            return false;
        }
    }
    true
}

/// Whether the types rise strictly.
fn rise(components: &[Component]) -> bool
    ensures { result ≡ rises 0 (parts_of components.now) }
{
    let mut last = 0;
    for component in components {
        let kind = component.kind();
        if kind <= last {
            return false;
        }
        last = kind;
    }
    true
}

/// The first cause why the components make no rule of the family, but for their size.
pub(crate) fn fault_in(family: Family, components: &[Component]) -> Option<RuleFault>
    ensures fault { result ≡ fault_in family (parts_of components.now) }
    ensures typed { IfNone result (AreTyped family (parts_of components.now)) }
{
    if !are_given(family, components) {
        return Some(RuleFault::NotOfFamily);
    }
    if !rise(components) {
        return Some(RuleFault::Order);
    }
    None
}
