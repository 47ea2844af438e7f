//! Whether a rule matches a packet.

ghost use Rattle.std.specs.{Prelude.{◌≡◌, ◌≤◌, ◌==◌, ◌&&◌}, List.{list_all}};
ghost use Rattle.fs_base.specs.Bits.{cleared, width_of};
ghost use Rattle.fs_nlri.specs.{Component.{body_of, part_of, parts_of}, Parts.{ListBody}, Sound.{AreSound, IsSoundBody}};
ghost use Rattle.fs_packet.specs.Matching.{flags_hold, holds_of, is_match, is_prefix_of, part_matches};

use crate::fields::View;
use fs_base::{Address, Family, Prefix};
use fs_nlri::{Component, PrefixForm, Rule};
use fs_ops::{MaskList, NumList};

/// Whether the packet is of the rule's family and every component matches. A component whose field the packet
/// doesn't have doesn't match.
pub fn matches(rule: &Rule, view: &View<'_>) -> bool
    ensures { result ≡ is_match rule.now view.now }
{
    rule.family() == view.family() && components_match(rule.components(), view)
}

fn components_match(components: &[Component], view: &View<'_>) -> bool
    requires { AreSound (parts_of components.now) }
    ensures { result ≡ list_all (part_matches view.now) (parts_of components.now) }
{
    for component in components {
        if !component_matches(component, view) {
            return false;
        }
    }
    true
}

fn component_matches(component: &Component, view: &View<'_>) -> bool
    requires { IsSoundBody (part_of component.now).body }
    ensures { result ≡ part_matches view.now (part_of component.now) }
{
    match component {
        Component::Destination(form) => prefix_matches(form, view.destination()),
        Component::Source(form) => prefix_matches(form, view.source()),
        Component::Protocol(list) => number_matches(list, view.protocol().map(u64::from)),
        Component::Port(list) => {
            number_matches(list, view.source_port().map(u64::from))
                || number_matches(list, view.destination_port().map(u64::from))
        }
        Component::DestinationPort(list) => number_matches(
            list,
            view.destination_port().map(u64::from),
        ),
        Component::SourcePort(list) => number_matches(list, view.source_port().map(u64::from)),
        Component::IcmpType(list) => number_matches(list, view.icmp_type().map(u64::from)),
        Component::IcmpCode(list) => number_matches(list, view.icmp_code().map(u64::from)),
        Component::TcpFlags(list) => flags_match(list, view.tcp_octets()),
        Component::PacketLength(list) => list.eval(view.length().into()),
        Component::Dscp(list) => list.eval(view.dscp().into()),
        Component::Fragment(list) => list.eval(view.fragment().into()),
        Component::FlowLabel(list) => number_matches(list, view.flow_label().map(u64::from)),
    }
}

/// Whether the list holds of a number that is there.
fn number_matches(list: &NumList, number: Option<u64>) -> bool
    ensures { result ≡ holds_of list.now number }
{
    match number {
        Some(number) => list.eval(number),
        None => false,
    }
}

/// Whether the list holds of the TCP flags. A value of one octet has no bits above the flags' octet, so one number
/// serves values of either width.
fn flags_match(list: &MaskList, octets: Option<u16>) -> bool
    requires { IsSoundBody (ListBody list.now) }
    ensures { result ≡ flags_hold list.now octets }
{
    match octets {
        Some(octets) => list.eval((octets & 0x0fff).into()),
        None => false,
    }
}

fn prefix_matches(form: &PrefixForm, address: Address) -> bool
    requires { IsSoundBody (body_of form.now) }
    ensures { result ≡ is_prefix_of (body_of form.now) address }
{
    match (*form, address) {
        (PrefixForm::V4(prefix), Address::V4(address)) => {
            begins_with(Family::V4, address.into(), prefix.length, prefix.bits)
        }
        (
            PrefixForm::V6 {
                length,
                offset,
                pattern,
            },
            Address::V6(address),
        ) => { begins_with(Family::V6, address << offset, length - offset, pattern) }
        _ => false,
    }
}

/// Whether the first `length` bits of the address are those of `bits`, and the others of `bits` are 0.
fn begins_with(family: Family, address: u128, length: u8, bits: u128) -> bool
    requires { length ≤ width_of family }
    ensures { result ≡ (cleared (width_of family) length address == bits) }
{
    Prefix::of_bits(family, address, length).bits == bits
}
