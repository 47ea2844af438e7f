//! Values: components one after the other.

ghost use Rattle.std.specs.Prelude.{◌≡◌, ◌+◌, ◌^◌, ◌<◌, ◌≤◌, ◌↔◌, length, take, IfOk, IfErr, IsTrue, IsSome};
ghost use Rattle.fs_nlri.specs.{Forms.{form_of}, Component.{part_of, parts_of}, Spelling.{SpellsAt, Spells}, Fault.{IsValueFault, moved, place_of}};
ghost use Rattle.fs_nlri.specs.Body.{IsFaultAt};

use crate::body::{bits_of_fragment, read_list, read_numbers, read_prefix};
use crate::component::Component;
use crate::counting::count_components;
use crate::fault::{NlriFault, Reason, bad};
use crate::given::{DSCP_BITS, FLAG_WIDTHS, ONE_OCTET};
use fs_base::Family;
use std::alloc::Global;

/// Whether the family has components of the type.
fn has_type(family: Family, kind: u8) -> bool
    ensures { IsTrue result ↔ IsSome (form_of family kind) }
{
    match family {
        Family::V4 => 1 <= kind && kind <= 12,
        Family::V6 => 1 <= kind && kind <= 13,
    }
}

/// The fault with its place moved by the count of the octets that stand before.
fn after(fault: NlriFault, count: usize) -> NlriFault
    requires { count + place_of fault < 2 ^ 64 }
    ensures { result ≡ moved count fault }
{
    match fault {
        NlriFault::Bad { reason, place } => bad(reason, count + place),
        NlriFault::Memory => NlriFault::Memory,
    }
}

/// Reads what stands behind a type, and answers the component and the count of these octets.
fn read_component(
    alloc: Global,
    family: Family,
    kind: u8,
    octets: &[u8],
) -> Result<(Component, usize), NlriFault>
    requires { IsSome (form_of family kind) }
    ensures taken { IfOk result (λ read. read.1 ≤ length octets.now) }
    ensures kind { IfOk result (λ read. (part_of read.0).kind ≡ kind) }
    ensures found { IfOk result (λ r. SpellsAt (form_of family kind) (take r.1 octets.now) (part_of r.0).body) }
    ensures fault { IfErr result (IsFaultAt (form_of family kind) octets.now) }
    ensures place { IfErr result (λ fault. place_of fault ≤ length octets.now) }
{
    match kind {
        1 => {
            let (form, taken) = read_prefix(family, octets)?;
            Ok((Component::Destination(form), taken))
        }
        2 => {
            let (form, taken) = read_prefix(family, octets)?;
            Ok((Component::Source(form), taken))
        }
        3 => {
            let (list, taken) = read_numbers(alloc, octets)?;
            Ok((Component::Protocol(list), taken))
        }
        4 => {
            let (list, taken) = read_numbers(alloc, octets)?;
            Ok((Component::Port(list), taken))
        }
        5 => {
            let (list, taken) = read_numbers(alloc, octets)?;
            Ok((Component::DestinationPort(list), taken))
        }
        6 => {
            let (list, taken) = read_numbers(alloc, octets)?;
            Ok((Component::SourcePort(list), taken))
        }
        7 => {
            let (list, taken) = read_numbers(alloc, octets)?;
            Ok((Component::IcmpType(list), taken))
        }
        8 => {
            let (list, taken) = read_numbers(alloc, octets)?;
            Ok((Component::IcmpCode(list), taken))
        }
        9 => {
            let (list, taken) = read_list(alloc, octets, &FLAG_WIDTHS, None)?;
            Ok((Component::TcpFlags(list), taken))
        }
        10 => {
            let (list, taken) = read_numbers(alloc, octets)?;
            Ok((Component::PacketLength(list), taken))
        }
        11 => {
            let (list, taken) = read_list(alloc, octets, &ONE_OCTET, Some(DSCP_BITS))?;
            Ok((Component::Dscp(list), taken))
        }
        12 => {
            let (list, taken) = read_list(
                alloc,
                octets,
                &ONE_OCTET,
                Some(bits_of_fragment(family)),
            )?;
            Ok((Component::Fragment(list), taken))
        }
        13 => {
            let (list, taken) = read_numbers(alloc, octets)?;
            Ok((Component::FlowLabel(list), taken))
        }
        _ => unreachable!(),
    }
}

/// Reads a whole value.
pub(crate) fn read_components(
    alloc: Global,
    family: Family,
    octets: &[u8],
) -> Result<Vec<Component>, NlriFault>
    ensures found { IfOk result (λ components. Spells family 0 octets.now (parts_of components.items)) }
    ensures fault { IfErr result (IsValueFault family octets.now) }
{
    let mut components = Vec::with_capacity(alloc, count_components(family, octets))?;
    let mut last = 0;
    let mut rest = octets;
    while let [kind, tail @ ..] = rest {
        let place = octets.len() - rest.len();
        if !has_type(family, *kind) {
            return Err(bad(Reason::NoType, place));
        }
        if *kind <= last {
            return Err(bad(Reason::Order, place));
        }
        match read_component(alloc, family, *kind, tail) {
            Ok((component, taken)) => {
                components.push(component)?;
                last = *kind;
                rest = &tail[taken..];
            }
            Err(fault) => return Err(after(fault, place + 1)),
        }
    }
    components.shrink_to_fit();
    Ok(components)
}
