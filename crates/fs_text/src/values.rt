//! The words of components, read (RFC 8955 section 4.2.2, RFC 8956 section 3).

ghost use Rattle.std.specs.{Prelude.{◌≡◌, ◌<◌, ◌≤◌, ℕ, List, Some, IfOk}, Option.{option_map}};
ghost use Rattle.fs_ops.specs.OperatorList.{IsNormal};
ghost use Rattle.fs_nlri.specs.{Component.{body_of, part_of}, Parts.{ListBody, part}, Sound.{IsSoundBody}};
ghost use Rattle.fs_words.specs.{Operators.{list_text}, Values.{component_name, list_kind, value_text}};
ghost use Rattle.fs_text.specs.{Components.{Compared, IsPart, IsTypeNamed, Loosely, Matched, last_type}, Reading.{Reads}};

use crate::lists::loose_pairs;
use crate::parts::parts_of;
use crate::prefixes::loose_prefix;
use fs_base::{Family, Memory};
use fs_nlri::{Component, PrefixForm};
use fs_ops::{MaskList, NumList};
use fs_words::{component_name, list_kind, print_value};
use std::alloc::Global;

/// The type that has this name.
fn loose_kind(name: &str) -> u8
    ensures some { 1 ≤ result }
    ensures value { (kind : ℕ) → 1 ≤ kind → kind ≤ 13 → component_name kind ≡ name.now → result ≡ kind }
{
    match name {
        "dst" => 1,
        "src" => 2,
        "proto" => 3,
        "port" => 4,
        "dport" => 5,
        "sport" => 6,
        "itype" => 7,
        "icode" => 8,
        "tcp" => 9,
        "len" => 10,
        "dscp" => 11,
        "frag" => 12,
        _ => 13,
    }
}

/// The greatest type that the family has.
fn last_type(family: Family) -> u8
    ensures { result ≡ last_type family }
{
    match family {
        Family::V4 => 12,
        Family::V6 => 13,
    }
}

/// The type of the family's components that have this name; None where none has it.
pub fn component_type(family: Family, name: &str) -> Option<u8>
    ensures { IsTypeNamed family name.now result }
{
    let kind = loose_kind(name);
    if kind <= last_type(family) && component_name(kind) == name {
        Some(kind)
    } else {
        None
    }
}

/// The component of this type with a list that compares numbers.
fn of_numbers(kind: u8, list: NumList) -> Component
    ensures { 2 < kind → kind ≤ 13 → (kind ≡ 9 → ⊥) → (kind ≡ 12 → ⊥) → part_of result ≡ part kind (ListBody list) }
{
    match kind {
        3 => Component::Protocol(list),
        4 => Component::Port(list),
        5 => Component::DestinationPort(list),
        6 => Component::SourcePort(list),
        7 => Component::IcmpType(list),
        8 => Component::IcmpCode(list),
        10 => Component::PacketLength(list),
        11 => Component::Dscp(list),
        _ => Component::FlowLabel(list),
    }
}

/// The component of this type with these pairs.
fn loose_component(kind: u8, pairs: Vec<(u8, u64)>) -> Option<Component>
    ensures { 2 < kind → kind ≤ 13 → IsNormal (list_kind kind) pairs.items
        → option_map part_of result ≡ Some (part kind (ListBody pairs.items)) }
{
    match kind {
        9 => match MaskList::from_pairs(pairs) {
            Some(list) => Some(Component::TcpFlags(list)),
            None => None,
        },
        12 => match MaskList::from_pairs(pairs) {
            Some(list) => Some(Component::Fragment(list)),
            None => None,
        },
        _ => match NumList::from_pairs(pairs) {
            Some(list) => Some(of_numbers(kind, list)),
            None => None,
        },
    }
}

/// The component of this type whose list has this word.
fn loose_list(alloc: Global, kind: u8, word: &str) -> Result<Option<Component>, Memory>
    ensures { IfOk result (λ read. (pairs : List (ℕ × ℕ)) → 2 < kind → kind ≤ 13 → IsNormal (list_kind kind) pairs
        → word.now ≡ list_text (list_kind kind) pairs
        → option_map part_of read ≡ Some (part kind (ListBody pairs))) }
{
    match loose_pairs(alloc, list_kind(kind), word.as_bytes())? {
        Some(pairs) => Ok(loose_component(kind, pairs)),
        None => Ok(None),
    }
}

/// The component of this type with a prefix.
fn of_prefix(kind: u8, form: PrefixForm) -> Component
    requires low { 1 ≤ kind }
    requires high { kind ≤ 2 }
    ensures { part_of result ≡ part kind (body_of form) }
{
    match kind {
        1 => Component::Destination(form),
        _ => Component::Source(form),
    }
}

/// The component of this type whose prefix has this word.
fn loose_prefixed(
    alloc: Global,
    family: Family,
    kind: u8,
    word: &str,
) -> Result<Option<Component>, Memory>
    requires low { 1 ≤ kind }
    requires high { kind ≤ 2 }
    ensures { IfOk result (Loosely family kind word.now) }
{
    let parts = parts_of(alloc, word.as_bytes())?;
    match loose_prefix(family, &parts) {
        Some(form) => Ok(Some(of_prefix(kind, form))),
        None => Ok(None),
    }
}

/// The component of this type that has this word.
fn loose_value(
    alloc: Global,
    family: Family,
    kind: u8,
    word: &str,
) -> Result<Option<Component>, Memory>
    requires { 1 ≤ kind }
    ensures { IfOk result (Loosely family kind word.now) }
{
    if kind <= 2 {
        loose_prefixed(alloc, family, kind, word)
    } else {
        loose_list(alloc, kind, word)
    }
}

/// The component, if this is its name and its word.
fn matched(
    alloc: Global,
    name: &str,
    word: &str,
    own: Component,
) -> Result<Option<Component>, Memory>
    requires { IsSoundBody (part_of own).body }
    ensures { IfOk result (Matched name.now word.now (part_of own)) }
{
    let mut text = String::new(alloc);
    print_value(&own, &mut text)?;
    if component_name(own.kind()) == name && text.as_str() == word {
        Ok(Some(own))
    } else {
        Ok(None)
    }
}

/// The component, if it is the family's, in normal form, and this is its name and its word.
fn compared(
    alloc: Global,
    family: Family,
    name: &str,
    word: &str,
    component: Component,
) -> Result<Option<Component>, Memory>
    ensures { IfOk result (Compared family name.now word.now (part_of component)) }
{
    match component.cleared(family) {
        Some(own) => matched(alloc, name, word, own),
        None => Ok(None),
    }
}

/// The one component of this name whose word this is; None where the family has none.
pub fn read_component(
    alloc: Global,
    family: Family,
    name: &str,
    word: &str,
) -> Result<Option<Component>, Memory>
    ensures { IfOk result (λ read.
        Reads (IsPart family name.now) value_text word.now (option_map part_of read)) }
{
    match loose_value(alloc, family, loose_kind(name), word)? {
        Some(component) => compared(alloc, family, name, word, component),
        None => Ok(None),
    }
}
