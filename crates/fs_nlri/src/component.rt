//! The components of a rule.

use fs_base::{Family, Prefix};
use fs_ops::{MaskList, NumList};

/// A prefix component of either family. Of IPv6 (RFC 8956 section 3.1) the address bits from `offset` up to
/// `length`, counted from the highest, are those of `pattern`, of which the first is the highest of the 128.
#[derive(Clone, Copy, Debug, PartialEq, Eq)]
pub enum PrefixForm {
    V4(Prefix),
    V6 {
        length: u8,
        offset: u8,
        pattern: u128,
    },
}

/// A component, by its type (RFC 8955 section 4.2.2, RFC 8956 section 3).
#[derive(Debug, Drop)]
pub enum Component {
    /// Type 1.
    Destination(PrefixForm),
    /// Type 2.
    Source(PrefixForm),
    /// Type 3: the protocol, of IPv6 the upper-layer protocol.
    Protocol(NumList),
    /// Type 4: source port or destination port.
    Port(NumList),
    /// Type 5.
    DestinationPort(NumList),
    /// Type 6.
    SourcePort(NumList),
    /// Type 7.
    IcmpType(NumList),
    /// Type 8.
    IcmpCode(NumList),
    /// Type 9.
    TcpFlags(MaskList),
    /// Type 10.
    PacketLength(NumList),
    /// Type 11.
    Dscp(NumList),
    /// Type 12.
    Fragment(MaskList),
    /// Type 13, of IPv6 alone.
    FlowLabel(NumList),
}

/// What stands behind a component's type.
#[derive(Clone, Copy)]
pub enum Content<'a> {
    /// Types 1 and 2.
    Prefix(PrefixForm),
    /// The types whose lists compare numbers: 3 to 8, 10, 11 and 13.
    Numbers(&'a NumList),
    /// The types whose lists test bits: 9 and 12.
    Masks(&'a MaskList),
}

impl Component {
    ghost use Rattle.std.specs.{Prelude.{◌≡◌}, Option.{option_map}};
    ghost use Rattle.fs_nlri.specs.{Component.{content_body, part_of}, Rule.{shown, destination_part}, Sound.{IsSoundBody}};

    /// The type's number, 1 to 13 (RFC 8955 section 4.2.2, RFC 8956 section 3).
    pub fn kind(&self) -> u8
        ensures { result ≡ (part_of self.now).kind }
    {
        match self {
            Component::Destination(_) => 1,
            Component::Source(_) => 2,
            Component::Protocol(_) => 3,
            Component::Port(_) => 4,
            Component::DestinationPort(_) => 5,
            Component::SourcePort(_) => 6,
            Component::IcmpType(_) => 7,
            Component::IcmpCode(_) => 8,
            Component::TcpFlags(_) => 9,
            Component::PacketLength(_) => 10,
            Component::Dscp(_) => 11,
            Component::Fragment(_) => 12,
            Component::FlowLabel(_) => 13,
        }
    }

    /// What stands behind the type.
    pub fn content(&self) -> Content<'_>
        ensures { content_body result ≡ (part_of self.now).body }
    {
        match self {
            Component::Destination(form) | Component::Source(form) => Content::Prefix(*form),
            Component::Protocol(list)
            | Component::Port(list)
            | Component::DestinationPort(list)
            | Component::SourcePort(list)
            | Component::IcmpType(list)
            | Component::IcmpCode(list)
            | Component::PacketLength(list)
            | Component::Dscp(list)
            | Component::FlowLabel(list) => Content::Numbers(list),
            Component::TcpFlags(list) | Component::Fragment(list) => Content::Masks(list),
        }
    }

    /// The prefix of a component of type 1, or None where its offset isn't 0; None of any other type.
    pub(crate) fn destination(&self) -> Option<Prefix>
        requires { IsSoundBody (part_of self.now).body }
        ensures { option_map shown result ≡ destination_part (part_of self.now) }
    {
        if self.kind() != 1 {
            return None;
        }
        match self.content() {
            Content::Prefix(form) => form.prefix(),
            Content::Numbers(_) => None,
            Content::Masks(_) => None,
        }
    }
}

impl PrefixForm {
    ghost use Rattle.std.specs.{Prelude.{◌≡◌}, Option.{option_map}};
    ghost use Rattle.fs_nlri.specs.{Component.{body_of}, Rule.{shown, destination_body}, Sound.{IsSoundBody}};

    /// The prefix of addresses that the component stands for, or None where its offset isn't 0.
    pub(crate) fn prefix(&self) -> Option<Prefix>
        requires { IsSoundBody (body_of self.now) }
        ensures { option_map shown result ≡ destination_body (body_of self.now) }
    {
        match *self {
            PrefixForm::V4(prefix) => Some(prefix),
            PrefixForm::V6 {
                length,
                offset: 0,
                pattern,
            } => Prefix::new(Family::V6, pattern, length),
            PrefixForm::V6 { .. } => None,
        }
    }
}
