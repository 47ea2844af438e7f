//! What a view tells of its packet.

ghost use Rattle.std.specs.Prelude.{◌≡◌};
ghost use Rattle.fs_packet.specs.Told.{told_of};

use crate::fields::View;
use fs_base::{Address, Family};
use std::fmt;

/// All fields of a packet that a view tells.
#[derive(Clone, Copy, PartialEq, Eq, Drop)]
pub(crate) struct Told {
    family: Family,
    source: Address,
    destination: Address,
    protocol: Option<u8>,
    icmp_type: Option<u8>,
    icmp_code: Option<u8>,
    source_port: Option<u16>,
    destination_port: Option<u16>,
    tcp_octets: Option<u16>,
    length: u32,
    dscp: u8,
    fragment: u8,
    flow_label: Option<u32>,
}

fn fields_of(view: &View<'_>) -> Told
    ensures { result ≡ told_of view.now }
{
    Told {
        family: view.family(),
        source: view.source(),
        destination: view.destination(),
        protocol: view.protocol(),
        icmp_type: view.icmp_type(),
        icmp_code: view.icmp_code(),
        source_port: view.source_port(),
        destination_port: view.destination_port(),
        tcp_octets: view.tcp_octets(),
        length: view.length(),
        dscp: view.dscp(),
        fragment: view.fragment(),
        flow_label: view.flow_label(),
    }
}

/// Two views are equal where each field is the same, whatever else the octets of the packets are.
impl PartialEq for View<'_> {
    ghost use Rattle.std.specs.{Ordering.{on}, Cmp.{on_equiv, partial_equiv_from_equiv}};
    ghost use Rattle.fs_packet.specs.{Told.{told_of}, contracts.told.{ToldPartialEq.TheImpl.{ghosts}, ToldEq.TheImpl.Laws.{laws-law}}};

    ghost eq = { on told_of ghosts.eq };

    ghost laws = { partial_equiv_from_equiv (on_equiv told_of laws-law) };

    fn eq(&self, other: &View<'_>) -> bool {
        fields_of(self) == fields_of(other)
    }
}

impl Eq for View<'_> {
    ghost use Rattle.std.specs.Cmp.{on_equiv};
    ghost use Rattle.fs_packet.specs.{Told.{told_of}, contracts.told.ToldEq.TheImpl.Laws.{laws-law}};

    ghost laws = { on_equiv told_of laws-law };
}

/// Prints the fields that are compared.
impl fmt::Debug for View<'_> {
    fn fmt<W: fmt::Write>(&self, f: &mut fmt::Formatter<W>) -> fmt::Result {
        f.debug_struct("View")
            .field("family", &self.family())
            .field("source", &self.source())
            .field("destination", &self.destination())
            .field("protocol", &self.protocol())
            .field("icmp_type", &self.icmp_type())
            .field("icmp_code", &self.icmp_code())
            .field("source_port", &self.source_port())
            .field("destination_port", &self.destination_port())
            .field("tcp_octets", &self.tcp_octets())
            .field("length", &self.length())
            .field("dscp", &self.dscp())
            .field("fragment", &self.fragment())
            .field("flow_label", &self.flow_label())
            .finish()
    }
}
