//! The fields of a packet.

ghost use Rattle.std.specs.Prelude.{◌≡◌, ◌<◌, option_map};
ghost use Rattle.fs_packet.specs.Fields.{has_ports, is_icmp, is_tcp, says_icmp, says_ports, says_tcp, upper_of};

use byteorder::{BigEndian, ByteOrder};
use fs_base::{Address, Family};
use std::marker::Model;

/// Why a record isn't read: the first test of its headers that fails.
#[derive(Clone, Copy, Debug, PartialEq, Eq, Drop)]
pub enum Unread {
    /// The EtherType is neither IPv4's nor IPv6's.
    Foreign,
    /// The record ends within the headers.
    Short,
    /// The IP version isn't the one that should stand here.
    Version,
    /// The IPv4 header length is below 20 octets.
    Header,
    /// The IPv4 total length is below the header's, or the IPv6 packet is a jumbogram.
    Length,
}

impl Unread {
    ghost use Rattle.fs_packet.specs.Fields.{unread_number};

    /// The number that a line for the record prints, 1 to 5.
    pub fn number(self) -> u8
        ensures { result ≡ unread_number self }
    {
        match self {
            Unread::Foreign => 1,
            Unread::Short => 2,
            Unread::Version => 3,
            Unread::Header => 4,
            Unread::Length => 5,
        }
    }
}

/// What the protocol says of the upper layer's header.
#[derive(Clone, Copy, Drop)]
pub(crate) enum Upper {
    Tcp,
    Udp,
    /// ICMP in IPv4, ICMPv6 in IPv6.
    Icmp,
    Other,
    /// No protocol is known: a header before the upper layer's isn't held whole.
    Unknown,
}

/// A packet's fields, read from the octets of the record where they are asked for. Numbers are in host order.
#[derive(Drop)]
pub struct View<'a> {
    /// The record's octets from the network header on.
    pub(crate) packet: &'a [u8],
    /// The octets of the upper layer's header and of what follows it, as far as both the record and the packet's
    /// length hold them; none in a fragment other than the first.
    pub(crate) transport: &'a [u8],
    pub(crate) length: u32,
    /// The protocol's number, where `upper` knows it.
    pub(crate) number: u8,
    pub(crate) upper: Upper,
    pub(crate) fragment: u8,
    pub(crate) family: Family, // last, so that no padding is copied
}

impl<'a> Model for View<'a> {
    ghost use Rattle.fs_packet.specs.Fields.{IsView, Viewed, protocol_of, viewed};

    ghost Value = { Viewed };

    ghost view = { λ v. viewed v.family v.packet.now v.length (protocol_of v.upper v.number) v.fragment v.transport.now };

    ghost invariant = { λ v. IsView v.family v.packet.now v.fragment v.number v.upper };
}

impl<'a> View<'a> {
    ghost use Rattle.fs_packet.specs.Fields.{family_of};

    /// The address family.
    pub fn family(&self) -> Family
        ensures { result ≡ self.now.family }
    {
        self.family
    }

    /// The source address.
    pub fn source(&self) -> Address
        ensures value { result ≡ self.now.source }
        ensures family { family_of result ≡ self.now.family }
    {
        match self.family {
            Family::V4 => Address::V4(BigEndian::read_u32(&self.packet[12..])),
            Family::V6 => Address::V6(BigEndian::read_u128(&self.packet[8..])),
        }
    }

    /// The destination address.
    pub fn destination(&self) -> Address
        ensures value { result ≡ self.now.destination }
        ensures family { family_of result ≡ self.now.family }
    {
        match self.family {
            Family::V4 => Address::V4(BigEndian::read_u32(&self.packet[16..])),
            Family::V6 => Address::V6(BigEndian::read_u128(&self.packet[24..])),
        }
    }

    /// The protocol; of IPv6 the upper layer's, None where a header before it isn't held whole.
    pub fn protocol(&self) -> Option<u8>
        ensures { result ≡ self.now.protocol }
    {
        match self.upper {
            Upper::Unknown => None,
            Upper::Tcp | Upper::Udp | Upper::Icmp | Upper::Other => Some(self.number),
        }
    }

    /// The ICMP type, of ICMP in IPv4 and of ICMPv6 in IPv6.
    pub fn icmp_type(&self) -> Option<u8>
        ensures { result ≡ self.now.icmp_type }
    {
        let transport = self.transport;
        if !self.is_icmp() {
            return None;
        }
        transport.first().copied()
    }

    /// The ICMP code, of ICMP in IPv4 and of ICMPv6 in IPv6.
    pub fn icmp_code(&self) -> Option<u8>
        ensures { result ≡ self.now.icmp_code }
    {
        let transport = self.transport;
        if !self.is_icmp() {
            return None;
        }
        transport.get(1).copied()
    }

    /// The source port of TCP or UDP, where the record holds both ports.
    pub fn source_port(&self) -> Option<u16>
        ensures { result ≡ self.now.source_port }
    {
        let (source, _) = self.ports()?;
        Some(source)
    }

    /// The destination port of TCP or UDP, where the record holds both ports.
    pub fn destination_port(&self) -> Option<u16>
        ensures { result ≡ self.now.destination_port }
    {
        let (_, destination) = self.ports()?;
        Some(destination)
    }

    /// Source and destination port of TCP or UDP, where the record holds both.
    #[inline(always)]
    pub fn ports(&self) -> Option<(u16, u16)>
        ensures source { option_map (λ ports. ports.0) result ≡ self.now.source_port }
        ensures destination { option_map (λ ports. ports.1) result ≡ self.now.destination_port }
    {
        if !self.has_ports() || self.transport.len() < 4 {
            return None;
        }
        Some((
            BigEndian::read_u16(self.transport),
            BigEndian::read_u16(&self.transport[2..]),
        ))
    }

    /// The octets of the TCP header at 12 and 13: the data offset in the high four bits, and the flags.
    pub fn tcp_octets(&self) -> Option<u16>
        ensures { result ≡ self.now.tcp_octets }
    {
        if !self.is_tcp() || self.transport.len() < 14 {
            return None;
        }
        Some(BigEndian::read_u16(&self.transport[12..]))
    }

    /// The packet's length in octets: the total length of IPv4; of IPv6 the payload's and the header's 40.
    pub fn length(&self) -> u32
        ensures { result ≡ self.now.length }
    {
        self.length
    }

    /// The six bits of the DSCP.
    pub fn dscp(&self) -> u8
        ensures { result ≡ self.now.dscp }
    {
        match self.family {
            Family::V4 => self.packet[1] >> 2,
            Family::V6 => ((BigEndian::read_u16(self.packet) >> 6) & 0x3f) as u8,
        }
    }

    /// The fragment bits of a rule: DF 1, of IPv4 alone; IsF 2; FF 4; LF 8.
    pub fn fragment(&self) -> u8
        ensures value { result ≡ self.now.fragment }
        ensures bits { result < 16 }
    {
        self.fragment
    }

    /// The 20 bits of the flow label of IPv6.
    pub fn flow_label(&self) -> Option<u32>
        ensures { result ≡ self.now.flow_label }
    {
        match self.family {
            Family::V4 => None,
            Family::V6 => Some(BigEndian::read_u32(self.packet) & 0xf_ffff),
        }
    }

    /// Whether the protocol has ports: TCP and UDP.
    fn has_ports(&self) -> bool
        ensures { result ≡ has_ports self.now.protocol }
    {
        says_ports(self.upper)
    }

    fn is_tcp(&self) -> bool
        ensures { result ≡ is_tcp self.now.protocol }
    {
        says_tcp(self.upper)
    }

    /// Whether the protocol is ICMP in the family.
    fn is_icmp(&self) -> bool
        ensures { result ≡ is_icmp self.now.family self.now.protocol }
    {
        says_icmp(self.upper)
    }
}

fn says_ports(upper: Upper) -> bool
    ensures { result ≡ says_ports upper }
{
    matches!(upper, Upper::Tcp | Upper::Udp)
}

fn says_tcp(upper: Upper) -> bool
    ensures { result ≡ says_tcp upper }
{
    matches!(upper, Upper::Tcp)
}

fn says_icmp(upper: Upper) -> bool
    ensures { result ≡ says_icmp upper }
{
    matches!(upper, Upper::Icmp)
}

/// What the protocol says, by the family.
pub(crate) fn upper_of(family: Family, protocol: Option<u8>) -> Upper
    ensures { result ≡ upper_of family protocol }
{
    let Some(number) = protocol else {
        return Upper::Unknown;
    };
    match (family, number) {
        (_, 6) => Upper::Tcp,
        (_, 17) => Upper::Udp,
        (Family::V4, 1) | (Family::V6, 58) => Upper::Icmp,
        _ => Upper::Other,
    }
}
