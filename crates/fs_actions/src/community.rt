//! One community, and what it says (RFC 8955 section 7).

ghost use Rattle.std.specs.Prelude.{◌≡◌, ℕ, List, IfSome};
ghost use Rattle.fs_actions.specs.Community.{IsAction, significant_of, normal_form, has_flag, is_discard, is_nothing, limit_of, mark_of, rate_of, redirect_of};

use byteorder::{BigEndian, ByteOrder};
use std::marker::Model;

/// The types and sub-types of the communities that are actions.
const RATE_IN_BYTES: u16 = 0x8006;

const RATE_IN_PACKETS: u16 = 0x800c;

const TRAFFIC_ACTION: u16 = 0x8007;

const REDIRECT_AS2: u16 = 0x8008;

const REDIRECT_IP4: u16 = 0x8108;

const REDIRECT_AS4: u16 = 0x8208;

const MARKING: u16 = 0x8009;

/// Which bits of a listed community count. Normal form clears the others.
#[derive(Clone, Copy, Debug, PartialEq, Eq, Drop)]
pub(crate) enum Significant {
    EveryBit,
    /// The type and sub-type, and these bits of the last octet.
    OfLastOctet(u8),
}

/// The route target of a redirect (RFC 8955 section 7.4), in host order.
#[derive(Clone, Copy, Debug, PartialEq, Eq, Drop)]
pub enum Redirect {
    /// Community 0x8008: a two-octet AS number and a number of its own.
    As2 { asn: u16, number: u32 },
    /// Community 0x8108: an IPv4 address and a number.
    Ip4 { address: u32, number: u16 },
    /// Community 0x8208: a four-octet AS number and a number.
    As4 { asn: u32, number: u16 },
}

/// The limit of a traffic-rate (RFC 8955 sections 7.1 and 7.2): the four raw octets of an IEEE 754 number,
/// in host order.
#[derive(Clone, Copy, Debug, PartialEq, Eq, Drop)]
pub enum Rate {
    /// Bytes a second.
    Bytes(u32),
    /// Packets a second.
    Packets(u32),
}

impl Rate {
    /// Whether nothing passes: the number is zero or has its sign bit set.
    pub fn is_nothing(&self) -> bool
        ensures { result ≡ is_nothing self.now }
    {
        let (Rate::Bytes(figure) | Rate::Packets(figure)) = *self;
        figure == 0 || figure >= 1 << 31
    }
}

/// An extended community that is an action, in normal form: eight octets, in network order.
#[derive(Clone, Copy, Debug, PartialEq, Eq, PartialOrd, Ord, Drop)]
pub struct Action {
    octets: [u8; 8],
}

impl Model for Action {
    ghost Value = { List ℕ };

    ghost view = { λ a. a.octets };

    ghost inverse = { λ octets. record { octets = octets } };
}

impl Action {
    /// The listed community in normal form, or None where no action has this type and sub-type.
    pub fn of(community: &[u8; 8]) -> Option<Action>
        ensures value { result ≡ normal_form community.now }
        ensures action { IfSome result IsAction }
    {
        match significant_bits(BigEndian::read_u16(community))? {
            Significant::EveryBit => Some(Action { octets: *community }),
            Significant::OfLastOctet(bits) => Some(Action {
                octets: [
                    community[0],
                    community[1],
                    0,
                    0,
                    0,
                    0,
                    0,
                    community[7] & bits,
                ],
            }),
        }
    }

    /// The community's eight octets.
    pub fn octets(&self) -> &[u8]
        ensures { result.now ≡ self.now }
    {
        &self.octets
    }

    /// The rate of a traffic-rate, one that discards too.
    pub fn rate(&self) -> Option<Rate>
        ensures { result ≡ rate_of self.now }
    {
        let figure = BigEndian::read_u32(&self.octets[4..]);
        match BigEndian::read_u16(&self.octets) {
            RATE_IN_BYTES => Some(Rate::Bytes(figure)),
            RATE_IN_PACKETS => Some(Rate::Packets(figure)),
            _ => None,
        }
    }

    /// The rate of a traffic-rate that lets something pass.
    pub fn limit(&self) -> Option<Rate>
        ensures { result ≡ limit_of self.now }
    {
        let rate = self.rate()?;
        if rate.is_nothing() { None } else { Some(rate) }
    }

    /// Whether this is a traffic-rate that lets nothing pass.
    pub fn discards(&self) -> bool
        ensures { result ≡ is_discard self.now }
    {
        match self.rate() {
            Some(rate) => rate.is_nothing(),
            None => false,
        }
    }

    /// Whether this is a traffic-action with this bit of its last octet set: 1 for T, 2 for S.
    pub(crate) fn has_flag(&self, bit: u8) -> bool
        ensures { result ≡ has_flag bit self.now }
    {
        BigEndian::read_u16(&self.octets) == TRAFFIC_ACTION && self.octets[7] & bit != 0
    }

    /// The DSCP value of a traffic-marking.
    pub fn mark(&self) -> Option<u8>
        ensures { result ≡ mark_of self.now }
    {
        match BigEndian::read_u16(&self.octets) {
            MARKING => Some(self.octets[7]),
            _ => None,
        }
    }

    /// The route target of a redirect.
    pub fn redirect(&self) -> Option<Redirect>
        ensures { result ≡ redirect_of self.now }
    {
        let target = &self.octets[2..];
        match BigEndian::read_u16(&self.octets) {
            REDIRECT_AS2 => Some(Redirect::As2 {
                asn: BigEndian::read_u16(target),
                number: BigEndian::read_u32(&target[2..]),
            }),
            REDIRECT_IP4 => Some(Redirect::Ip4 {
                address: BigEndian::read_u32(target),
                number: BigEndian::read_u16(&target[4..]),
            }),
            REDIRECT_AS4 => Some(Redirect::As4 {
                asn: BigEndian::read_u32(target),
                number: BigEndian::read_u16(&target[4..]),
            }),
            _ => None,
        }
    }
}

/// The bits that count of the community of a type and sub-type, or None where it isn't listed.
fn significant_bits(kind: u16) -> Option<Significant>
    ensures { result ≡ significant_of kind }
{
    match kind {
        RATE_IN_BYTES | RATE_IN_PACKETS | REDIRECT_AS2 | REDIRECT_IP4 | REDIRECT_AS4 => Some(
            Significant::EveryBit,
        ),
        TRAFFIC_ACTION => Some(Significant::OfLastOctet(0x03)),
        MARKING => Some(Significant::OfLastOctet(0x3f)),
        _ => None,
    }
}
