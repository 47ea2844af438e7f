//! Link types of captures.

ghost use Rattle.std.specs.Prelude.{◌≡◌, Some};
ghost use Rattle.fs_base.specs.Link.{link_number, link_of};

/// The link type of a capture: what stands before a packet.
#[derive(Clone, Copy, Debug, PartialEq, Eq, Drop)]
pub enum Link {
    /// Number 1: an Ethernet header of 14 octets, and up to two tags of 4 octets.
    Ethernet,
    /// Number 101: nothing; the packet's version tells its family.
    Raw,
    /// Number 113: a Linux cooked header of 16 octets.
    Cooked,
    /// Number 276: a Linux cooked header of 20 octets, of version 2.
    CookedTwo,
    /// Number 228: nothing; the packet is of IPv4.
    V4,
    /// Number 229: nothing; the packet is of IPv6.
    V6,
}

impl Link {
    /// The link type of a number that captures give, or None of any other.
    pub fn of(number: u32) -> Option<Link>
        ensures { result ≡ link_of number }
    {
        match number {
            1 => Some(Link::Ethernet),
            101 => Some(Link::Raw),
            113 => Some(Link::Cooked),
            276 => Some(Link::CookedTwo),
            228 => Some(Link::V4),
            229 => Some(Link::V6),
            _ => None,
        }
    }

    /// The number that captures give for it.
    pub fn number(self) -> u32
        ensures exact { result ≡ link_number self }
        ensures back { link_of result ≡ Some self }
    {
        match self {
            Link::Ethernet => 1,
            Link::Raw => 101,
            Link::Cooked => 113,
            Link::CookedTwo => 276,
            Link::V4 => 228,
            Link::V6 => 229,
        }
    }
}
