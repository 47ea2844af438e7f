//! What a capture's magic tells: the order of the octets in its numbers, and the unit of the fractions of a second.

ghost use Rattle.std.specs.Prelude.{◌≡◌, ◌≤◌, length};
ghost use Rattle.fs_pcap.specs.Order.{number, order_of, time_of};

use byteorder::{BigEndian, ByteOrder, LittleEndian};

/// The order of a capture's octets in its numbers.
#[derive(Clone, Copy, Debug, PartialEq, Eq, Drop)]
pub enum Endian {
    Big,
    Little,
}

impl Endian {
    /// Reads the first two octets.
    #[inline(always)]
    pub fn read_u16(self, octets: &[u8]) -> u16
        requires { 2 ≤ length octets.now }
        ensures { result ≡ number self 2 octets.now }
    {
        match self {
            Endian::Big => BigEndian::read_u16(octets),
            Endian::Little => LittleEndian::read_u16(octets),
        }
    }

    /// Reads the first four octets.
    #[inline(always)]
    pub fn read_u32(self, octets: &[u8]) -> u32
        requires { 4 ≤ length octets.now }
        ensures { result ≡ number self 4 octets.now }
    {
        match self {
            Endian::Big => BigEndian::read_u32(octets),
            Endian::Little => LittleEndian::read_u32(octets),
        }
    }
}

/// The unit in which a capture counts the fractions of a second.
#[derive(Clone, Copy, Debug, PartialEq, Eq, Drop)]
pub enum Unit {
    Microseconds,
    Nanoseconds,
}

impl Unit {
    /// The time of a record, in nanoseconds since the start of 1970. A fraction of a second and more is taken as it
    /// stands.
    pub fn time(self, seconds: u32, fraction: u32) -> u64
        ensures { result ≡ time_of self seconds fraction }
    {
        let fraction = fraction as u64;
        let fraction = match self {
            Unit::Microseconds => fraction * 1000,
            Unit::Nanoseconds => fraction,
        };
        seconds as u64 * 1_000_000_000 + fraction
    }
}

/// The order and the unit that a magic, read with the highest octet first, tells.
pub(crate) fn read_order(magic: u32) -> Option<(Endian, Unit)>
    ensures { result ≡ order_of magic }
{
    match magic {
        0xa1b2_c3d4 => Some((Endian::Big, Unit::Microseconds)),
        0xa1b2_3c4d => Some((Endian::Big, Unit::Nanoseconds)),
        0xd4c3_b2a1 => Some((Endian::Little, Unit::Microseconds)),
        0x4d3c_b2a1 => Some((Endian::Little, Unit::Nanoseconds)),
        _ => None,
    }
}
