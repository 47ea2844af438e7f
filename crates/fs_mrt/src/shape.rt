//! Which records are read, and how they are laid out.
ghost use Rattle.std.specs.Prelude.{◌≡◌, ◌≤◌, length};
ghost use Rattle.fs_mrt.specs.Shape.{address_of, address_size, family_of, front_size, shape_of, states_size, subtype_of};

use byteorder::{BigEndian, ByteOrder};
use fs_base::{Address, Family};

/// How a record that is read is laid out: whether microseconds stand first, whether AS numbers have four octets, and
/// whether it tells a change of state or has a message.
#[derive(Clone, Copy, Debug, PartialEq, Eq, Drop)]
pub(crate) struct Shape {
    pub(crate) timed: bool,
    pub(crate) wide: bool,
    pub(crate) change: bool,
}

/// The shape of the records of this type and subtype, or None where they aren't read.
pub(crate) fn shape_of(kind: u16, subtype: u16) -> Option<Shape>
    ensures { result ≡ shape_of kind subtype }
{
    match kind {
        16 => subtype_of(false, subtype),
        17 => subtype_of(true, subtype),
        _ => None,
    }
}

fn subtype_of(timed: bool, subtype: u16) -> Option<Shape>
    ensures { result ≡ subtype_of timed subtype }
{
    match subtype {
        0 => Some(Shape {
            timed,
            wide: false,
            change: true,
        }),
        1 => Some(Shape {
            timed,
            wide: false,
            change: false,
        }),
        4 => Some(Shape {
            timed,
            wide: true,
            change: false,
        }),
        5 => Some(Shape {
            timed,
            wide: true,
            change: true,
        }),
        _ => None,
    }
}

impl Shape {
    /// How many octets stand before the address family.
    pub(crate) fn front_size(self) -> usize
        ensures exact { result ≡ front_size self }
        ensures few { result ≤ 14 }
    {
        let first = if self.timed { 4 } else { 0 };
        let numbers = if self.wide { 8 } else { 4 };
        first + numbers + 2
    }

    /// How many octets are needed behind the addresses, before a message is judged.
    pub(crate) fn states_size(self) -> usize
        ensures exact { result ≡ states_size self }
        ensures few { result ≤ 4 }
    {
        if self.change { 4 } else { 0 }
    }
}

/// The family of a record's two addresses, by its number.
pub(crate) fn family_of(number: u16) -> Option<Family>
    ensures { result ≡ family_of number }
{
    match number {
        1 => Some(Family::V4),
        2 => Some(Family::V6),
        _ => None,
    }
}

/// The octets of an address.
pub(crate) fn address_size(family: Family) -> usize
    ensures exact { result ≡ address_size family }
    ensures few { result ≤ 16 }
{
    match family {
        Family::V4 => 4,
        Family::V6 => 16,
    }
}

/// The address in the first octets.
pub(crate) fn address_of(family: Family, octets: &[u8]) -> Address
    requires { address_size family ≤ length octets.now }
    ensures { result ≡ address_of family octets.now }
{
    match family {
        Family::V4 => Address::V4(BigEndian::read_u32(octets)),
        Family::V6 => Address::V6(BigEndian::read_u128(octets)),
    }
}
