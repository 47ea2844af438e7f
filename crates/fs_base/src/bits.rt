//! The bits of addresses.

ghost use Rattle.std.specs.Prelude.{◌≡◌, ℕ, ◌-◌, ◌^◌, ◌<◌, ◌≤◌, ◌↔◌};
ghost use Rattle.fs_base.specs.Bits.{cleared, width_of};

use crate::prefix::Family;

/// The first `length` bits of the address in the low bits of `bits`, and 0 for the others.
pub(crate) fn first_bits(family: Family, bits: u128, length: u8) -> u128
    requires { length ≤ width_of family }
    ensures { result ≡ cleared (width_of family) length bits }
{
    match family {
        Family::V4 => {
            let host = 32 - length;
            let address = (bits & 0xffff_ffff) as u64;
            (address >> host << host) as u128
        }
        Family::V6 if length == 0 => 0,
        Family::V6 => {
            let host = 128 - length;
            bits >> host << host
        }
    }
}

/// How many of the first bits of two addresses are the same.
pub(crate) fn common_bits(family: Family, a: u128, b: u128) -> u8
    requires a { a < 2 ^ width_of family }
    requires b { b < 2 ^ width_of family }
    ensures width { result ≤ width_of family }
    ensures same { (n : ℕ)
        → n ≤ width_of family
        → cleared (width_of family) n a ≡ cleared (width_of family) n b ↔ n ≤ result }
{
    ((a ^ b).leading_zeros() as u8) - (128 - family.width())
}

/// A number whose low `count` bits are ones, and no others.
pub(crate) fn ones(count: u8) -> u128
    requires { count ≤ 128 }
    ensures { result ≡ 2 ^ count - 1 }
{
    if count < 64 {
        return ((1u64 << count) - 1) as u128;
    }
    u128::MAX >> (128 - count)
}
