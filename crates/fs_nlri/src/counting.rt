//! How many components a value has, told by its lengths alone.

ghost use Rattle.std.specs.Prelude.{◌≤◌, length};

use crate::size::octets_for_bits;
use fs_base::Family;
use fs_ops::width_of;

/// How many types of components there are.
const TYPES: usize = 13;

/// The octets behind a prefix at the front.
fn behind_prefix(family: Family, octets: &[u8]) -> &[u8]
    ensures { length result.now ≤ length octets.now }
{
    let (head, bits) = match (family, octets) {
        (Family::V4, [length, ..]) => (1, *length),
        (Family::V6, [length, offset, ..]) => (2, length.saturating_sub(*offset)),
        _ => return &[],
    };
    octets.get(head + octets_for_bits(bits)..).unwrap_or(&[])
}

/// The octets behind a list at the front.
fn behind_list(octets: &[u8]) -> &[u8]
    ensures { length result.now ≤ length octets.now }
{
    let mut rest = octets;
    while let [operator, tail @ ..] = rest {
        rest = tail.get(width_of(*operator)..).unwrap_or(&[]);
        if *operator & 0x80 != 0 {
            return rest;
        }
    }
    rest
}

/// How many components the value has, for the room that they take. It is a guess: of a value with a fault it may be
/// another number, but never more than there are types.
pub(crate) fn count_components(family: Family, octets: &[u8]) -> usize
    ensures { result ≤ 13 }
{
    let mut count = 0;
    let mut rest = octets;
    while let [kind, tail @ ..] = rest {
        if count == TYPES {
            return count;
        }
        count += 1;
        rest = if *kind <= 2 {
            behind_prefix(family, tail)
        } else {
            behind_list(tail)
        };
    }
    count
}
