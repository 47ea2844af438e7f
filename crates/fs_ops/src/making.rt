//! Whether pairs are a list in normal form (RFC 8955 section 4.2.1).

ghost use Rattle.std.specs.Prelude.{◌≡◌, ◌↔◌, ◌^◌, ◌<◌, IsTrue};
ghost use Rattle.fs_ops.specs.{Operator.{width_of, meant_bits}, OperatorList.{IsNormalPair, AreNormal, IsNormal, first_joins}};

use crate::kind::Kind;
use crate::operator::{clear_ignored, is_joined, is_last, width_of};

/// Whether the value has no more octets than its operator says.
fn fits(operator: u8, value: u64) -> bool
    ensures { IsTrue result ↔ value < 256 ^ width_of operator }
{
    let len = width_of(operator);
    if len == 1 {
        return value <= 0xff;
    }
    if len == 2 {
        return value <= 0xffff;
    }
    if len == 4 {
        return value <= 0xffff_ffff;
    }
    true
}

/// Whether the ignored bits of the operator are clear, and the value has the operator's width.
fn is_normal_pair(kind: Kind, operator: u8, value: u64) -> bool
    ensures { IsTrue result ↔ IsNormalPair (meant_bits kind) (operator, value) }
{
    clear_ignored(kind, false, operator) == operator && fits(operator, value)
}

/// Whether the last pair, and it alone, has the end bit, and each pair is in normal form.
fn are_normal(kind: Kind, pairs: &[(u8, u64)]) -> bool
    ensures { IsTrue result ↔ AreNormal (meant_bits kind) pairs.now }
{
    let mut rest = pairs;
    while let Some((&(operator, value), tail)) = rest.split_first() {
        if !is_normal_pair(kind, operator, value) {
            return false;
        }
        if is_last(operator) {
            return tail.is_empty();
        }
        rest = tail;
    }
    false
}

/// Whether the first operator has the AND bit, which means nothing there.
fn first_is_joined(pairs: &[(u8, u64)]) -> bool
    ensures { result ≡ first_joins pairs.now }
{
    match pairs.first() {
        Some(&(operator, _)) => is_joined(operator),
        None => false,
    }
}

/// Whether the pairs are a list in normal form.
pub fn is_normal(kind: Kind, pairs: &[(u8, u64)]) -> bool
    ensures { IsTrue result ↔ IsNormal kind pairs.now }
{
    !first_is_joined(pairs) && are_normal(kind, pairs)
}
