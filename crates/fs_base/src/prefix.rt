//! Address families and prefixes, in the order in which rules and routes are kept.

ghost use Rattle.std.specs.Prelude.{◌≡◌, ◌≢◌, ℕ, ◌+◌, ◌-◌, ◌%◌, ◌^◌, ◌<◌, ◌≤◌, ◌↔◌, IfSome};
ghost use Rattle.fs_base.specs.Bits.{width_of, afi_of, cleared};

use crate::bits::{common_bits, first_bits, ones};
use std::cmp::Ordering;

/// An address family.
#[derive(Clone, Copy, Debug, PartialEq, Eq)]
pub enum Family {
    V4,
    V6,
}

impl Family {
    /// The address family number (RFC 4760 section 3): 1 for IPv4, 2 for IPv6.
    pub fn afi(self) -> u16
        ensures { result ≡ afi_of self }
    {
        match self {
            Family::V4 => 1,
            Family::V6 => 2,
        }
    }

    /// How many bits an address of the family has.
    pub fn width(self) -> u8
        ensures { result ≡ width_of self }
    {
        match self {
            Family::V4 => 32,
            Family::V6 => 128,
        }
    }
}

/// A prefix of the addresses of a family. The address stands in the low 32 or 128 bits of `bits`, in host
/// order, and the bits past `length` are 0.
///
/// Prefixes are ordered: IPv4 before IPv6; of two nested ones the longer first; else the lower address first.
#[derive(Clone, Copy, Debug, PartialEq, Eq)]
pub struct Prefix {
    pub family: Family,
    pub length: u8,
    pub bits: u128,
    pub ghost short: { length ≤ width_of family },
    pub ghost clear: { bits ≡ cleared (width_of family) length bits },
}

impl Prefix {
    ghost use Rattle.fs_base.specs.{Prefix.{covers, prefix_cmp, last_address, IsPrefixOf}, declared.prefix.Prefix.{Prefix}};
    ghost use Rattle.std.specs.{Prelude.{Bool, true, ◌&&◌}, Ordering.{is_le}};

    /// The prefix of the first `length` bits of an address, which stands in the low bits of `bits`: of an IPv4
    /// address the bits above the low 32 are dropped. None exactly where `length` is above 32 or 128.
    pub fn new(family: Family, bits: u128, length: u8) -> Option<Prefix>
        ensures none { (result ≡ None) ↔ (width_of family < length) }
        ensures some { IfSome result (IsPrefixOf family bits length) }
    {
        if length > family.width() {
            return None;
        }
        Some(Prefix::of_bits(family, bits, length))
    }

    /// The prefix of the first `length` bits of an address, as `new` makes it, where `length` is known to be at most 32
    /// or 128.
    pub fn of_bits(family: Family, bits: u128, length: u8) -> Prefix
        requires { length ≤ width_of family }
        ensures { IsPrefixOf family bits length result }
    {
        Prefix {
            family,
            bits: first_bits(family, bits, length),
            length,
        }
    }

    /// Whether the first bits of `other` are this prefix; each prefix covers itself.
    pub fn covers(&self, other: &Prefix) -> bool
        ensures { result ≡ covers self.now other.now }
    {
        self.family == other.family
            && self.length <= other.length
            && first_bits(self.family, other.bits, self.length) == self.bits
    }

    /// The first in order of the prefixes under this one: the prefix of its lowest address alone. The prefixes
    /// from there up to this one are those that this one covers.
    pub fn first_under(&self) -> Prefix
        ensures { (q : Prefix) → covers self.now q ≡ (is_le (prefix_cmp result q) && is_le (prefix_cmp q self.now)) }
    {
        self.lowest()
    }

    /// The longest prefix that covers both; None exactly where the families differ.
    pub fn common(&self, other: &Prefix) -> Option<Prefix>
        ensures none { result ≡ None ↔ self.now.family ≢ other.now.family }
        ensures over { IfSome result (λ both. (covers both self.now ≡ true) × (covers both other.now ≡ true)) }
        ensures longest { IfSome result (λ both. (q : Prefix)
            → covers q self.now ≡ true
            → covers q other.now ≡ true
            → covers q both ≡ true) }
    {
        if self.family != other.family {
            return None;
        }
        let bits = common_bits(self.family, self.bits, other.bits);
        Some(self.shortened(bits.min(self.length).min(other.length)))
    }

    /// The prefix of the first `length` bits of this one.
    fn shortened(&self, length: u8) -> Prefix
        requires { length ≤ self.now.length }
        ensures { IsPrefixOf self.now.family self.now.bits length result }
    {
        Prefix::of_bits(self.family, self.bits, length)
    }

    /// The lowest address, as a prefix.
    fn lowest(&self) -> Prefix
        ensures family { result.family ≡ self.now.family }
        ensures bits { result.bits ≡ self.now.bits }
        ensures length { result.length ≡ width_of self.now.family }
    {
        Prefix {
            family: self.family,
            bits: self.bits,
            length: self.family.width(),
        }
    }

    /// The highest address of the prefix, in the low 32 or 128 bits.
    pub fn last(&self) -> u128
        ensures { result ≡ last_address self.now }
    {
        self.bits + ones(self.family.width() - self.length)
    }
}

impl PartialOrd for Prefix {
    ghost use Rattle.fs_base.specs.Prefix.{prefix_cmp, prefix_total, prefix_matches_eq};
    ghost use Rattle.std.specs.{Ordering.{as_partial_cmp}, Cmp.{partial_order_from_agreeing_total}, Prelude.{refl}};

    ghost partial_cmp = { as_partial_cmp prefix_cmp };

    ghost laws = { partial_order_from_agreeing_total prefix_cmp prefix_total (λ _ _. refl) prefix_matches_eq };

    fn partial_cmp(&self, other: &Prefix) -> Option<Ordering> {
        Some(self.cmp(other))
    }
}

impl Ord for Prefix {
    ghost use Rattle.fs_base.specs.Prefix.{prefix_cmp, prefix_total, prefix_matches_eq};
    ghost use Rattle.std.specs.Prelude.{refl};

    ghost cmp = { prefix_cmp };

    ghost total = { prefix_total };

    ghost matches_partial_cmp = { λ _ _. refl };

    ghost matches_eq = { prefix_matches_eq };

    fn cmp(&self, other: &Prefix) -> Ordering {
        self.family
            .afi()
            .cmp(&other.family.afi())
            .then(self.last().cmp(&other.last()))
            .then(other.length.cmp(&self.length))
    }
}
