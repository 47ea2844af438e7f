//! Prefixes as keys of ordered maps.

ghost use Rattle.std.specs.{Prelude.{◌≡◌}, Ordering.{is_eq}};
ghost use Rattle.fs_base.specs.Prefix.{last_address, prefix_cmp};
ghost use Rattle.fs_unicast.specs.Key.{high_of, low_of, bit_of};

use fs_base::{Family, Prefix};
use std::cmp::Ordering;
use std::marker::Model;

/// How many numbers of 64 bits there are.
const WORDS: u128 = 1 << 64;

/// The first number of a key is below this in IPv4, and not in IPv6.
const TOP: u64 = 1 << 63;

/// A prefix as a key: what prefixes are ordered by stands in it as numbers that are compared one after the other, and
/// isn't reckoned at each comparison. First the family and the last address: an IPv4 address in `high`, which is below
/// 2^63; of an IPv6 address 2^63 and its top 63 bits in `high`, the next 64 in `low`, its last in `bit`. Then the
/// length. The first number mostly decides. A key takes 24 octets.
#[derive(Clone, Copy)]
pub struct PrefixKey {
    high: u64,
    low: u64,
    bit: u8,
    length: u8,
}

impl Model for PrefixKey {
    ghost use Rattle.fs_base.specs.{Prefix.{last_address}, declared.prefix.Prefix.{Prefix}};
    ghost use Rattle.fs_unicast.specs.Key.{IsKey, shown, high_of, low_of, bit_of, least};

    ghost Value = { Prefix };

    ghost view = { λ a. shown a.high a.low a.bit a.length };

    ghost invariant = { λ a. IsKey a.high a.low a.bit a.length };

    ghost inverse = { λ p. record {
      high = high_of p.family (last_address p);
      low = low_of p.family (last_address p);
      bit = bit_of p.family (last_address p);
      length = p.length;
    } };

    ghost inverse_ok = { λ a h i. record {
      high = h.high_again i;
      low = h.low_again i;
      bit = h.bit_again i;
      length = least h.short i;
    } };
}

impl PrefixKey {
    /// The key of a prefix.
    pub fn of(prefix: &Prefix) -> PrefixKey
        ensures { result ≡ prefix.now }
    {
        let (high, low, bit) = numbers(prefix);
        PrefixKey {
            high,
            low,
            bit,
            length: prefix.length,
        }
    }

    /// The prefix.
    pub fn prefix(&self) -> Prefix
        ensures { result ≡ self.now }
    {
        Prefix::of_bits(self.family(), self.last(), self.length)
    }

    /// Whether the other is a key of the same prefix. What mostly differs is compared first.
    #[inline]
    pub fn is(&self, other: &PrefixKey) -> bool
        ensures { result ≡ is_eq (prefix_cmp self.now other.now) }
    {
        self.high == other.high
            && self.low == other.low
            && self.length == other.length
            && self.bit == other.bit
    }

    fn family(&self) -> Family
        ensures { result ≡ self.now.family }
    {
        if self.high < TOP {
            Family::V4
        } else {
            Family::V6
        }
    }

    /// The last address, in the low 32 or 128 bits.
    fn last(&self) -> u128
        ensures { result ≡ last_address self.now }
    {
        if self.high < TOP {
            self.high as u128
        } else {
            ((self.high - TOP) as u128 * WORDS + self.low as u128) * 2 + self.bit as u128
        }
    }
}

/// The last address with the family, as a key has it.
fn numbers(prefix: &Prefix) -> (u64, u64, u8)
    ensures high { result.0 ≡ high_of prefix.now.family (last_address prefix.now) }
    ensures low { result.1 ≡ low_of prefix.now.family (last_address prefix.now) }
    ensures bit { result.2 ≡ bit_of prefix.now.family (last_address prefix.now) }
{
    let last = prefix.last();
    match prefix.family {
        Family::V4 => (last as u64, 0, 0),
        Family::V6 => (
            TOP + (last / 2 / WORDS) as u64,
            (last / 2 % WORDS) as u64,
            (last % 2) as u8,
        ),
    }
}

impl PartialEq for PrefixKey {
    ghost use Rattle.std.specs.{Ordering.{eq_by_cmp}, Cmp.{eq_by_cmp_equiv, partial_equiv_from_equiv}};
    ghost use Rattle.fs_base.specs.Prefix.{prefix_cmp, prefix_total};

    ghost eq = { eq_by_cmp prefix_cmp };

    ghost laws = { partial_equiv_from_equiv (eq_by_cmp_equiv prefix_total) };

    fn eq(&self, other: &PrefixKey) -> bool {
        self.is(other)
    }
}

impl Eq for PrefixKey {
    ghost use Rattle.std.specs.Cmp.{eq_by_cmp_equiv};
    ghost use Rattle.fs_base.specs.Prefix.{prefix_total};

    ghost laws = { eq_by_cmp_equiv prefix_total };
}

impl PartialOrd for PrefixKey {
    ghost use Rattle.std.specs.{Ordering.{as_partial_cmp}, Cmp.{partial_order_from_total}};
    ghost use Rattle.fs_base.specs.Prefix.{prefix_cmp, prefix_total};

    ghost partial_cmp = { as_partial_cmp prefix_cmp };

    ghost laws = { partial_order_from_total prefix_total };

    fn partial_cmp(&self, other: &PrefixKey) -> Option<Ordering> {
        Some(self.cmp(other))
    }
}

impl Ord for PrefixKey {
    ghost use Rattle.std.specs.Prelude.{refl};
    ghost use Rattle.fs_base.specs.Prefix.{prefix_cmp, prefix_total};

    ghost cmp = { prefix_cmp };

    ghost total = { prefix_total };

    ghost matches_partial_cmp = { λ _ _. refl };

    ghost matches_eq = { λ _ _. refl };

    fn cmp(&self, other: &PrefixKey) -> Ordering {
        match self.high.cmp(&other.high) {
            Ordering::Equal => match self.low.cmp(&other.low) {
                Ordering::Equal => match self.bit.cmp(&other.bit) {
                    Ordering::Equal => other.length.cmp(&self.length),
                    unlike => unlike,
                },
                unlike => unlike,
            },
            unlike => unlike,
        }
    }
}
