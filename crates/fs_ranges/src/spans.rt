//! A list of numeric operators as the numbers that it holds of.

ghost use Rattle.std.specs.{Prelude.{◌≡◌, ◌↔◌, ℕ, ◌^◌, ◌<◌, false, true, IsTrue, IfOk}, List.{list_all, list_any}};
ghost use Rattle.fs_ops.specs.{OperatorList.{first_joins}, Evaluation.{compares, holds}};
ghost use Rattle.fs_ranges.specs.{Numbers.{has_field}, Spans.{AreApart, clipped, contains, encloses, field_range, is_in}};

use crate::facts::ABSENT;
use crate::gaps::append_gaps;
use crate::groups::append_groups;
use crate::singles::{are_singles, lone_ranges};
use fs_base::Memory;
use fs_ops::NumList;
use std::alloc::Global;
use std::marker::Model;

/// So many ranges, or fewer, are tried one by one.
const FEW_RANGES: usize = 8;

/// The numbers that a list holds of, as ranges from a first number to a last, in order, with a gap before each next.
#[derive(Drop)]
pub struct Spans {
    ranges: Vec<(u64, u64)>,
}

impl Model for Spans {
    ghost use Rattle.std.specs.Prelude.{ℕ, List};
    ghost use Rattle.fs_ranges.specs.Spans.{AreApart};

    ghost Value = { List (ℕ × ℕ) };

    ghost view = { λ a. a.ranges.items };

    ghost invariant = { λ a. AreApart 0 a.ranges.items };
}

impl Spans {
    /// The numbers from 0 to 2^64 - 1 that the list holds of (RFC 8955 section 4.2.1).
    pub fn of(alloc: Global, list: &NumList) -> Result<Spans, Memory>
        ensures { IfOk result (λ spans. (n : ℕ)
            → n < 2 ^ 64
            → contains spans n ≡ holds (compares n) list.now) }
    {
        let pairs = list.pairs();
        if are_singles(pairs) {
            let ranges = lone_ranges(alloc, pairs)?;
            return Ok(Spans { ranges });
        }
        Spans::of_pairs(alloc, pairs)
    }

    /// The same by the numbers that the groups miss.
    fn of_pairs(alloc: Global, pairs: &[(u8, u64)]) -> Result<Spans, Memory>
        requires { first_joins pairs.now ≡ false }
        ensures { IfOk result (λ spans. (n : ℕ)
            → n < 2 ^ 64
            → contains spans n ≡ holds (compares n) pairs.now) }
    {
        let mut missed = Vec::new(alloc);
        let mut held = Vec::new(alloc);
        append_groups(pairs, &mut missed, &mut held)?;
        missed.clear();
        append_gaps(&mut held, &mut missed)?;
        held.clear();
        append_gaps(&mut missed, &mut held)?;
        held.shrink_to_fit();
        Ok(Spans { ranges: held })
    }

    /// Whether the list that these numbers are of holds of the number. Among many ranges it halves.
    #[inline(always)]
    pub fn contains(&self, number: u64) -> bool
        ensures { result ≡ contains self.now number }
    {
        if self.ranges.len() <= FEW_RANGES {
            any_contains(&self.ranges, number)
        } else {
            is_enclosed((number, number), &self.ranges)
        }
    }

    /// Whether the number is one of a field that is there, and one of these.
    #[inline(always)]
    pub(crate) fn contains_field(&self, number: u64) -> bool
        ensures { result ≡ has_field self.now number }
    {
        number < ABSENT && self.contains(number)
    }

    /// Whether each of these numbers is one of the others. Takes no memory.
    pub fn within(&self, other: &Spans) -> bool
        ensures { IsTrue result
            ↔ ((n : ℕ) → n < 2 ^ 64 → IsTrue (contains self.now n) → IsTrue (contains other.now n)) }
    {
        all_enclosed(&self.ranges, &other.ranges)
    }

    /// A range of numbers below 2^32 in which all of these are that fields have.
    pub(crate) fn hull(&self) -> (u32, u32)
        ensures { (n : ℕ) → has_field self.now n ≡ true → is_in n result ≡ true }
    {
        let (low, high) = hull_of(&self.ranges);
        (low.min(ABSENT - 1) as u32, high.min(ABSENT - 1) as u32)
    }

    pub(crate) fn ranges(&self) -> &[(u64, u64)]
        ensures { result.now ≡ self.now }
    {
        &self.ranges
    }

    /// Of the numbers below 2^32, which fields have, the first and the last, where they and all between are these;
    /// where none are, a first above the last. None where they are more than one range.
    pub(crate) fn range(&self) -> Option<(u32, u32)>
        ensures { result ≡ field_range self.now }
    {
        match self.ranges.as_slice() {
            [] => Some((1, 0)),
            [(first, last)] => Some(clipped(*first, *last)),
            _ => None,
        }
    }
}

/// From the least number to the greatest.
fn hull_of(ranges: &[(u64, u64)]) -> (u64, u64)
    ensures { (n : ℕ) → contains ranges.now n ≡ true → is_in n result ≡ true }
{
    let mut low = u64::MAX;
    let mut high = 0u64;
    for &range in ranges {
        low = low.min(range.0);
        high = high.max(range.1);
    }
    (low, high)
}

/// The numbers of a range that are below 2^32; where there are none, a first above the last.
fn clipped(first: u64, last: u64) -> (u32, u32)
    ensures { result ≡ clipped first last }
{
    if first < ABSENT {
        (first as u32, last.min(ABSENT - 1) as u32)
    } else {
        (1, 0)
    }
}

#[inline(always)]
fn any_contains(ranges: &[(u64, u64)], number: u64) -> bool
    ensures { result ≡ contains ranges.now number }
{
    for &(first, last) in ranges {
        if first <= number && number <= last {
            return true;
        }
    }
    false
}

fn all_enclosed(ranges: &[(u64, u64)], others: &[(u64, u64)]) -> bool
    requires { AreApart 0 others.now }
    ensures { result ≡ list_all (λ range. list_any (encloses range) others.now) ranges.now }
{
    for &range in ranges {
        if !is_enclosed(range, others) {
            return false;
        }
    }
    true
}

/// Whether the range lies in one of the others: in the first that doesn't end before it does.
#[inline(never)]
fn is_enclosed(range: (u64, u64), others: &[(u64, u64)]) -> bool
    requires { AreApart 0 others.now }
    ensures { result ≡ list_any (encloses range) others.now }
{
    let place = others.partition_point(|other| other.1 < range.1);
    match others.get(place) {
        Some(&(first, _)) => first <= range.0,
        None => false,
    }
}
