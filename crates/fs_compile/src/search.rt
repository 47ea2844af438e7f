//! The search for a rule that matches a packet: through the buckets that hold its destination, then through the rules
//! without a destination.

ghost use Rattle.std.specs.Prelude.{◌≡◌, ◌<◌, ◌≤◌, ◌+◌, ◌^◌, List, Bool, length, max, IfSome, MatchOption};
ghost use Rattle.fs_buckets.specs.{Addresses.{number_of}, Housed.{AreSound}};
ghost use Rattle.fs_compile.specs.Search.{Found, Missed, Scanned, Starts, Within, behind_hit, hit_number, marked, parent_at, start_at};
ghost use Rattle.fs_compile.specs.{Search.{tested_to, tests_of}, Searched.{IsAt, IsNearIn, IsWhole, count_of}};

use crate::filters::{FEW_RULES, Filters};
use crate::tested::Tested;
use fs_base::{Address, Steps};
use fs_buckets::Buckets;
use std::sync::ledger::Ledger;

/// Where a search for an address goes on: at a bucket, among the rules from a number on.
#[derive(Clone, Copy, Drop)]
pub(crate) struct Cursor {
    pub(crate) address: u128,
    pub(crate) bucket: usize,
    pub(crate) from: usize,
}

/// A rule that matches, by its number, and its bucket; where it has none, how many there are.
#[derive(Clone, Copy, Drop)]
pub(crate) struct Hit {
    pub(crate) number: usize,
    pub(crate) bucket: usize,
}

/// What is searched for a packet.
#[derive(Clone, Copy, Drop)]
pub(crate) struct Search<'a> {
    pub(crate) buckets: &'a Buckets,
    pub(crate) tested: Tested<'a>,
    /// Those of the long runs. Where there are none, no run is asked for its length.
    pub(crate) filters: Option<&'a Filters>,
}

impl<'a> Search<'a> {
    /// The first rule that matches, from the place on: in the buckets that hold the address, then among the rules without
    /// a destination. As many steps at most as rules are in these from the place up to that one.
    #[inline(always)]
    pub(crate) fn climb<L: Ledger>(&self, start: Cursor, steps: &mut Steps<L>) -> Option<Hit>
        requires whole { IsWhole self.now }
        requires starts { Starts self.now.buckets.now start }
        ensures found { (near : List Bool)
            → IsNearIn self.now start near
            → Within (tests_of self.now.tested) near
            → MatchOption result
            (Missed (tests_of self.now.tested) start.from (count_of self.now))
            (λ hit. Found (tests_of self.now.tested) start.from (count_of self.now) hit.number) }
        ensures starts { IfSome result (λ hit. Starts self.now.buckets.now (behind_hit start.address hit)) }
        ensures inside { IfSome result (λ hit. hit.number < count_of self.now) }
        ensures later { steps.old ≤ steps.new }
        ensures steps { (near : List Bool)
            → IsNearIn self.now start near
            → steps.new + marked start.from near
            ≤ steps.old + marked (tested_to (hit_number result) (count_of self.now)) near }
    {
        let mut bucket = start.bucket;
        while bucket < self.buckets.lasts.len() {
            let place = Cursor { bucket, ..start };
            let parent = self.buckets.nodes.at(bucket).parent;
            if let Some(number) = self.bucket(place, steps) {
                return Some(Hit { number, bucket });
            }
            bucket = parent as usize;
        }
        let tail = start.from.max(self.buckets.homes.len());
        let number = self.run(tail, self.tested.rules.len(), steps)?;
        Some(Hit { number, bucket })
    }

    /// The first rule that matches of those in the bucket of the place, if that holds the address.
    #[inline(always)]
    fn bucket<L: Ledger>(&self, place: Cursor, steps: &mut Steps<L>) -> Option<usize>
        requires { IsAt self.now place }
        ensures found { (near : List Bool)
            → IsNearIn self.now place near
            → Within (tests_of self.now.tested) near
            → Missed (tests_of self.now.tested) place.from (start_at self.now.buckets.now place.bucket)
            → MatchOption result
            (Missed (tests_of self.now.tested) place.from
            (start_at self.now.buckets.now (parent_at self.now.buckets.now place.bucket)))
            (Found (tests_of self.now.tested) place.from (count_of self.now)) }
        ensures inside { IfSome result (λ number.
            (start_at self.now.buckets.now place.bucket ≤ number) × (number < count_of self.now)) }
        ensures later { steps.old ≤ steps.new }
        ensures steps { (near : List Bool)
            → IsNearIn self.now place near
            → steps.new + marked (max place.from (start_at self.now.buckets.now place.bucket)) near
            ≤ steps.old
            + marked (tested_to result
            (max place.from (start_at self.now.buckets.now (parent_at self.now.buckets.now place.bucket)))) near }
    {
        let node = self.buckets.nodes.at(place.bucket);
        if place.address < node.first {
            return None;
        }
        let end = self.buckets.nodes.at(place.bucket + 1).start;
        self.run(place.from.max(node.start as usize), end as usize, steps)
    }

    /// The first rule that matches of those from `from` on before `to`, by the filter of the run where it's long. As many
    /// steps at most as rules up to that one.
    #[inline(always)]
    fn run<L: Ledger>(&self, from: usize, to: usize, steps: &mut Steps<L>) -> Option<usize>
        requires whole { IsWhole self.now }
        requires within { to ≤ count_of self.now }
        ensures { Scanned (tests_of self.now.tested) from to to steps.old steps.new result }
    {
        match self.filters {
            Some(filters) if to.wrapping_sub(from) > FEW_RULES => {
                filters.scan(self.tested, from, to, steps)
            }
            _ => self.tested.scan(from, to, steps),
        }
    }
}

/// Where a search for an address begins, among all rules from a number on: at the first bucket that doesn't end below
/// the address.
#[inline(always)]
pub(crate) fn place_from(buckets: &Buckets, address: Address, from: usize) -> Cursor
    requires { AreSound buckets.now (length buckets.now.homes.items) }
    ensures starts { Starts buckets.now result }
    ensures address { result.address ≡ number_of address }
    ensures from { result.from ≡ from }
{
    Cursor {
        address: number(address),
        bucket: buckets.lasts.find_marked(&buckets.marks, address),
        from,
    }
}

/// Where a search for an address goes on behind a rule: in its bucket, unless that ends below the address.
pub(crate) fn place_behind(buckets: &Buckets, address: Address, n: usize) -> Cursor
    requires sound { AreSound buckets.now (length buckets.now.homes.items) }
    requires fits { n + 1 < 2 ^ 64 }
    ensures starts { Starts buckets.now result }
    ensures address { result.address ≡ number_of address }
    ensures from { result.from ≡ n + 1 }
{
    if n >= buckets.homes.len() {
        return Cursor {
            address: number(address),
            bucket: buckets.lasts.len(),
            from: n + 1,
        };
    }
    let bucket = buckets.homes[n] as usize;
    if buckets.lasts.at(bucket) < number(address) {
        return place_from(buckets, address, n + 1);
    }
    Cursor {
        address: number(address),
        bucket,
        from: n + 1,
    }
}

fn number(address: Address) -> u128
    ensures { result ≡ number_of address }
{
    match address {
        Address::V4(address) => address.into(),
        Address::V6(address) => address,
    }
}
