//! The destinations of a family's rules, in order.

ghost use Rattle.std.specs.Prelude.{◌≡◌, ◌<◌, ◌≤◌, ◌+◌, ◌^◌, ℕ, IfOk, IfSome, IsFalse, IsTrue, List, None, OnOk, Option, Some, get_or, length};
ghost use Rattle.std.specs.{declared.cmp.Ordering.TheVariants.{Less, Equal, Greater}, List.{AllByRecursion, splice}};
ghost use Rattle.fs_base.specs.Bits.{width_of};
ghost use Rattle.fs_rules.specs.Lent.{all_admitted};
ghost use Rattle.fs_buckets.specs.{Addresses.{nodes_in, numbers_in}, Buckets.{AreChanged, IsSubnet, node_at}};
ghost use Rattle.fs_buckets.specs.Housed.{AreBucketsOf, AreHoused, AreSound, HasEmpty, IsGap, IsHolder, IsLeft, IsPassed, Passes, bucket_span};
ghost use Rattle.fs_buckets.specs.Housed.{span_at};
ghost use Rattle.fs_buckets.specs.Destinations.{AreNarrow, AreTo, IsOfFamily, span_cmp, spans_of};
ghost use Rattle.fs_buckets.specs.Runs.{AreNesting, RunsOf};

use crate::addresses::Addresses;
use crate::marks::Marks;
use crate::nodes::{Node, Nodes};
use crate::runs::{Runs, nodes_of, parents_of, runs_of};
use fs_base::{Family, Memory};
use fs_rules::LentRule;
use std::alloc::Global;

/// The most buckets, of which each has a number of 32 bits, as has the one behind the last.
const MOST: usize = 0xffff_fffe;

/// The buckets of a family's rules: the runs of rules that have one destination. Buckets are in the order of their
/// destinations, so that of nested ones the longer stands first and last addresses rise. One whose rules all went may
/// stay behind.
#[derive(Drop)]
pub struct Buckets {
    /// The last address of each bucket.
    pub lasts: Addresses,
    /// Where among these a search begins.
    pub marks: Marks,
    /// A node for each, and one whose start is the number of the first rule without a destination.
    pub nodes: Nodes,
    /// The bucket of each rule that has one.
    pub homes: Vec<u32>,
}

impl Buckets {
    /// The numbers from which on and before which the rules stand that have a destination of these addresses.
    pub fn stretch(&self, first: u128, last: u128) -> (usize, usize)
        requires sound { (count : ℕ) × AreSound self.now count }
        ensures ordered { result.0 ≤ result.1 }
        ensures within { result.1 ≤ length self.now.homes.items }
        ensures before { (k : ℕ) → k < result.0 → span_cmp (span_at self.now k) (first, last) ≡ Less }
        ensures at { (k : ℕ)
            → result.0 ≤ k
            → k < result.1
            → span_cmp (span_at self.now k) (first, last) ≡ Equal }
        ensures behind { (k : ℕ)
            → result.1 ≤ k
            → k < length self.now.homes.items
            → span_cmp (span_at self.now k) (first, last) ≡ Greater }
    {
        let from = self.passed(first, last, false);
        let to = self.passed(first, last, true);
        (
            self.nodes.at(from).start as usize,
            self.nodes.at(to).start as usize,
        )
    }

    /// Whether most buckets have no rule any more, so that it's time to make them anew.
    fn are_sparse(&self) -> bool {
        self.lasts.len() / 2 > self.homes.len()
    }

    /// The bucket of these addresses, if its rules are those from one number on before the other. None also where the
    /// buckets are sparse.
    pub(crate) fn holder(&self, first: u128, last: u128, from: usize, to: usize) -> Option<usize>
        requires sound { (count : ℕ) × AreSound self.now count }
        ensures { IfSome result (λ bucket. IsHolder self.now bucket (first, last) from to) }
    {
        let bucket = self.passed(first, last, false);
        if bucket == self.lasts.len() || self.are_sparse() {
            return None;
        }
        let node = self.nodes.at(bucket);
        let end = self.nodes.at(bucket + 1).start as usize;
        let same = node.first == first && self.lasts.at(bucket) == last;
        (same && node.start as usize == from && end == to).then_some(bucket)
    }

    /// The place of a bucket of these addresses among the others, if no rules have them and theirs would stand from this
    /// number on. None also where the buckets are sparse, or as many as can be named.
    pub(crate) fn gap(&self, first: u128, last: u128, from: usize, to: usize) -> Option<usize>
        requires { (count : ℕ) × AreSound self.now count }
        ensures { IfSome result (λ bucket. IsGap self.now bucket (first, last) from × (to ≡ from)) }
    {
        let bucket = self.passed(first, last, false);
        let fits = self.nodes.fits(first) && self.lasts.fits(last) && self.lasts.len() < MOST;
        let none = from == to && self.nodes.at(bucket).start as usize == from;
        (fits && none && !self.are_sparse()).then_some(bucket)
    }

    /// The buckets with one more of these addresses at a place, which has so many rules, from a number on.
    pub(crate) fn opened(
        self,
        alloc: Global,
        bucket: usize,
        span: (u128, u128),
        from: usize,
        count: usize,
    ) -> Result<Buckets, Memory>
        requires sound { AreSound self (length self.homes.items) }
        requires subnet { IsSubnet span.0 span.1 }
        requires gap { IsGap self bucket span from }
        requires fits { count + length self.homes.items < 2 ^ 32 }
        ensures { IfOk result (λ new.
            (most : ℕ) (spans news : List (Option (ℕ × ℕ)))
            → count + length self.homes.items ≤ most
            → AreHoused spans self
            → length self.homes.items ≤ length spans
            → AreTo (Some span) news
            → length news ≡ count
            → AreBucketsOf (splice spans from from news) new most) }
    {
        self.with_empty(alloc, bucket, span, from)?
            .resized(alloc, bucket, from, from, count)
    }

    /// The buckets with one more of these addresses at a place, which has no rules, and would have those from a number on.
    fn with_empty(
        self,
        alloc: Global,
        bucket: usize,
        span: (u128, u128),
        from: usize,
    ) -> Result<Buckets, Memory>
        requires sound { AreSound self (length self.homes.items) }
        requires whole { length self.homes.items < 2 ^ 32 }
        requires subnet { IsSubnet span.0 span.1 }
        requires gap { IsGap self bucket span from }
        ensures { IfOk result (λ new. HasEmpty self new bucket span from) }
    {
        let low = self.lasts.find(span.0);
        let parent = self.first_over(bucket, span.0);
        let node = Node {
            first: span.0,
            start: from as u32,
            parent: parent as u32 + 1,
        };
        let mut lasts = self.lasts;
        let mut nodes = self.nodes;
        lasts.insert(bucket, span.1)?;
        nodes.open(bucket, low, node)?;
        let marks = Marks::of(alloc, &lasts)?;
        Ok(Buckets {
            lasts,
            marks,
            nodes,
            homes: raised(self.homes, from),
        })
    }

    /// The first bucket from one on that begins no later than the address, or how many there are.
    fn first_over(&self, bucket: usize, first: u128) -> usize
        requires sound { (count : ℕ) × AreSound self.now count }
        requires within { bucket ≤ length (numbers_in self.now.lasts) }
        ensures within { (bucket ≤ result) × (result ≤ length (numbers_in self.now.lasts)) }
        ensures least { (j : ℕ)
            → bucket ≤ j
            → j < result
            → first < (node_at (nodes_in self.now.nodes) j).first }
    {
        let mut parent = bucket;
        while parent < self.lasts.len() && first < self.nodes.at(parent).first {
            parent = self.nodes.at(parent).parent as usize;
        }
        parent
    }

    /// The buckets with so many rules in a bucket, in the place of those from the number `from` on before `to`.
    pub(crate) fn resized(
        self,
        alloc: Global,
        bucket: usize,
        from: usize,
        to: usize,
        count: usize,
    ) -> Result<Buckets, Memory>
        requires sound { AreSound self (length self.homes.items) }
        requires whole { length self.homes.items < 2 ^ 32 }
        requires some { (span : ℕ × ℕ) × IsHolder self bucket span from to }
        requires fits { from + count + length self.homes.items < 2 ^ 32 + to }
        ensures { IfOk result (λ new.
            (most : ℕ) (span : ℕ × ℕ) (spans news : List (Option (ℕ × ℕ)))
            → from + count + length self.homes.items ≤ most + to
            → IsHolder self bucket span from to
            → AreHoused spans self
            → length self.homes.items ≤ length spans
            → AreTo (Some span) news
            → length news ≡ count
            → AreBucketsOf (splice spans from to news) new most) }
    {
        let mut homes = self.homes;
        let mut nodes = self.nodes;
        put_between(&mut homes, from, to, vec![in alloc; bucket as u32; count]?)?;
        nodes.shift(bucket + 1, (to - from) as u32, count as u32);
        Ok(Buckets {
            lasts: self.lasts,
            marks: self.marks,
            nodes,
            homes,
        })
    }

    /// How many buckets stand before these addresses, with those that have them or without.
    fn passed(&self, first: u128, last: u128, same: bool) -> usize
        requires sound { (count : ℕ) × AreSound self.now count }
        ensures { Passes self.now (first, last) same result }
    {
        let mut bucket = self.lasts.find(last);
        while bucket < self.lasts.len() && self.passes(bucket, first, last, same) {
            bucket += 1;
        }
        bucket
    }

    /// Whether a bucket ends with the address and stands before those that begin with the other, or begins with it.
    fn passes(&self, bucket: usize, first: u128, last: u128, same: bool) -> bool
        requires bound { bucket < length (numbers_in self.now.lasts) }
        requires size { length (nodes_in self.now.nodes) ≡ length (numbers_in self.now.lasts) + 1 }
        ensures yes { IsTrue result → IsPassed (bucket_span self.now bucket) (first, last) same }
        ensures no { IsFalse result
            → last ≤ get_or (numbers_in self.now.lasts) bucket 0
            → IsLeft (bucket_span self.now bucket) (first, last) same }
    {
        let begins = self.nodes.at(bucket).first;
        self.lasts.at(bucket) == last && (begins > first || same && begins == first)
    }
}

/// The buckets of the rules. What is reckoned on the way is given back before the rules are compiled.
pub fn buckets_of(alloc: Global, family: Family, list: &[LentRule<'_>]) -> Result<Buckets, Memory>
    requires few { length list.now < 2 ^ 32 }
    requires each { AllByRecursion (IsOfFamily family) (all_admitted list.now) }
    requires nesting { AreNesting (spans_of (all_admitted list.now)) }
    ensures { IfOk result (λ buckets. AreBucketsOf (spans_of (all_admitted list.now)) buckets (length list.now)) }
{
    buckets_with(alloc, family, runs_of(alloc, family, list)?)
}

/// The buckets of these runs.
pub(crate) fn buckets_with(alloc: Global, family: Family, runs: Runs) -> Result<Buckets, Memory>
    requires fits { length runs.homes.items < 2 ^ 32 }
    requires some { (spans : List (Option (ℕ × ℕ)))
        × RunsOf spans runs
        × AreNarrow (width_of family) spans
        × AreNesting spans }
    ensures { IfOk result (λ buckets.
        (count : ℕ) (spans : List (Option (ℕ × ℕ)))
        → length runs.homes.items ≤ count
        → RunsOf spans runs
        → AreNesting spans
        → get_or spans (length runs.homes.items) None ≡ None
        → AreBucketsOf spans buckets count) }
{
    let parents = parents_of(alloc, &runs.firsts)?;
    let nodes = nodes_of(alloc, family, &runs, &parents)?;
    let marks = Marks::of(alloc, &runs.lasts)?;
    Ok(Buckets {
        lasts: runs.lasts,
        marks,
        nodes,
        homes: runs.homes,
    })
}

/// The numbers, of which those from a place on are one more.
fn raised(numbers: Vec<u32>, from: usize) -> Vec<u32>
    requires { (k : ℕ) → k < length numbers.items → get_or numbers.items k 0 + 1 < 2 ^ 32 }
    ensures { AreChanged from (length numbers.items) (λ _ n. n + 1) numbers.items result.items }
{
    let mut numbers = numbers;
    raise(&mut numbers, from);
    numbers
}

fn raise(numbers: &mut [u32], from: usize)
    requires { (k : ℕ) → k < length numbers.old → get_or numbers.old k 0 + 1 < 2 ^ 32 }
    ensures { AreChanged from (length numbers.old) (λ _ n. n + 1) numbers.old numbers.new }
{
    for place in from..numbers.len() {
        numbers[place] += 1;
    }
}

/// Puts these in the place of the elements from one on before another.
pub fn put_between<T: Drop>(
    items: &mut Vec<T>,
    from: usize,
    to: usize,
    news: Vec<T>,
) -> Result<(), Memory>
    requires bounds { (from ≤ to) × (to ≤ length items.old.items) }
    ensures { OnOk result (items.new.items ≡ splice items.old.items from to news.items) }
{
    items.splice(from..to, news)?;
    Ok(())
}
