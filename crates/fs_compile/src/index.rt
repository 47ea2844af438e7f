//! The rules of a family, compiled, and found by the destination of a packet.

ghost use Rattle.std.specs.{Prelude.{◌≡◌, ◌≤◌, ◌+◌, ◌<◌, ◌^◌, true, IfOk, IfSome, OnOk, List, is_some, length}, List.{All, AllByRecursion, splice}};
ghost use Rattle.fs_base.specs.declared.prefix.Family.{Family};
ghost use Rattle.fs_packet.specs.Fields.{Viewed};
ghost use Rattle.fs_rules.specs.Lent.{Listed, all_admitted};
ghost use Rattle.fs_buckets.specs.{Addresses.{number_of}, Housed.{AreSound}};
ghost use Rattle.fs_buckets.specs.Destinations.{AreTo, IsOfFamily, IsStretch, spans_of, target_of};
ghost use Rattle.fs_buckets.specs.Runs.{AreNesting};
ghost use Rattle.fs_ranges.specs.{Facts.{AreFacts}, declared.Fast.{Fast}};
ghost use Rattle.fs_compile.specs.{Filters.{AreFilters, IsFilter}, Index.{IsIndexOf, IsMended, StandForEach, actions_of}, Mending.{replaced}};
ghost use Rattle.fs_compile.specs.{Matcher.{next_from}, Reach.{reaching_behind, reaching_from}, Search.{Starts, behind_hit, hit_number}};

use crate::columns::Run;
use crate::filters::{FEW_RULES, Filter, Filters};
use crate::search::{Cursor, Hit, Search, place_behind, place_from};
use crate::tested::Tested;
use fs_base::{Address, Family, Memory, Prefix, Steps};
use fs_buckets::{Buckets, buckets_of, mended, put_between};
use fs_ranges::{Facts, Fast};
use fs_rules::{Change, LentRule, SharedActions};
use std::alloc::Global;
use std::marker::Model;
use std::mem::replace;
use std::sync::ledger::Ledger;

/// The most rules of a family, of which each has a number of 32 bits.
const MOST: usize = 0xffff_ffff;

/// The rules of a family in order, compiled, with their actions, and the buckets of their destinations.
#[derive(Drop)]
pub(crate) struct Index {
    buckets: Buckets,
    rules: Vec<Fast>,
    filters: Filters,
    actions: Vec<SharedActions>,
}

impl Model for Index {
    ghost use Rattle.std.specs.Prelude.{◌<◌, ◌^◌, length};
    ghost use Rattle.fs_compile.specs.{Filters.{AreFilters}, Index.{Indexed}};
    ghost use Rattle.fs_buckets.specs.Housed.{AreSound};

    ghost Value = { Indexed };

    ghost view = { λ a. record { buckets = a.buckets; rules = a.rules.items; actions = a.actions.items } };

    ghost invariant = { λ a.
        AreSound a.buckets (length a.rules.items)
        × (length a.rules.items < 2 ^ 32)
        × AreFilters a.rules.items a.filters };
}

impl Index {
    /// Compiles the rules of a family, which are in order. `Memory` also where they are 2^32 or more.
    pub(crate) fn of(alloc: Global, family: Family, list: &[LentRule<'_>]) -> Result<Index, Memory>
        requires each { AllByRecursion (IsOfFamily family) (all_admitted list.now) }
        requires nesting { AreNesting (spans_of (all_admitted list.now)) }
        ensures { IfOk result (IsIndexOf family (all_admitted list.now)) }
    {
        if list.len() > MOST {
            return Err(Memory);
        }
        let buckets = buckets_of(alloc, family, list)?;
        let rules = compiled_rules(alloc, list)?;
        let filters = filters_of(alloc, &buckets, &rules)?;
        let actions = shared_actions(alloc, list)?;
        Ok(Index {
            buckets,
            rules,
            filters,
            actions,
        })
    }

    /// Puts the rules of the destination, or those without one, anew: these stand in the place of those that were.
    /// Behind `Memory` the index is of no use.
    pub(crate) fn replace(
        &mut self,
        alloc: Global,
        place: Change,
        list: &[LentRule<'_>],
    ) -> Result<(), Memory>
        requires each { AllByRecursion (IsOfFamily place.family) (all_admitted list.now) }
        requires there { AreTo (target_of place.destination) (spans_of (all_admitted list.now)) }
        requires some { (rules : List Listed) × IsIndexOf place.family rules self.old }
        ensures { OnOk result ((rules : List Listed)
            → IsIndexOf place.family rules self.old
            → IsMended place.family (all_admitted list.now) rules
            (replaced (target_of place.destination) (all_admitted list.now) rules) self.old self.new) }
    {
        let none = Vec::new(alloc);
        let index = replace(self, Index::of(alloc, place.family, &none)?);
        *self = index.replaced(alloc, place, list)?;
        Ok(())
    }

    /// The index with the rules of the destination, or those without one, anew.
    fn replaced(self, alloc: Global, place: Change, list: &[LentRule<'_>]) -> Result<Index, Memory>
        requires each { AllByRecursion (IsOfFamily place.family) (all_admitted list.now) }
        requires there { AreTo (target_of place.destination) (spans_of (all_admitted list.now)) }
        requires some { (rules : List Listed) × IsIndexOf place.family rules self }
        ensures { IfOk result (λ index.
            (rules : List Listed)
            → IsIndexOf place.family rules self
            → IsMended place.family (all_admitted list.now) rules
            (replaced (target_of place.destination) (all_admitted list.now) rules) self index) }
    {
        let (from, to) = self.stretch(place.destination);
        if list.len() > MOST - (self.rules.len() - (to - from)) {
            return Err(Memory);
        }
        self.put_stretch(alloc, place, from, to, list)
    }

    /// The numbers from which on and before which the rules of the destination stand, or those without one.
    fn stretch(&self, destination: Option<Prefix>) -> (usize, usize)
        ensures stretch { (family : Family) (rules : List Listed)
            → IsIndexOf family rules self.now
            → IsStretch (spans_of rules) (target_of destination) result.0 result.1 }
        ensures homes { is_some destination ≡ true → result.1 ≤ length self.now.buckets.homes.items }
    {
        match destination {
            Some(destination) => self.buckets.stretch(destination.bits, destination.last()),
            None => (self.buckets.homes.len(), self.rules.len()),
        }
    }

    /// The rules of the list in the place of those of the destination, or of those without one, which are those from
    /// the number `from` on before `to`.
    fn put_stretch(
        self,
        alloc: Global,
        place: Change,
        from: usize,
        to: usize,
        list: &[LentRule<'_>],
    ) -> Result<Index, Memory>
        requires each { AllByRecursion (IsOfFamily place.family) (all_admitted list.now) }
        requires there { AreTo (target_of place.destination) (spans_of (all_admitted list.now)) }
        requires bounds { (from ≤ to) × (to ≤ length self.rules) }
        requires shared { to ≤ length self.actions }
        requires homes { is_some place.destination ≡ true → to ≤ length self.buckets.homes.items }
        requires few { from + length list.now + length self.rules < 2 ^ 32 + to }
        requires some { (rules : List Listed)
            × IsIndexOf place.family rules self
            × IsStretch (spans_of rules) (target_of place.destination) from to }
        ensures { IfOk result (λ index.
            (rules : List Listed)
            → IsIndexOf place.family rules self
            → IsStretch (spans_of rules) (target_of place.destination) from to
            → IsMended place.family (all_admitted list.now) rules (splice rules from to (all_admitted list.now)) self index) }
    {
        let old = self.buckets;
        let mut rules = self.rules;
        let mut actions = self.actions;
        put_between(&mut actions, from, to, shared_actions(alloc, list)?)?;
        put_between(&mut rules, from, to, compiled_rules(alloc, list)?)?;
        let filters = mended_filters(alloc, self.filters, &rules, from, to, list.len())?;
        let buckets = mended(alloc, place.family, old, place.destination, from, to, list)?;
        Ok(Index {
            buckets,
            rules,
            filters,
            actions,
        })
    }

    /// How many rules there are.
    pub(crate) fn len(&self) -> usize
        ensures { result ≡ length self.now.rules }
    {
        self.rules.len()
    }

    /// The actions of the rules, in order.
    pub(crate) fn actions(&self) -> &[SharedActions]
        ensures { result.now ≡ self.now.actions }
    {
        &self.actions
    }

    /// Where a search for the address begins.
    #[inline(always)]
    pub(crate) fn start(&self, address: Address) -> Cursor
        ensures starts { Starts self.now.buckets result }
        ensures address { result.address ≡ number_of address }
        ensures from { result.from ≡ 0 }
    {
        place_from(&self.buckets, address, 0)
    }

    /// Where a search for the address goes on behind the rule of the number.
    pub(crate) fn behind(&self, address: Address, n: usize) -> Cursor
        requires { n < length self.now.rules }
        ensures starts { Starts self.now.buckets result }
        ensures address { result.address ≡ number_of address }
        ensures from { result.from ≡ n + 1 }
    {
        place_behind(&self.buckets, address, n)
    }

    /// The least number, from that of the place on, of a rule that matches the packet, which is of the family.
    #[inline(always)]
    pub(crate) fn search<L: Ledger>(
        &self,
        facts: &Facts<'_>,
        start: Cursor,
        steps: &mut Steps<L>,
    ) -> Option<Hit>
        requires starts { Starts self.now.buckets start }
        requires address { start.address ≡ number_of facts.now.view.destination }
        ensures found { (view : Viewed) (rules : List Listed)
            → AreFacts view facts.now
            → IsIndexOf view.family rules self.now
            → hit_number result ≡ next_from start.from view rules }
        ensures starts { IfSome result (λ hit. Starts self.now.buckets (behind_hit start.address hit)) }
        ensures fits { IfSome result (λ hit. hit.number + 1 < 2 ^ 64) }
        ensures later { steps.old ≤ steps.new }
        ensures steps { (view : Viewed) (rules : List Listed)
            → AreFacts view facts.now
            → IsIndexOf view.family rules self.now
            → steps.new + reaching_behind (hit_number result) view rules
            ≤ steps.old + reaching_from start.from view rules }
    {
        let search = Search {
            buckets: &self.buckets,
            tested: Tested {
                rules: &self.rules,
                facts,
            },
            filters: None,
        };
        // two copies, so that where no run is long no bucket pays for the others
        if self.filters.runs.is_empty() {
            search.climb(start, steps)
        } else {
            Search {
                filters: Some(&self.filters),
                ..search
            }
            .climb(start, steps)
        }
    }
}

/// Compiles each rule.
fn compiled_rules(alloc: Global, list: &[LentRule<'_>]) -> Result<Vec<Fast>, Memory>
    ensures stand { IfOk result (λ rules. StandForEach (all_admitted list.now) rules.items) }
    ensures size { IfOk result (λ rules. length rules.items ≡ length list.now) }
{
    let mut rules = Vec::with_capacity(alloc, list.len())?;
    for admitted in list {
        rules.push(Fast::of(alloc, admitted.rule)?)?;
    }
    Ok(rules)
}

/// Shares the actions of each rule.
fn shared_actions(alloc: Global, list: &[LentRule<'_>]) -> Result<Vec<SharedActions>, Memory>
    ensures { IfOk result (λ actions. actions.items ≡ actions_of (all_admitted list.now)) }
{
    let mut actions = Vec::with_capacity(alloc, list.len())?;
    for admitted in list {
        actions.push(admitted.actions.share()?)?;
    }
    Ok(actions)
}

/// The filters of the long runs of rules that have one destination, and of those that have none.
fn filters_of(alloc: Global, buckets: &Buckets, rules: &[Fast]) -> Result<Filters, Memory>
    requires sound { AreSound buckets.now (length rules.now) }
    requires few { length rules.now < 2 ^ 32 }
    ensures { IfOk result (AreFilters rules.now) }
{
    let mut runs = Vec::new(alloc);
    for bucket in 0..buckets.lasts.len() {
        let first = buckets.nodes.at(bucket).start as usize;
        let end = buckets.nodes.at(bucket + 1).start as usize;
        put_filter(alloc, &mut runs, Run { rules, first, end })?;
    }
    let (first, end) = (buckets.homes.len(), rules.len());
    put_filter(alloc, &mut runs, Run { rules, first, end })?;
    Ok(Filters { runs })
}

/// The filters of rules of which those from the number `from` on before `to` were put anew, and are `size` now.
fn mended_filters(
    alloc: Global,
    old: Filters,
    rules: &[Fast],
    from: usize,
    to: usize,
    size: usize,
) -> Result<Filters, Memory>
    requires few { length rules.now < 2 ^ 32 }
    requires bounds { from ≤ to }
    requires end { from + size ≤ length rules.now }
    requires was { (before news : List Fast)
        × AreFilters before old
        × (to ≤ length before)
        × (length news ≡ size)
        × (rules.now ≡ splice before from to news) }
    ensures { IfOk result (AreFilters rules.now) }
{
    let mut runs = Vec::new(alloc);
    for filter in old.runs {
        if filter.end <= from {
            runs.push(filter)?;
        } else if to <= filter.first {
            let first = filter.first - to + from + size;
            runs.push(filter.moved(first))?;
        }
    }
    let (first, end) = (from, from + size);
    put_filter(alloc, &mut runs, Run { rules, first, end })?;
    Ok(Filters { runs })
}

/// Adds the filter of a run of rules, if it's long, in the order of runs.
fn put_filter(alloc: Global, filters: &mut Vec<Filter>, run: Run<'_>) -> Result<(), Memory>
    requires ordered { run.first ≤ run.end }
    requires within { run.end ≤ length run.rules.now }
    requires few { length run.rules.now < 2 ^ 32 }
    requires filters { All (IsFilter run.rules.now) filters.old.items }
    ensures { OnOk result (All (IsFilter run.entry.rules.now) filters.new.items) }
{
    if run.end - run.first > FEW_RULES {
        let place = filters.partition_point(|filter| filter.end <= run.first);
        filters.insert(place, Filter::of(alloc, run)?)?;
    }
    Ok(())
}
