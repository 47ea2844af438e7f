//! The admitted rules of a table, compiled.

ghost use Rattle.std.specs.{Prelude.{◌≡◌, ◌≤◌, ◌+◌, IfOk, List, OnOk, length, max}, List.{AllByRecursion}};
ghost use Rattle.fs_base.specs.declared.prefix.Family.{Family, TheVariants.{V4, V6}};
ghost use Rattle.fs_rules.specs.{Changes.{Covers}, Lent.{Listed, all_admitted}, Table.{Held}};
ghost use Rattle.fs_compile.specs.{Index.{IsIndexOf, actions_of}, Mending.{AreOwn, put_in, replaced}};
ghost use Rattle.fs_compile.specs.Matcher.{AreMadeWhereNoted, ArePut, StandsForLists, WalksByNext, admitted_in, next_from};
ghost use Rattle.fs_compile.specs.{Matches.{AreMatchesOf}, Reach.{reaching}};
ghost use Rattle.fs_buckets.specs.Destinations.{IsOfFamily, spans_of, AreTo, target_of};

use crate::index::Index;
use crate::matches::Matches;
use fs_base::{Family, Memory, Steps};
use fs_packet::View;
use fs_rules::{Change, Changes, LentRule, SharedActions, Table};
use std::alloc::Global;
use std::sync::ledger::Ledger;

/// The admitted rules of both families, compiled for packets, with their actions. It keeps no part of the table.
#[derive(Drop)]
pub struct Compiled {
    v4: Index,
    v6: Index,
}

impl Compiled {
    /// Compiles the rules that the table admits now.
    ///
    /// # Errors
    ///
    /// `Memory` where the machine refuses memory, and where a family has 2^32 admitted rules or more.
    pub fn build(alloc: Global, table: &Table<'_>) -> Result<Compiled, Memory>
        ensures stands { IfOk result (StandsForLists (admitted_in table.now)) }
        ensures own { IfOk result (λ _. AreOwn (admitted_in table.now)) }
    {
        Ok(Compiled {
            v4: admitted_index(alloc, table, Family::V4)?,
            v6: admitted_index(alloc, table, Family::V6)?,
        })
    }

    /// Compiles anew the rules that the table admits at the places that were noted, or all where all may have changed;
    /// of the others it keeps what they were compiled to. What it holds then is what `build` makes. Behind an error it
    /// is of no use.
    ///
    /// # Errors
    ///
    /// `Memory` as for `build`.
    pub fn mend(
        &mut self,
        alloc: Global,
        table: &Table<'_>,
        changes: &Changes,
    ) -> Result<(), Memory>
        requires { (base : Held)
            × StandsForLists (admitted_in base) self.old
            × AreOwn (admitted_in base)
            × Covers base changes.now table.now }
        ensures stands { OnOk result (StandsForLists (admitted_in table.now) self.new) }
        ensures own { OnOk result (AreOwn (admitted_in table.now)) }
        ensures kept { OnOk result (AreMadeWhereNoted changes.now (admitted_in table.now) self.old self.new) }
    {
        if changes.are_all() {
            *self = Compiled::build(alloc, table)?;
            return Ok(());
        }
        let places = changes.places();
        for place in places {
            let list = table.admitted_to(place.family, place.destination)?;
            self.replace(alloc, *place, &list)?;
        }
        Ok(())
    }

    /// Puts the rules of a family's destination, or those without one, in the place of those that were.
    fn replace(&mut self, alloc: Global, place: Change, list: &[LentRule<'_>]) -> Result<(), Memory>
        requires each { AllByRecursion (IsOfFamily place.family) (all_admitted list.now) }
        requires there { AreTo (target_of place.destination) (spans_of (all_admitted list.now)) }
        requires some { (rules : Family → List Listed) × StandsForLists rules self.old }
        ensures { OnOk result ((rules : Family → List Listed)
            → StandsForLists rules self.old
            → ArePut (all_admitted list.now) rules
            (put_in place.family
            (replaced (target_of place.destination) (all_admitted list.now) (rules place.family)) rules)
            self.old self.new) }
    {
        match place.family {
            Family::V4 => self.v4.replace(alloc, place, list),
            Family::V6 => self.v6.replace(alloc, place, list),
        }
    }

    /// The actions of the family's rules, in order.
    pub fn actions(&self, family: Family) -> &[SharedActions]
        ensures { (rules : Family → List Listed)
            → StandsForLists rules self.now
            → result.now ≡ actions_of (rules family) }
    {
        self.index(family).actions()
    }

    /// As many rules as the family with more of them has: no walk has more.
    pub fn most(&self) -> usize
        ensures most { (rules : Family → List Listed)
            → StandsForLists rules self.now
            → (family : Family)
            → length (rules family) ≤ result }
        ensures exact { (rules : Family → List Listed)
            → StandsForLists rules self.now
            → result ≡ max (length (rules V4)) (length (rules V6)) }
    {
        self.v4.len().max(self.v6.len())
    }

    /// The least number, from 0, of a rule of the packet's family that matches it. At most as many steps as the
    /// family has rules whose destination covers the packet's, or that have none (of IPv6 none with offset 0). Takes
    /// no memory.
    pub fn first<L: Ledger>(&self, view: &View<'_>, steps: &mut Steps<L>) -> Option<usize>
        ensures first { (rules : Family → List Listed)
            → StandsForLists rules self.now
            → result ≡ next_from 0 view.now (rules view.now.family) }
        ensures later { steps.old ≤ steps.new }
        ensures steps { (rules : Family → List Listed)
            → StandsForLists rules self.now
            → steps.new ≤ steps.old + reaching view.now (rules view.now.family) }
    {
        self.matches(view).next(steps)
    }

    /// The least number above `n`, which may be any, of a rule of the packet's family that matches it. As many steps as
    /// `first` at most. Takes no memory.
    pub fn next<L: Ledger>(&self, view: &View<'_>, n: usize, steps: &mut Steps<L>) -> Option<usize>
        ensures next { (rules : Family → List Listed)
            → StandsForLists rules self.now
            → result ≡ next_from (n + 1) view.now (rules view.now.family) }
        ensures later { steps.old ≤ steps.new }
        ensures steps { (rules : Family → List Listed)
            → StandsForLists rules self.now
            → steps.new ≤ steps.old + reaching view.now (rules view.now.family) }
    {
        let index = self.index(view.family());
        if n >= index.len() {
            return None;
        }
        Matches::behind(index, view, n).next(steps)
    }

    /// The rules of the packet's family that match it, to be asked for one after the other.
    #[inline(always)]
    pub fn matches<'a>(&'a self, view: &'a View<'a>) -> Matches<'a>
        ensures matches { (rules : Family → List Listed)
            → StandsForLists rules self.now
            → AreMatchesOf view.now (rules view.now.family) result }
        ensures from { result.from ≡ 0 }
    {
        Matches::of(self.index(view.family()), view)
    }

    /// The rules of a family.
    #[inline(always)]
    fn index(&self, family: Family) -> &Index
        ensures { (rules : Family → List Listed)
            → StandsForLists rules self.now
            → IsIndexOf family (rules family) result.now }
    {
        match family {
            Family::V4 => &self.v4,
            Family::V6 => &self.v6,
        }
    }
}

/// The rules of the family that the table admits, compiled.
fn admitted_index(alloc: Global, table: &Table<'_>, family: Family) -> Result<Index, Memory>
    ensures index { IfOk result (IsIndexOf family (admitted_in table.now family)) }
    ensures own { IfOk result (λ _. AllByRecursion (IsOfFamily family) (admitted_in table.now family)) }
{
    let list = table.admitted(family)?;
    Index::of(alloc, family, &list)
}

/// A law of the walk: taken by a search from number to number, it is the walk over the rules in order.
pub fn walks_by_next()
    ensures { WalksByNext }
{}
