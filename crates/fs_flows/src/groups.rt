//! The flow routes of one family, grouped by destination.

ghost use Rattle.std.specs.{Prelude.{◌≡◌, ◌≤◌, ◌==◌, not, false, [], OnOk, OnErr, IfOk, filter}, List.{list_any, AllByRecursion}};
ghost use Rattle.fs_base.specs.declared.prefix.Family.{Family};
ghost use Rattle.fs_nlri.specs.Rule.{IsRule};
ghost use Rattle.fs_flows.specs.Table.{is_key};
ghost use Rattle.fs_flows.specs.Group.{has_key, put_kept, AreSorted, routes_of, chosen, is_other_key, is_of_other, HaveRules};
ghost use Rattle.fs_flows.specs.Groups.{IsSound, HasSortedGroups, AreInOrder, AreNoShorter, put_entry, keep_at, keep_each, IsHeldAt};
ghost use Rattle.fs_flows.specs.{Destinations.{IsAmong, keep_along}, Lending.{AreLent}, Search.{MendsKept, WereRight}};

use crate::group::Group;
use crate::kept::{Kept, destination_key};
use crate::noted::Changes;
use crate::search::retest_related;
use fs_base::{Config, Memory, Prefix, Steps};
use fs_nlri::Rule;
use fs_unicast::{PrefixKey, Swap, Unicast};
use std::alloc::Global;
use std::collections::BTreeMap;
use std::collections::btree_map::Entry;
use std::marker::Model;
use std::sync::ledger::Ledger;

/// The flow routes of one family in the order of rules and then by peer: a group for each destination, in the order
/// of prefixes, and last the routes without a destination.
#[derive(Drop)]
pub(crate) struct Groups {
    groups: BTreeMap<PrefixKey, Group>,
    rest: Group,
    /// No more routes than this are held.
    most: usize,
    /// No destination is shorter than this.
    shortest: u8,
}

impl Model for Groups {
    ghost use Rattle.std.specs.Prelude.{List};
    ghost use Rattle.fs_flows.specs.{Kept.{Kept}, Groups.{kept_in, IsGrouped, AreNoShorter}};

    ghost Value = { List Kept };

    ghost view = { λ a. kept_in a.groups.entries a.rest };

    ghost invariant = { λ a. IsGrouped a.groups.entries a.rest a.most × AreNoShorter a.shortest a.groups.entries };
}

/// The groups of a family, and the routes without a destination.
#[derive(Clone, Copy, Drop)]
pub struct LentGroups<'a> {
    pub groups: &'a BTreeMap<PrefixKey, Group>,
    pub rest: &'a Group,
}

impl Groups {
    pub(crate) fn new(alloc: Global) -> Groups
        ensures { result ≡ [] }
    {
        Groups {
            groups: BTreeMap::new(alloc),
            rest: Group::new(alloc),
            most: 0,
            shortest: 0,
        }
    }

    pub(crate) fn allocator(&self) -> Global {
        self.rest.allocator()
    }

    /// Keeps the route in its place, instead of one of its key, and tells whether there was none. Where memory is
    /// refused nothing changes.
    pub(crate) fn put(&mut self, k: Kept) -> Result<bool, Memory>
        requires sorted { AreSorted (routes_of self.old) }
        requires sound { AllByRecursion (IsSound k.route.rule.family) self.old }
        ensures ok { OnOk result (self.new ≡ put_kept k self.old) }
        ensures fresh { IfOk result (λ is_new. is_new ≡ not (has_key k.route.rule k.route.peer self.old)) }
        ensures err { OnErr result (self.new ≡ self.old) }
        ensures rule { IsRule k.route.rule }
    {
        let destination = k.destination();
        let Some(most) = self.most.checked_add(1) else {
            return Err(Memory);
        };
        match destination {
            Some(destination) => {
                let shortest = shortest_with(&self.groups, self.shortest, &destination);
                let is_new = put_at(&mut self.groups, destination, k, self.rest.allocator())?;
                self.shortest = shortest;
                self.most = most;
                Ok(is_new)
            }
            None => {
                let is_new = self.rest.put(k)?;
                self.most = most;
                Ok(is_new)
            }
        }
    }

    /// Takes the route of the key away, and tells whether there was one.
    pub(crate) fn take(&mut self, rule: &Rule, peer: u16) -> bool
        requires sorted { AreSorted (routes_of self.old) }
        requires rules { HaveRules self.old }
        ensures taken { self.new ≡ filter (is_other_key rule.now peer) self.old }
        ensures held { result ≡ list_any (λ k. is_key rule.now peer k.route) self.old }
        ensures rule { IsRule rule.now }
    {
        match destination_key(rule) {
            Some(destination) => take_at(&mut self.groups, &destination, rule, peer),
            None => self.rest.take(rule, peer),
        }
    }

    /// Takes away what the peer gave.
    pub(crate) fn forget(&mut self, peer: u16)
        ensures { self.new ≡ filter (is_of_other peer) self.old }
    {
        forget_each(&mut self.groups, peer);
        self.rest.forget(peer);
    }

    /// Takes away what the peer gave, of which each route with a destination has one of these.
    pub(crate) fn forget_along(&mut self, destinations: &[PrefixKey], peer: u16)
        requires { AllByRecursion (λ k. not (k.route.peer == peer) ≡ false → IsAmong destinations.now k) self.old }
        ensures { self.new ≡ filter (is_of_other peer) self.old }
    {
        forget_along(&mut self.groups, destinations, peer);
        self.rest.forget(peer);
    }

    /// Validates the routes anew, behind the swap, that are related to its prefix, and notes where a validity is another
    /// than before. At most as many steps as there are of them.
    pub(crate) fn mend<L: Ledger>(
        &mut self,
        swap: &Swap,
        unicast: &Unicast,
        config: &Config,
        changes: &mut Changes,
        steps: &mut Steps<L>,
    )
        requires { WereRight swap.now unicast.now config.now self.old }
        ensures { MendsKept swap.now.prefix unicast.now config.now self.old self.new changes.old changes.new steps.old steps.new }
    {
        let shortest = self.shortest;
        let groups = &mut self.groups;
        retest_related(groups, shortest, swap, unicast, config, changes, steps);
    }

    /// The routes, to be read.
    pub(crate) fn lend(&self) -> LentGroups<'_>
        ensures { (family : Family)
            → AreSorted (routes_of self.now)
            → AllByRecursion (IsSound family) self.now
            → AreLent family (chosen family self.now) self.now result.groups.now.entries result.rest.now }
    {
        LentGroups {
            groups: &self.groups,
            rest: &self.rest,
        }
    }
}

/// A length that no destination is shorter than, the new one neither, where none is shorter than `shortest`.
fn shortest_with(groups: &BTreeMap<PrefixKey, Group>, shortest: u8, destination: &PrefixKey) -> u8
    requires { AreNoShorter shortest groups.now.entries }
    ensures held { AreNoShorter result groups.now.entries }
    ensures put { result ≤ destination.now.length }
{
    let length = destination.prefix().length;
    if groups.is_empty() {
        return length;
    }
    shortest.min(length)
}

/// Keeps the route in the group of the destination, and tells whether there was none of its key.
fn put_at(
    groups: &mut BTreeMap<PrefixKey, Group>,
    destination: PrefixKey,
    k: Kept,
    alloc: Global,
) -> Result<bool, Memory>
    requires { HasSortedGroups groups.old.entries }
    ensures ok { OnOk result (groups.new.entries ≡ put_entry destination k groups.old.entries) }
    ensures fresh { IfOk result
        (λ is_new. IsHeldAt destination k.route.rule k.route.peer groups.old.entries (not is_new)) }
    ensures err { OnErr result (groups.new.entries ≡ groups.old.entries) }
{
    match groups.entry(destination)? {
        Entry::Occupied(entry) => entry.into_mut().put(k),
        Entry::Vacant(entry) => {
            let mut group = Group::new(alloc);
            group.put(k)?;
            entry.insert(group);
            Ok(true)
        }
    }
}

/// Takes the route of the key out of the group of the destination, and tells whether there was one.
fn take_at(
    groups: &mut BTreeMap<PrefixKey, Group>,
    destination: &PrefixKey,
    rule: &Rule,
    peer: u16,
) -> bool
    requires { HasSortedGroups groups.old.entries }
    ensures taken { groups.new.entries ≡ keep_at destination.now (is_other_key rule.now peer) groups.old.entries }
    ensures held { IsHeldAt destination.now rule.now peer groups.old.entries result }
{
    let Some(group) = groups.get_mut(destination) else {
        return false;
    };
    let held = group.take(rule, peer);
    if group.is_empty() {
        groups.remove(destination);
    }
    held
}

/// Takes out of each group what the peer gave.
fn forget_each(groups: &mut BTreeMap<PrefixKey, Group>, peer: u16)
    ensures kept { groups.new.entries ≡ keep_each (is_of_other peer) groups.old.entries }
    ensures ordered { AreInOrder groups.new.entries }
{
    groups.retain(|_, group| {
        group.forget(peer);
        !group.is_empty()
    });
}

/// Takes out of the groups of these destinations what the peer gave.
fn forget_along(groups: &mut BTreeMap<PrefixKey, Group>, destinations: &[PrefixKey], peer: u16)
    ensures { groups.new.entries ≡ keep_along destinations.now (is_of_other peer) groups.old.entries }
{
    for destination in destinations {
        forget_at(groups, destination, peer);
    }
}

/// Takes out of the group of the destination what the peer gave.
fn forget_at(groups: &mut BTreeMap<PrefixKey, Group>, destination: &PrefixKey, peer: u16)
    ensures { groups.new.entries ≡ keep_at destination.now (is_of_other peer) groups.old.entries }
{
    let Some(group) = groups.get_mut(destination) else {
        return;
    };
    group.forget(peer);
    if group.is_empty() {
        groups.remove(destination);
    }
}
