//! The flow routes of both families.

ghost use Rattle.std.specs.{Prelude.{◌≡◌, ◌+◌, not, [], OnOk, OnErr, IfOk, filter}, List.{list_any, AllByRecursion}};
ghost use Rattle.fs_flows.specs.Table.{IsRuleOf, is_key};
ghost use Rattle.fs_flows.specs.Group.{has_key, put_kept, AreSorted, routes_of, chosen, of_family, is_other_key, is_of_other, HaveRules};
ghost use Rattle.fs_flows.specs.{Lending.{AreLent}, Search.{MendsKept, WereRight}};
ghost use Rattle.fs_base.specs.declared.prefix.Family.{Family};
ghost use Rattle.fs_nlri.specs.Rule.{IsRule};

use crate::destinations::Destinations;
use crate::groups::{Groups, LentGroups};
use crate::kept::Kept;
use crate::noted::Changes;
use fs_base::{Config, Family, Memory, Steps};
use fs_nlri::Rule;
use fs_unicast::{Swap, Unicast};
use std::alloc::Global;
use std::marker::Model;
use std::sync::ledger::Ledger;

/// Flow routes with their validities, in the order of rules and then by peer: those of IPv4 and those of IPv6.
#[derive(Drop)]
pub struct Flows {
    v4: Groups,
    v6: Groups,
    listed: Destinations,
}

impl Model for Flows {
    ghost use Rattle.std.specs.Prelude.{List, ◌++◌};
    ghost use Rattle.fs_flows.specs.{Kept.{Kept}, Flows.{AreOfFamilies}, Destinations.{AreListed}};

    ghost Value = { List Kept };

    ghost view = { λ a. a.v4 ++ a.v6 };

    ghost invariant = { λ a. AreOfFamilies a.v4 a.v6 × AreListed a.listed a.v4 a.v6 };
}

impl Flows {
    /// No routes.
    pub fn new(alloc: Global) -> Flows
        ensures { result ≡ [] }
    {
        Flows {
            v4: Groups::new(alloc),
            v6: Groups::new(alloc),
            listed: Destinations::new(alloc),
        }
    }

    /// Where its memory comes from.
    pub fn allocator(&self) -> Global {
        self.v4.allocator()
    }

    /// Keeps the route in its place, instead of one of its key, and tells whether there was none. Where memory is
    /// refused nothing changes.
    pub fn put(&mut self, k: Kept) -> Result<bool, Memory>
        requires { AreSorted (routes_of self.old) }
        ensures ok { OnOk result (self.new ≡ put_kept k self.old) }
        ensures fresh { IfOk result (λ is_new. is_new ≡ not (has_key k.route.rule k.route.peer self.old)) }
        ensures err { OnErr result (self.new ≡ self.old) }
        ensures rule { IsRule k.route.rule }
        ensures rules { HaveRules self.old }
    {
        self.listed.note(&k);
        match k.family() {
            Family::V4 => self.v4.put(k),
            Family::V6 => self.v6.put(k),
        }
    }

    /// Takes the route of the key away, and tells whether there was one.
    pub fn take(&mut self, rule: &Rule, peer: u16) -> bool
        requires { AreSorted (routes_of self.old) }
        ensures taken { self.new ≡ filter (is_other_key rule.now peer) self.old }
        ensures held { result ≡ list_any (λ k. is_key rule.now peer k.route) self.old }
        ensures rule { IsRule rule.now }
        ensures rules { HaveRules self.old }
    {
        match rule.family() {
            Family::V4 => self.v4.take(rule, peer),
            Family::V6 => self.v6.take(rule, peer),
        }
    }

    /// Takes away what the peer gave: at the destinations that are listed for it, as long as these are few.
    pub fn forget(&mut self, peer: u16)
        ensures { self.new ≡ filter (is_of_other peer) self.old }
    {
        match self.listed.take(peer) {
            Some(destinations) => {
                self.v4.forget_along(&destinations, peer);
                self.v6.forget_along(&destinations, peer);
            }
            None => {
                self.v4.forget(peer);
                self.v6.forget(peer);
            }
        }
    }

    /// Validates the routes anew, behind the swap that led to these unicast routes, that are related to its prefix, and
    /// notes where a validity is another than before. At most as many steps as there are of them.
    pub fn mend<L: Ledger>(
        &mut self,
        swap: &Swap,
        unicast: &Unicast,
        config: &Config,
        changes: &mut Changes,
        steps: &mut Steps<L>,
    )
        requires { WereRight swap.now unicast.now config.now self.old }
        ensures mends { MendsKept swap.now.prefix unicast.now config.now self.old self.new changes.old changes.new steps.old steps.new }
        ensures rules { HaveRules self.old }
    {
        self.v4.mend(swap, unicast, config, changes, steps);
        self.v6.mend(swap, unicast, config, changes, steps);
    }

    /// The flow routes of the family, to be read.
    pub fn lend(&self, family: Family) -> LentGroups<'_>
        requires { AreSorted (routes_of self.now) }
        ensures lent { AreLent family (chosen family self.now) (of_family family self.now)
            result.groups.now.entries result.rest.now }
        ensures rules { (f : Family) → AllByRecursion (λ k. IsRuleOf f k.route) (chosen f self.now) }
    {
        match family {
            Family::V4 => self.v4.lend(),
            Family::V6 => self.v6.lend(),
        }
    }
}
