//! The table.

ghost use Rattle.std.specs.Prelude.{◌≡◌, ◌≤◌, ◌+◌, ◌↔◌, false, [], IfOk, OnOk, OnErr, option_map, length, map, filter, slice_get, true, Bool};
ghost use Rattle.std.specs.{List.{AllByRecursion, Sorted.{IsStrictlySortedBy}}, Map.{keys_of}};
ghost use Rattle.fs_unicast.specs.{Unicast.{place_cmp, has_path}, Search.{held_by}};
ghost use Rattle.fs_flows.specs.Table.{without_route, has_route, without_peer_unicast, without_peer_flows, related_count, related_sum, admitted};
ghost use Rattle.fs_flows.specs.Table.{IsAdmitted, IsRuleOf, with_flow, with_path, without_path, without_peer, held_count, Held};
ghost use Rattle.fs_flows.specs.Changes.{AdmitsElsewhere, Covers, is_to};
ghost use Rattle.fs_base.specs.declared.prefix.Family.{Family};
ghost use Rattle.fs_nlri.specs.Parts.{Ruled};
ghost use Rattle.fs_rules.specs.Lent.{listed, shown_admitted, shown_held, shown_lent, held_flows, AreRising};
ghost use Rattle.fs_rules.specs.{Quiet.{StayThroughout, ValiditiesStay}, Reading.{AreTold}, Walk.{next_match}, Counts.{AreAmong}};

use crate::counts::Counts;
use crate::given::Given;
use crate::lent::{Admitted, HeldFlow, LentRule, OfKept};
use crate::reading::{self, push_admitted, push_admitted_to, push_held};
use fs_actions::Actions;
use fs_base::{Config, Family, Memory, Path, Prefix, Steps};
use fs_flows::{Change, Changes, Flows, Kept, LentGroups, SharedFlow, SharedRoute, validate};
use fs_nlri::Rule;
use fs_order::Ranked;
use fs_packet::View;
use fs_unicast::{PrefixKey, SharedPath, Unicast};
use std::alloc::Global;
use std::marker::Model;
use std::sync::ledger::Ledger;

/// All routes that peers hold. A flow route is kept with its validity, which each call leaves as it is over all
/// held unicast routes. How many routes each peer holds is counted as they come and go, and the prefixes of its unicast
/// routes are listed as long as they are few. Flow routes that come one after the other share an equal path and equal
/// actions.
#[derive(Drop)]
pub struct Table<'a> {
    config: &'a Config,
    unicast: Unicast,
    flows: Flows,
    counts: Counts,
    latest: Option<Given>,
}

impl<'a> Model for Table<'a> {
    ghost use Rattle.fs_flows.specs.{Table.{Held}, Group.{routes_of}};
    ghost use Rattle.fs_rules.specs.Counts.{IsKept};

    ghost Value = { Held };

    ghost view = { λ a. record { config = a.config.now; unicast = a.unicast; flows = routes_of a.flows } };

    ghost invariant = { λ a. IsKept a.config.now a.unicast a.flows a.counts };
}

impl<'a> Table<'a> {
    /// A table that holds nothing.
    pub fn new(alloc: Global, config: &'a Config) -> Table<'a>
        ensures { result ≡ record { config = config.now; unicast = []; flows = [] } }
    {
        Table {
            config,
            unicast: Unicast::new(alloc),
            flows: Flows::new(alloc),
            counts: Counts::new(alloc),
            latest: None,
        }
    }

    /// Keeps the route as the peer's route of the rule, in place of one that it holds. Of other rules the same routes
    /// are admitted. Where memory is refused nothing changes. At most one step.
    pub fn put_flow<L: Ledger>(
        &mut self,
        peer: u16,
        rule: Rule,
        path: Path,
        actions: Actions,
        steps: &mut Steps<L>,
    ) -> Result<(), Memory>
        ensures ok { OnOk result (self.new ≡ with_flow peer rule path actions self.old) }
        ensures elsewhere { OnOk result
            ((touched : Ruled → Bool) → touched rule ≡ true → AdmitsElsewhere touched self.old self.new) }
        ensures err { OnErr result (self.new ≡ self.old) }
        ensures later { steps.old ≤ steps.new }
        ensures steps { steps.new ≤ steps.old + 1 }
    {
        let given = self.given(path, actions)?;
        let given = self.share(given)?;
        let mut changes = Changes::new(self.flows.allocator());
        self.put_flow_telling(peer, rule, &given, &mut changes, steps)
    }

    /// The path and the actions, to be shared by many routes.
    pub fn given(&self, path: Path, actions: Actions) -> Result<Given, Memory>
        ensures { IfOk result (λ given. given ≡ record { path = path; actions = actions }) }
    {
        Given::new(self.flows.allocator(), path, actions)
    }

    /// The path and the actions, each as the flow routes of the last call share it where it is equal.
    ///
    /// # Errors
    ///
    /// `Memory` where the count of those that share it has no room for one more.
    pub fn share(&mut self, given: Given) -> Result<Given, Memory>
        ensures given { IfOk result (λ shared. shared ≡ given) }
        ensures stays { self.new ≡ self.old }
    {
        let given = given.beside(self.latest.as_ref())?;
        self.latest = Some(given.share()?);
        Ok(given)
    }

    /// As [`put_flow`](Table::put_flow), of a path and actions that many routes may share, and notes where the rule
    /// stands.
    pub fn put_flow_telling<L: Ledger>(
        &mut self,
        peer: u16,
        rule: Rule,
        given: &Given,
        changes: &mut Changes,
        steps: &mut Steps<L>,
    ) -> Result<(), Memory>
        ensures ok { OnOk result
            (self.new ≡ with_flow peer rule given.now.path given.now.actions self.old) }
        ensures covers { OnOk result
            ((base : Held) → Covers base changes.old self.old → Covers base changes.new self.new) }
        ensures elsewhere { OnOk result
            ((touched : Ruled → Bool) → touched rule ≡ true → AdmitsElsewhere touched self.old self.new) }
        ensures err { OnErr result (self.new ≡ self.old) }
        ensures later { steps.old ≤ steps.new }
        ensures steps { steps.new ≤ steps.old + 1 }
    {
        let alloc = self.flows.allocator();
        let change = Change::of(&rule);
        let route = SharedRoute {
            peer,
            rule,
            path: given.path.share()?,
            actions: given.actions.share()?,
        };
        let validity = validate(&self.unicast, self.config, &route, steps);
        let k = Kept::new(alloc, route, validity)?;
        self.counts.reserve(peer)?;
        let is_new = self.flows.put(k)?;
        self.counts.raise(peer, is_new);
        changes.note(change);
        Ok(())
    }

    /// Keeps the path as the peer's unicast route at the prefix, in place of one that it holds, and validates the
    /// related flow routes anew. Where memory is refused nothing changes. At most as many steps as there are flow
    /// routes whose destination covers the prefix or is covered by it, and none where the peer holds this very path.
    pub fn put_unicast<L: Ledger>(
        &mut self,
        peer: u16,
        prefix: Prefix,
        path: Path,
        steps: &mut Steps<L>,
    ) -> Result<(), Memory>
        ensures ok { OnOk result (self.new ≡ with_path peer prefix path self.old) }
        ensures err { OnErr result (self.new ≡ self.old) }
        ensures later { steps.old ≤ steps.new }
        ensures steps { steps.new ≤ steps.old + related_count prefix self.old.flows }
        ensures idle { self.new ≡ self.old → steps.new ≡ steps.old }
    {
        let alloc = self.flows.allocator();
        let path = SharedPath::new(alloc, path)?;
        self.put_unicast_telling(peer, prefix, path, &mut Changes::new(alloc), steps)
    }

    /// As [`put_unicast`](Table::put_unicast), and notes where a held flow route has another validity than before: nothing
    /// where each has the validity that it had. Many routes may be given one shared path.
    pub fn put_unicast_telling<L: Ledger>(
        &mut self,
        peer: u16,
        prefix: Prefix,
        path: SharedPath,
        changes: &mut Changes,
        steps: &mut Steps<L>,
    ) -> Result<(), Memory>
        ensures ok { OnOk result (self.new ≡ with_path peer prefix path self.old) }
        ensures covers { OnOk result
            ((base : Held) → Covers base changes.old self.old → Covers base changes.new self.new) }
        ensures quiet { ValiditiesStay self.old self.new → changes.new ≡ changes.old }
        ensures err { OnErr result (self.new ≡ self.old) }
        ensures later { steps.old ≤ steps.new }
        ensures steps { steps.new ≤ steps.old + related_count prefix self.old.flows }
        ensures idle { self.new ≡ self.old → steps.new ≡ steps.old }
    {
        self.counts.reserve(peer)?;
        let Some(swap) = self.unicast.put_telling(peer, prefix, path)? else {
            return Ok(());
        };
        let is_new = swap.old.is_none();
        self.counts.raise_at(peer, &prefix, is_new);
        let flows = &mut self.flows;
        flows.mend(&swap, &self.unicast, self.config, changes, steps);
        Ok(())
    }

    /// Takes the peer's route of the rule away, and tells whether there was one. Of other rules the same routes are
    /// admitted. No step.
    pub fn withdraw_flow<L: Ledger>(
        &mut self,
        peer: u16,
        rule: &Ranked,
        steps: &mut Steps<L>,
    ) -> bool
        ensures removed { self.new ≡ record self.old { flows = without_route rule.now.rule peer self.old.flows } }
        ensures held { result ≡ has_route rule.now.rule peer self.old.flows }
        ensures elsewhere { (touched : Ruled → Bool)
            → touched rule.now.rule ≡ true
            → AdmitsElsewhere touched self.old self.new }
        ensures steps { steps.new ≡ steps.old }
    {
        let mut changes = Changes::new(self.flows.allocator());
        self.withdraw_flow_telling(peer, rule, &mut changes)
    }

    /// As [`withdraw_flow`](Table::withdraw_flow), and notes where the rule stands if there was one. Takes no memory.
    pub fn withdraw_flow_telling(&mut self, peer: u16, rule: &Ranked, changes: &mut Changes) -> bool
        ensures removed { self.new ≡ record self.old { flows = without_route rule.now.rule peer self.old.flows } }
        ensures covers { (base : Held) → Covers base changes.old self.old → Covers base changes.new self.new }
        ensures held { result ≡ has_route rule.now.rule peer self.old.flows }
        ensures elsewhere { (touched : Ruled → Bool)
            → touched rule.now.rule ≡ true
            → AdmitsElsewhere touched self.old self.new }
    {
        let held = self.flows.take(&rule.rule, peer);
        self.counts.lower(peer, held);
        if held {
            changes.note(Change::of(&rule.rule));
        }
        held
    }

    /// Takes the peer's unicast route at the prefix away, validates the related flow routes anew, and tells whether
    /// there was one. At most as many steps as there are flow routes whose destination covers the prefix or is
    /// covered by it, and none where there was none.
    pub fn withdraw_unicast<L: Ledger>(
        &mut self,
        peer: u16,
        prefix: &Prefix,
        steps: &mut Steps<L>,
    ) -> bool
        ensures removed { self.new ≡ without_path peer prefix.now self.old }
        ensures held { result ≡ has_path peer prefix.now self.old.unicast }
        ensures later { steps.old ≤ steps.new }
        ensures steps { steps.new ≤ steps.old + related_count prefix.now self.old.flows }
        ensures idle { self.new ≡ self.old → steps.new ≡ steps.old }
    {
        let mut changes = Changes::new(self.flows.allocator());
        self.withdraw_unicast_telling(peer, prefix, &mut changes, steps)
    }

    /// As [`withdraw_unicast`](Table::withdraw_unicast), and notes where a held flow route has another validity than
    /// before: nothing where each has the validity that it had.
    pub fn withdraw_unicast_telling<L: Ledger>(
        &mut self,
        peer: u16,
        prefix: &Prefix,
        changes: &mut Changes,
        steps: &mut Steps<L>,
    ) -> bool
        ensures removed { self.new ≡ without_path peer prefix.now self.old }
        ensures covers { (base : Held) → Covers base changes.old self.old → Covers base changes.new self.new }
        ensures quiet { ValiditiesStay self.old self.new → changes.new ≡ changes.old }
        ensures held { result ≡ has_path peer prefix.now self.old.unicast }
        ensures later { steps.old ≤ steps.new }
        ensures steps { steps.new ≤ steps.old + related_count prefix.now self.old.flows }
        ensures idle { self.new ≡ self.old → steps.new ≡ steps.old }
    {
        let Some(removed) = self.unicast.remove_telling(peer, prefix) else {
            return false;
        };
        self.counts.lower(peer, true);
        let flows = &mut self.flows;
        flows.mend(&removed, &self.unicast, self.config, changes, steps);
        true
    }

    /// Takes away all that the peer holds. At most as many steps as all withdrawals of its unicast routes would take.
    pub fn lose<L: Ledger>(&mut self, peer: u16, steps: &mut Steps<L>)
        ensures removed { self.new ≡ without_peer peer self.old }
        ensures later { steps.old ≤ steps.new }
        ensures steps { steps.new ≤ steps.old + related_sum peer self.old.unicast self.old.flows }
    {
        let mut changes = Changes::new(self.flows.allocator());
        self.lose_telling(peer, &mut changes, steps);
    }

    /// As [`lose`](Table::lose), and notes where the rules that are admitted may be others than before: any, where a flow
    /// route of the peer went. None where the peer holds nothing, or no flow route and none of its unicast routes changes
    /// a validity as it goes.
    pub fn lose_telling<L: Ledger>(
        &mut self,
        peer: u16,
        changes: &mut Changes,
        steps: &mut Steps<L>,
    )
        ensures removed { self.new ≡ without_peer peer self.old }
        ensures covers { (base : Held) → Covers base changes.old self.old → Covers base changes.new self.new }
        ensures quiet { without_peer_flows peer self.old.flows ≡ self.old.flows
            → StayThroughout peer self.old
            → changes.new ≡ changes.old }
        ensures idle { held_count peer self.old ≡ 0 → changes.new ≡ changes.old }
        ensures later { steps.old ≤ steps.new }
        ensures steps { steps.new ≤ steps.old + related_sum peer self.old.unicast self.old.flows }
    {
        if self.counts.of(peer) == 0 {
            return;
        }
        self.lose_unicast(peer, changes, steps);
        if self.lose_flows(peer) {
            changes.note_all();
        }
    }

    /// Takes the peer's unicast routes away, one after the other: at the prefixes that are listed for it, as long as these
    /// are few.
    fn lose_unicast<L: Ledger>(&mut self, peer: u16, changes: &mut Changes, steps: &mut Steps<L>)
        ensures removed { self.new ≡ record self.old { unicast = without_peer_unicast peer self.old.unicast } }
        ensures covers { (base : Held) → Covers base changes.old self.old → Covers base changes.new self.new }
        ensures quiet { StayThroughout peer self.old → changes.new ≡ changes.old }
        ensures later { steps.old ≤ steps.new }
        ensures steps { steps.new ≤ steps.old + related_sum peer self.old.unicast self.old.flows }
    {
        match self.counts.take_prefixes(peer) {
            Some(prefixes) => self.lose_along(peer, &prefixes, changes, steps),
            None => self.lose_each(peer, changes, steps),
        }
    }

    /// Takes the peer's unicast routes away, each of which stands at one of these prefixes.
    fn lose_along<L: Ledger>(
        &mut self,
        peer: u16,
        prefixes: &[PrefixKey],
        changes: &mut Changes,
        steps: &mut Steps<L>,
    )
        requires among { AreAmong peer prefixes.now self.old.unicast }
        requires ordered { IsStrictlySortedBy place_cmp (keys_of self.old.unicast) }
        ensures removed { self.new ≡ record self.old { unicast = without_peer_unicast peer self.old.unicast } }
        ensures covers { (base : Held) → Covers base changes.old self.old → Covers base changes.new self.new }
        ensures quiet { StayThroughout peer self.old → changes.new ≡ changes.old }
        ensures later { steps.old ≤ steps.new }
        ensures steps { steps.new ≤ steps.old + related_sum peer self.old.unicast self.old.flows }
    {
        for key in prefixes {
            self.withdraw_unicast_telling(peer, &key.prefix(), changes, steps);
        }
    }

    /// Takes the peer's unicast routes away, wherever they stand, in their order.
    fn lose_each<L: Ledger>(&mut self, peer: u16, changes: &mut Changes, steps: &mut Steps<L>)
        ensures removed { self.new ≡ record self.old { unicast = without_peer_unicast peer self.old.unicast } }
        ensures covers { (base : Held) → Covers base changes.old self.old → Covers base changes.new self.new }
        ensures quiet { StayThroughout peer self.old → changes.new ≡ changes.old }
        ensures later { steps.old ≤ steps.new }
        ensures steps { steps.new ≤ steps.old + related_sum peer self.old.unicast self.old.flows }
    {
        let mut from = None;
        while let Some(prefix) = self.next_held(peer, from) {
            self.withdraw_unicast_telling(peer, &prefix, changes, steps);
            from = Some(prefix);
        }
    }

    /// Takes the flow routes of a peer without unicast routes away, and tells whether there was one.
    fn lose_flows(&mut self, peer: u16) -> bool
        requires { without_peer_unicast peer self.old.unicast ≡ self.old.unicast }
        ensures removed { self.new ≡ record self.old { flows = without_peer_flows peer self.old.flows } }
        ensures told { (result ≡ false) ↔ (self.new ≡ self.old) }
    {
        self.counts.clear_prefixes(peer);
        if self.counts.of(peer) == 0 {
            return false;
        }
        self.flows.forget(peer);
        self.counts.clear(peer);
        true
    }

    /// How many routes the peer holds: unicast routes and flow routes of both families.
    pub fn held_by(&self, peer: u16) -> usize
        ensures { result ≡ held_count peer self.now }
    {
        self.counts.of(peer)
    }

    /// The first prefix from there on, or from the start, at which the peer holds a unicast route.
    fn next_held(&self, peer: u16, from: Option<Prefix>) -> Option<Prefix>
        ensures first { result ≡ held_by self.now.unicast peer from }
        ensures ordered { IsStrictlySortedBy place_cmp (keys_of self.now.unicast) }
    {
        self.unicast.held_by(peer, from.as_ref())
    }

    /// The flow routes of the family, to be read.
    fn lend(&self, family: Family) -> LentGroups<'_>
        ensures { AreTold family self.now result.groups.now.entries result.rest.now }
    {
        self.flows.lend(family)
    }

    /// The admitted rules of the family in order, as the type of the list has them.
    fn list<'t, T: OfKept<'t>>(&'t self, family: Family) -> Result<Vec<T>, Memory>
        ensures list { IfOk result (λ list. map T.shown list.items ≡ map T.shows (admitted family self.now)) }
        ensures admitted { IsAdmitted family self.now (admitted family self.now) }
        ensures rules { AllByRecursion (IsRuleOf family) (admitted family self.now) }
    {
        let lent = self.lend(family);
        let mut list = Vec::new(self.flows.allocator());
        push_admitted(lent.groups, lent.rest, family, &mut list)?;
        Ok(list)
    }

    /// Of the admitted rules of the family those with this destination, or those without one, in order, as the type of
    /// the list has them.
    fn list_to<'t, T: OfKept<'t>>(
        &'t self,
        family: Family,
        destination: Option<Prefix>,
    ) -> Result<Vec<T>, Memory>
        ensures list { IfOk result (λ list. map T.shown list.items
            ≡ map T.shows (filter (λ r. is_to family destination r.rule) (admitted family self.now))) }
        ensures admitted { (f : Family) → IsAdmitted f self.now (admitted f self.now) }
        ensures rules { (f : Family) → AllByRecursion (IsRuleOf f) (admitted f self.now) }
    {
        let lent = self.lend(family);
        let mut list = Vec::new(self.flows.allocator());
        push_admitted_to(lent.groups, lent.rest, family, destination, &mut list)?;
        Ok(list)
    }

    /// The admitted rules of the family in order: each rule that has a valid route, with the most preferred one.
    pub fn admitted(&self, family: Family) -> Result<Vec<LentRule<'_>>, Memory>
        ensures list { IfOk result (λ list. map shown_lent list.items ≡ map listed (admitted family self.now)) }
        ensures admitted { IsAdmitted family self.now (admitted family self.now) }
        ensures rules { AllByRecursion (IsRuleOf family) (admitted family self.now) }
    {
        self.list(family)
    }

    /// As [`admitted`](Table::admitted), but each rule is shared: the list may be kept for as long as one likes, also
    /// while the table changes, and still tells what was admitted when it was made.
    ///
    /// # Errors
    ///
    /// `Memory` where the machine refused memory.
    pub fn shared(&self, family: Family) -> Result<Vec<SharedFlow>, Memory>
        ensures list { IfOk result (λ list. list.items ≡ admitted family self.now) }
        ensures admitted { IsAdmitted family self.now (admitted family self.now) }
        ensures rules { AllByRecursion (IsRuleOf family) (admitted family self.now) }
    {
        self.list(family)
    }

    /// Of the admitted rules of the family those with this destination, or those without one, in order.
    ///
    /// # Errors
    ///
    /// `Memory` where the machine refused memory.
    pub fn admitted_to(
        &self,
        family: Family,
        destination: Option<Prefix>,
    ) -> Result<Vec<LentRule<'_>>, Memory>
        ensures list { IfOk result (λ list. map shown_lent list.items
            ≡ map listed (filter (λ r. is_to family destination r.rule) (admitted family self.now))) }
        ensures admitted { (f : Family) → IsAdmitted f self.now (admitted f self.now) }
        ensures rules { (f : Family) → AllByRecursion (IsRuleOf f) (admitted f self.now) }
    {
        self.list_to(family, destination)
    }

    /// As [`admitted_to`](Table::admitted_to), but each rule is shared, as by [`shared`](Table::shared).
    ///
    /// # Errors
    ///
    /// `Memory` where the machine refused memory.
    pub fn shared_to(
        &self,
        family: Family,
        destination: Option<Prefix>,
    ) -> Result<Vec<SharedFlow>, Memory>
        ensures list { IfOk result (λ list.
            list.items ≡ filter (λ r. is_to family destination r.rule) (admitted family self.now)) }
        ensures admitted { (f : Family) → IsAdmitted f self.now (admitted f self.now) }
        ensures rules { (f : Family) → AllByRecursion (IsRuleOf f) (admitted f self.now) }
    {
        self.list_to(family, destination)
    }

    /// All held flow routes of the family with their validity, in the order of rules, then by peer.
    pub fn held(&self, family: Family) -> Result<Vec<HeldFlow<'_>>, Memory>
        ensures list { IfOk result (λ list. map shown_held list.items ≡ held_flows family self.now) }
        ensures ordered { AreRising (held_flows family self.now) }
    {
        let lent = self.lend(family);
        let mut list = Vec::new(self.flows.allocator());
        push_held(lent.groups, lent.rest, &mut list)?;
        Ok(list)
    }

    /// How many rules of the family are admitted.
    pub fn count(&self, family: Family) -> usize
        ensures count { result ≡ length (admitted family self.now) }
        ensures admitted { IsAdmitted family self.now (admitted family self.now) }
    {
        let lent = self.lend(family);
        reading::count(lent.groups, lent.rest, family)
    }

    /// The admitted rule of that number, from 0, in the family's order. None exactly from `count` on.
    pub fn rule(&self, family: Family, n: usize) -> Option<Admitted<'_>>
        ensures rule { option_map shown_admitted result ≡ option_map listed (slice_get (admitted family self.now) n) }
        ensures admitted { IsAdmitted family self.now (admitted family self.now) }
    {
        let lent = self.lend(family);
        reading::admitted_at(lent.groups, lent.rest, family, n)
    }

    /// The held flow route of that number, from 0, in the order of rules, then by peer.
    pub fn held_flow(&self, family: Family, n: usize) -> Option<HeldFlow<'_>>
        ensures held { option_map shown_held result ≡ slice_get (held_flows family self.now) n }
        ensures ordered { AreRising (held_flows family self.now) }
    {
        let lent = self.lend(family);
        reading::held_at(lent.groups, lent.rest, n)
    }

    /// The least number from `n` on of an admitted rule of the packet's family that matches it.
    pub fn walk(&self, view: &View<'_>, n: usize) -> Option<usize>
        ensures { result ≡ next_match view.now n (admitted view.now.family self.now) }
    {
        let family = view.family();
        let lent = self.lend(family);
        reading::next_match(lent.groups, lent.rest, family, view, n)
    }
}
