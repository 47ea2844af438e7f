//! Flow routes with their validities, in the order of rules and then by peer: a block of a group.

ghost use Rattle.std.specs.{Prelude.{◌≡◌, ◌≤◌, ◌<◌, ◌==◌, not, OnOk, OnErr, IfOk, map, filter, length, slice_get, [], take, drop, ◌↔◌, false}, List.{list_any}};
ghost use Rattle.fs_flows.specs.{Shared.{flow_of}, Table.{is_key, key_cmp}, Blocks.{AllBefore, begins_by}};
ghost use Rattle.fs_flows.specs.Group.{put_kept, place_in, rejudged, has_key, has_key_at, AreSorted, IsJudged, AreJudged, routes_of, is_other_key};
ghost use Rattle.fs_flows.specs.Group.{is_of_other};

use crate::kept::Kept;
use crate::route::{SharedRoute, judged};
use fs_base::{Config, Memory};
use fs_nlri::Rule;
use fs_order::compare;
use fs_validate::Basis;
use std::alloc::Global;
use std::cmp::Ordering;
use std::marker::Model;

/// How a rule and a peer are ordered to a route's.
pub fn compare_key(rule: &Rule, peer: u16, route: &SharedRoute) -> Ordering
    ensures { result ≡ key_cmp rule.now peer (flow_of route.now) }
{
    compare(rule, &route.rule).then(peer.cmp(&route.peer))
}

/// How many routes stand before the key.
pub fn place_of(kept: &[Kept], rule: &Rule, peer: u16) -> usize
    requires { AreSorted (routes_of kept.now) }
    ensures place { result ≡ place_in rule.now peer kept.now }
    ensures within { result ≤ length kept.now }
{
    kept.partition_point(|k| compare_key(rule, peer, k.route()).is_gt())
}

/// Whether the route at the place, if there is one, has the key.
fn is_at(kept: &[Kept], place: usize, rule: &Rule, peer: u16) -> bool
    ensures { result ≡ has_key_at rule.now peer (slice_get kept.now place) }
{
    match kept.get(place) {
        Some(k) => compare_key(rule, peer, k.route()).is_eq(),
        None => false,
    }
}

/// Keeps the route in its place, instead of one of its key, and tells whether there was none. Where memory is refused
/// nothing changes.
fn put(kept: &mut Vec<Kept>, k: Kept) -> Result<bool, Memory>
    requires { AreSorted (routes_of kept.old.items) }
    ensures ok { OnOk result (kept.new.items ≡ put_kept k kept.old.items) }
    ensures fresh { IfOk result (λ is_new. is_new ≡ not (has_key k.route.rule k.route.peer kept.old.items)) }
    ensures err { OnErr result (kept.new.items ≡ kept.old.items) }
{
    let route = k.route();
    let place = place_of(kept, &route.rule, route.peer);
    if is_at(kept, place, &route.rule, route.peer) {
        kept[place] = k;
        return Ok(false);
    }
    kept.insert(place, k)?;
    Ok(true)
}

/// Makes room for the first route alone: most groups hold one.
fn make_room(kept: &mut Vec<Kept>) -> Result<(), Memory>
    ensures { kept.new.items ≡ kept.old.items }
{
    if kept.is_empty() {
        kept.reserve_exact(1)?;
    }
    Ok(())
}

/// Takes the route of the key away, and tells whether there was one.
fn take(kept: &mut Vec<Kept>, rule: &Rule, peer: u16) -> bool
    requires { AreSorted (routes_of kept.old.items) }
    ensures taken { kept.new.items ≡ filter (is_other_key rule.now peer) kept.old.items }
    ensures held { result ≡ list_any (λ k. is_key rule.now peer k.route) kept.old.items }
{
    let place = place_of(kept, rule, peer);
    if !is_at(kept, place, rule, peer) {
        return false;
    }
    kept.remove(place);
    true
}

/// Takes away what the peer gave.
fn forget(kept: &mut Vec<Kept>, peer: u16)
    ensures { kept.new.items ≡ filter (is_of_other peer) kept.old.items }
{
    kept.retain(|k| k.peer() != peer);
}

/// Validates a route anew whose destination has this basis, and tells whether its validity is another than before.
fn retest(k: &mut Kept, config: &Config, basis: &Basis<'_>) -> bool
    ensures retested { k.new ≡ rejudged config.now basis.now k.old }
    ensures told { (result ≡ false)
        ↔ IsJudged config.now basis.now k.old }
{
    let before = k.validity();
    let after = judged(config, k.route(), basis);
    k.judge(after);
    after != before
}

/// Validates each route anew, whose destination has this basis, and tells whether a validity is another than before.
fn retest_each(kept: &mut [Kept], config: &Config, basis: &Basis<'_>) -> bool
    ensures retested { kept.new
        ≡ map (rejudged config.now basis.now) kept.old }
    ensures told { (result ≡ false)
        ↔ AreJudged config.now basis.now kept.old }
{
    let mut changed = false;
    for k in kept.iter_mut() {
        changed |= retest(k, config, basis);
    }
    changed
}

/// A place near the middle at which the routes of another rule begin than stand before it. 0 where there is none.
fn border(kept: &[Kept]) -> usize
    requires { AreSorted (routes_of kept.now) }
    ensures inside { 0 < result → result < length kept.now }
    ensures apart { AllBefore (take result kept.now) (drop result kept.now) }
{
    match kept.get(kept.len() / 2) {
        Some(k) => place_of(kept, &k.route().rule, 0),
        None => 0,
    }
}

/// Some of the routes of one destination, or of those without one, in the order of rules and then by peer. The
/// routes of a rule stand in one block.
#[derive(Drop)]
pub struct Block {
    items: Vec<Kept>,
}

impl Model for Block {
    ghost use Rattle.std.specs.Prelude.{List};
    ghost use Rattle.fs_flows.specs.Kept.{Kept};

    ghost Value = { List Kept };

    ghost view = { λ a. a.items.items };
}

impl Block {
    pub(crate) fn new(alloc: Global) -> Block
        ensures { result ≡ [] }
    {
        Block {
            items: Vec::new(alloc),
        }
    }

    pub(crate) fn allocator(&self) -> Global {
        *self.items.allocator()
    }

    /// The routes.
    pub fn as_slice(&self) -> &[Kept]
        ensures { result.now ≡ self.now }
    {
        self.items.as_slice()
    }

    /// How many routes there are.
    pub fn len(&self) -> usize
        ensures { result ≡ length self.now }
    {
        self.items.len()
    }

    pub(crate) fn is_empty(&self) -> bool
        ensures { result ≡ (length self.now == 0) }
    {
        self.items.is_empty()
    }

    /// Whether the block begins with the rule or with an earlier one.
    pub(crate) fn begins_by(&self, rule: &Rule) -> bool
        ensures { result ≡ begins_by rule.now self.now }
    {
        match self.items.first() {
            Some(k) => compare(rule, &k.route().rule).is_ge(),
            None => false,
        }
    }

    /// Keeps the route in its place, instead of one of its key, and tells whether there was none. Where memory is
    /// refused nothing changes.
    pub(crate) fn put(&mut self, k: Kept) -> Result<bool, Memory>
        requires { AreSorted (routes_of self.old) }
        ensures ok { OnOk result (self.new ≡ put_kept k self.old) }
        ensures fresh { IfOk result (λ is_new. is_new ≡ not (has_key k.route.rule k.route.peer self.old)) }
        ensures err { OnErr result (self.new ≡ self.old) }
    {
        make_room(&mut self.items)?;
        put(&mut self.items, k)
    }

    /// Takes the route of the key away, and tells whether there was one.
    pub(crate) fn take(&mut self, rule: &Rule, peer: u16) -> bool
        requires { AreSorted (routes_of self.old) }
        ensures taken { self.new ≡ filter (is_other_key rule.now peer) self.old }
        ensures held { result ≡ list_any (λ k. is_key rule.now peer k.route) self.old }
    {
        take(&mut self.items, rule, peer)
    }

    /// Takes away what the peer gave.
    pub(crate) fn forget(&mut self, peer: u16)
        ensures { self.new ≡ filter (is_of_other peer) self.old }
    {
        forget(&mut self.items, peer);
    }

    /// Validates each route anew, all to the destination of this basis, and tells whether a validity is another than
    /// before.
    pub(crate) fn retest(&mut self, config: &Config, basis: &Basis<'_>) -> bool
        ensures retested { self.new
            ≡ map (rejudged config.now basis.now) self.old }
        ensures told { (result ≡ false)
            ↔ AreJudged config.now basis.now self.old }
    {
        retest_each(&mut self.items, config, basis)
    }

    /// Where the block can be cut in two between its rules: a place near the middle, or 0 where there is none.
    pub(crate) fn border(&self) -> usize
        requires { AreSorted (routes_of self.now) }
        ensures inside { 0 < result → result < length self.now }
        ensures apart { AllBefore (take result self.now) (drop result self.now) }
    {
        border(&self.items)
    }

    /// Cuts the block in two: the routes from the place on are those of a block of their own. Where memory is refused
    /// nothing changes.
    pub(crate) fn split_off(&mut self, place: usize) -> Result<Block, Memory>
        requires { place ≤ length self.old }
        ensures front { OnOk result (self.new ≡ take place self.old) }
        ensures back { IfOk result (λ back. back ≡ drop place self.old) }
        ensures err { OnErr result (self.new ≡ self.old) }
    {
        let items = self.items.split_off(place)?;
        Ok(Block { items })
    }
}
