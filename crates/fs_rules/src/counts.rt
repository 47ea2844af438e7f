//! How many routes each peer holds, and where it gave unicast routes.

ghost use Rattle.std.specs.Prelude.{◌+◌, ◌<◌, ◌^◌, OnOk};

use fs_base::{Memory, Prefix};
use fs_flows::Prefixes;
use fs_unicast::PrefixKey;
use std::alloc::Global;
use std::collections::BTreeMap;
use std::marker::Model;

/// How many routes a peer holds, and the prefixes at which it gave unicast routes.
#[derive(Drop)]
struct Holding {
    count: usize,
    prefixes: Prefixes,
}

impl Model for Holding {
    ghost use Rattle.fs_rules.specs.Counts.{Holding};

    ghost Value = { Holding };

    ghost view = { λ a. record { count = a.count; prefixes = a.prefixes } };
}

/// What each peer holds, by its number. A peer that isn't listed holds none.
#[derive(Drop)]
pub(crate) struct Counts {
    alloc: Global,
    by_peer: BTreeMap<u16, Holding>,
}

impl Model for Counts {
    ghost use Rattle.fs_rules.specs.Counts.{Counts};

    ghost Value = { Counts };

    ghost view = { λ a. a.by_peer.entries };
}

/// Whether a count can rise; if not, it answers `Memory`.
fn can_rise(count: usize) -> Result<(), Memory>
    ensures { OnOk result (count + 1 < 2 ^ 64) }
{
    if count == usize::MAX {
        return Err(Memory);
    }
    Ok(())
}

impl Counts {
    ghost use Rattle.std.specs.Prelude.{◌≡◌, ℕ, ◌+◌, ◌-◌, ◌==◌, ◌&&◌, true, false, [], OnOk, IfSome, if◌then◌else◌};
    ghost use Rattle.fs_base.specs.declared.prefix.Prefix.{Prefix};
    ghost use Rattle.fs_flows.specs.Destinations.{is_among};
    ghost use Rattle.fs_rules.specs.Counts.{count_of, may_hold, HasRoom, StaysHeld};

    /// No peer holds a route.
    pub(crate) fn new(alloc: Global) -> Counts
        ensures { result ≡ [] }
    {
        Counts {
            alloc,
            by_peer: BTreeMap::new(alloc),
        }
    }

    /// How many routes the peer holds.
    pub(crate) fn of(&self, peer: u16) -> usize
        ensures { result ≡ count_of peer self.now }
    {
        match self.by_peer.get(&peer) {
            Some(held) => held.count,
            None => 0,
        }
    }

    /// Makes room for one more route of the peer. The counts stay. Beside refused memory, a count that can't rise is
    /// answered `Memory`.
    pub(crate) fn reserve(&mut self, peer: u16) -> Result<(), Memory>
        ensures same { (other : ℕ) → count_of other self.new ≡ count_of other self.old }
        ensures stays { StaysHeld self.old self.new }
        ensures room { OnOk result (HasRoom peer self.new) }
    {
        match self.by_peer.get(&peer) {
            Some(held) => can_rise(held.count),
            None => {
                let held = Holding {
                    count: 0,
                    prefixes: Prefixes::new(self.alloc),
                };
                self.by_peer.insert(peer, held)?;
                Ok(())
            }
        }
    }

    /// Counts one more route of the peer, where it is a new one.
    pub(crate) fn raise(&mut self, peer: u16, is_new: bool)
        requires { HasRoom peer self.old }
        ensures counted { (other : ℕ) → count_of other self.new
            ≡ count_of other self.old + (if is_new && (peer == other) then 1 else 0) }
        ensures stays { StaysHeld self.old self.new }
    {
        if !is_new {
            return;
        }
        if let Some(held) = self.by_peer.get_mut(&peer) {
            held.count += 1;
        }
    }

    /// Counts one more unicast route of the peer, where it is a new one, and lists its prefix.
    pub(crate) fn raise_at(&mut self, peer: u16, prefix: &Prefix, is_new: bool)
        requires { HasRoom peer self.old }
        ensures counted { (other : ℕ) → count_of other self.new
            ≡ count_of other self.old + (if is_new && (peer == other) then 1 else 0) }
        ensures listed { is_new ≡ true → may_hold self.new peer prefix.now ≡ true }
        ensures stays { StaysHeld self.old self.new }
    {
        if !is_new {
            return;
        }
        if let Some(held) = self.by_peer.get_mut(&peer) {
            held.count += 1;
            held.prefixes.note_at(prefix);
        }
    }

    /// Counts one route of the peer less, where one is gone.
    pub(crate) fn lower(&mut self, peer: u16, is_gone: bool)
        ensures counted { (other : ℕ) → count_of other self.new
            ≡ count_of other self.old - (if is_gone && (peer == other) then 1 else 0) }
        ensures stays { StaysHeld self.old self.new }
    {
        if !is_gone {
            return;
        }
        if let Some(held) = self.by_peer.get_mut(&peer) {
            held.count = held.count.saturating_sub(1);
        }
    }

    /// Hands out the prefixes at which the peer gave unicast routes; from now on any may be one. None where any may be
    /// one already.
    pub(crate) fn take_prefixes(&mut self, peer: u16) -> Option<Vec<PrefixKey>>
        ensures same { (other : ℕ) → count_of other self.new ≡ count_of other self.old }
        ensures stays { StaysHeld self.old self.new }
        ensures taken { IfSome result
            (λ keys. (p : Prefix) → may_hold self.old peer p ≡ true → is_among keys.items p ≡ true) }
    {
        let alloc = self.alloc;
        match self.by_peer.get_mut(&peer) {
            Some(held) => held.prefixes.take(alloc),
            None => Some(Vec::new(alloc)),
        }
    }

    /// The peer holds no unicast route any more: none of its prefixes is listed.
    pub(crate) fn clear_prefixes(&mut self, peer: u16)
        ensures same { (other : ℕ) → count_of other self.new ≡ count_of other self.old }
        ensures stays { (other : ℕ) (p : Prefix)
            → (other == peer) ≡ false
            → may_hold self.old other p ≡ true
            → may_hold self.new other p ≡ true }
    {
        let alloc = self.alloc;
        if let Some(held) = self.by_peer.get_mut(&peer) {
            held.prefixes = Prefixes::new(alloc);
        }
    }

    /// The peer holds no route any more.
    pub(crate) fn clear(&mut self, peer: u16)
        ensures counted { (other : ℕ) → count_of other self.new ≡ (if peer == other then 0 else count_of other self.old) }
        ensures stays { StaysHeld self.old self.new }
    {
        if let Some(held) = self.by_peer.get_mut(&peer) {
            held.count = 0;
        }
    }
}
