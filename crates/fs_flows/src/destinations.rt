//! At which prefixes each peer gave routes, as long as these are few.

ghost use Rattle.std.specs.Prelude.{◌≡◌};
ghost use Rattle.fs_flows.specs.Destinations.{is_among};

use crate::kept::Kept;
use fs_base::Prefix;
use fs_unicast::PrefixKey;
use std::alloc::Global;
use std::collections::BTreeMap;
use std::marker::Model;
use std::mem::replace;

/// More prefixes of a peer than this aren't listed.
const MOST: usize = 64;

/// The prefixes at which one peer gave routes, or that any may be one. What is gone may still be listed.
#[derive(Drop)]
pub struct Prefixes {
    keys: Vec<PrefixKey>,
    all: bool,
}

impl Model for Prefixes {
    ghost use Rattle.fs_flows.specs.Destinations.{Prefixes};

    ghost Value = { Prefixes };

    ghost view = { λ a. record { keys = a.keys.items; all = a.all } };
}

impl Prefixes {
    ghost use Rattle.std.specs.Prelude.{◌≡◌, true, false, [], IfSome};
    ghost use Rattle.fs_base.specs.declared.prefix.Prefix.{Prefix};
    ghost use Rattle.fs_flows.specs.Destinations.{is_among, has, HasDestination};

    /// No prefix.
    pub fn new(alloc: Global) -> Prefixes
        ensures { result ≡ record { keys = []; all = false } }
    {
        Prefixes {
            keys: Vec::new(alloc),
            all: false,
        }
    }

    /// Whether the prefix is listed, or any may be one.
    fn has(&self, prefix: &PrefixKey) -> bool
        ensures { result ≡ has self.now prefix.now }
    {
        self.all || is_among(&self.keys, prefix)
    }

    /// Lists the destination of the route, if it has one.
    fn note(&mut self, k: &Kept)
        ensures noted { HasDestination self.new k.now }
        ensures stays { (other : Prefix) → has self.old other ≡ true → has self.new other ≡ true }
    {
        if self.all {
            return;
        }
        if let Some(destination) = k.destination() {
            self.add(destination);
        }
    }

    /// Lists the prefix of a unicast route.
    pub fn note_at(&mut self, prefix: &Prefix)
        ensures noted { has self.new prefix.now ≡ true }
        ensures stays { (other : Prefix) → has self.old other ≡ true → has self.new other ≡ true }
    {
        if !self.all {
            self.add(PrefixKey::of(prefix));
        }
    }

    /// Lists the prefix too. Where there is no room for it, any may be one from now on.
    fn add(&mut self, prefix: PrefixKey)
        ensures added { has self.new prefix ≡ true }
        ensures stays { (other : Prefix) → has self.old other ≡ true → has self.new other ≡ true }
    {
        if self.has(&prefix) {
            return;
        }
        if self.keys.len() >= MOST || self.keys.push(prefix).is_err() {
            self.all = true;
        }
    }

    /// Hands out the prefixes; from now on any may be one. None where any may be one already.
    pub fn take(&mut self, alloc: Global) -> Option<Vec<PrefixKey>>
        ensures taken { IfSome result
            (λ keys. (p : Prefix) → has self.old p ≡ true → is_among keys.items p ≡ true) }
        ensures all { self.new.all ≡ true }
    {
        if self.all {
            return None;
        }
        self.all = true;
        Some(replace(&mut self.keys, Vec::new(alloc)))
    }
}

/// Whether the prefix is one of these.
fn is_among(keys: &[PrefixKey], prefix: &PrefixKey) -> bool
    ensures { result ≡ is_among keys.now prefix.now }
{
    keys.iter().any(|key| key.is(prefix))
}

/// The destinations to which each peer gave flow routes.
#[derive(Drop)]
pub(crate) struct Destinations {
    alloc: Global,
    by_peer: BTreeMap<u16, Prefixes>,
    all: bool,
}

impl Model for Destinations {
    ghost use Rattle.fs_flows.specs.Destinations.{Destinations};

    ghost Value = { Destinations };

    ghost view = { λ a. record { by_peer = a.by_peer.entries; all = a.all } };
}

impl Destinations {
    ghost use Rattle.std.specs.Prelude.{◌≡◌, ◌==◌, ℕ, true, false, IfSome};
    ghost use Rattle.fs_base.specs.declared.prefix.Prefix.{Prefix};
    ghost use Rattle.fs_flows.specs.Destinations.{is_among, has, has_in, of_peer, lists, StaysListed, IsListed};

    pub(crate) fn new(alloc: Global) -> Destinations {
        Destinations {
            alloc,
            by_peer: BTreeMap::new(alloc),
            all: false,
        }
    }

    /// Lists the destination of the route for its peer. Where memory is refused any may be one.
    pub(crate) fn note(&mut self, k: &Kept)
        ensures noted { IsListed self.new k.now }
        ensures stays { StaysListed self.old self.new }
    {
        let peer = k.peer();
        if let Some(held) = self.by_peer.get_mut(&peer) {
            held.note(k);
            return;
        }
        let mut first = Prefixes::new(self.alloc);
        first.note(k);
        if self.by_peer.insert(peer, first).is_err() {
            self.all = true;
        }
    }

    /// Forgets the destinations of the peer, and hands them out. None where any may be one.
    pub(crate) fn take(&mut self, peer: u16) -> Option<Vec<PrefixKey>>
        ensures taken { IfSome result
            (λ keys. (d : Prefix) → lists self.old peer d ≡ true → is_among keys.items d ≡ true) }
        ensures stays { (other : ℕ) (d : Prefix)
            → (other == peer) ≡ false
            → lists self.old other d ≡ true
            → lists self.new other d ≡ true }
    {
        let held = self.remove(peer);
        if self.all || held.all {
            None
        } else {
            Some(held.keys)
        }
    }

    fn remove(&mut self, peer: u16) -> Prefixes
        ensures held { (d : Prefix) → has_in (of_peer peer self.old) d ≡ has result d }
        ensures all { self.new.all ≡ self.old.all }
        ensures others { (other : ℕ) → (other == peer) ≡ false → of_peer other self.new ≡ of_peer other self.old }
    {
        match self.by_peer.remove(&peer) {
            Some(held) => held,
            None => Prefixes::new(self.alloc),
        }
    }
}
