//! The table of unicast routes.

ghost use Rattle.std.specs.Prelude.{◌≡◌, ◌↔◌, [], None, List, IfOk, IfSome, OnOk, OnErr, is_some, option_map, length, ◌+◌};
ghost use Rattle.std.specs.{List.Sorted.{IsStrictlySortedBy}, Map.{keys_of}, Option.{option_copied}};
ghost use Rattle.fs_unicast.specs.Unicast.{Route, IsSwap, IsSwapOf, place_cmp, put_path, take_path, path_at, has_path};
ghost use Rattle.fs_unicast.specs.Search.{best_at, best_match_of, neighbour_of, others_under, held_by};
ghost use Rattle.fs_unicast.specs.Preference.{peer_path};

use crate::key::PrefixKey;
use crate::preference::Held;
use crate::routes::Routes;
use crate::search;
use crate::shared::SharedPath;
use fs_base::{Memory, Path, Prefix, Steps};
use std::alloc::Global;
use std::marker::Model;
use std::sync::ledger::Ledger;

/// Where a route is kept: by its prefix, then by the number of the peer that gave it.
#[derive(Clone, Copy, PartialEq, Eq, PartialOrd, Ord)]
pub struct Place {
    pub prefix: PrefixKey,
    pub peer: u16,
}

/// A change of one route: of which peer at which prefix, and the path that it had, if it was there.
#[derive(Drop)]
pub struct Swap {
    pub peer: u16,
    pub prefix: Prefix,
    pub old: Option<SharedPath>,
}

/// The unicast routes of both families that peers hold, at most one of a peer at a prefix. Each call that gives a path or
/// a route counts a step for each of them: `path_at`, `best`, `best_match` and `best_and_others` one step, and
/// `best_before_and_now` two. Beside these, the [`Swap`] that `put_telling` and `remove_telling` answer has the path that
/// went, which is looked up for no step.
#[derive(Drop)]
pub struct Unicast {
    routes: Routes,
}

impl Model for Unicast {
    ghost use Rattle.std.specs.Prelude.{List};
    ghost use Rattle.fs_base.specs.declared.path.Path.{Path};
    ghost use Rattle.fs_unicast.specs.{declared.unicast.Place.{Place}, Unicast.{HasSmallPeers}};

    ghost Value = { List (Place × Path) };

    ghost view = { λ a. a.routes };

    ghost invariant = { λ a. HasSmallPeers a.routes };
}

impl Unicast {
    /// A table without routes. Takes no memory.
    pub fn new(alloc: Global) -> Unicast
        ensures { result ≡ [] }
    {
        Unicast {
            routes: Routes::new(alloc),
        }
    }

    /// Keeps the path as the peer's route at the prefix, in place of one that it holds there. Where memory is
    /// refused nothing changes.
    pub fn put(&mut self, peer: u16, prefix: Prefix, path: Path) -> Result<(), Memory>
        ensures ok { OnOk result (self.new ≡ put_path peer prefix path self.old) }
        ensures err { OnErr result (self.new ≡ self.old) }
    {
        let path = SharedPath::new(self.routes.allocator(), path)?;
        self.put_telling(peer, prefix, path)?;
        Ok(())
    }

    /// As [`put`](Unicast::put), and tells what that changes: nothing where the peer holds a route with this very path at
    /// the prefix. Many routes may be given one shared path.
    pub fn put_telling(
        &mut self,
        peer: u16,
        prefix: Prefix,
        path: SharedPath,
    ) -> Result<Option<Swap>, Memory>
        ensures ok { OnOk result (self.new ≡ put_path peer prefix path self.old) }
        ensures told { IfOk result (λ told. (told ≡ None) ↔ self.new ≡ self.old) }
        ensures swap { IfOk result
            (λ told. IfSome told (λ swap. IsSwapOf peer prefix swap self.old self.new)) }
        ensures err { OnErr result (self.new ≡ self.old) }
    {
        let place = Place {
            prefix: PrefixKey::of(&prefix),
            peer,
        };
        let Some(old) = self.routes.put(place, path)? else {
            return Ok(None);
        };
        Ok(Some(Swap { peer, prefix, old }))
    }

    /// Takes the peer's route at the prefix away, and tells whether there was one.
    pub fn remove(&mut self, peer: u16, prefix: &Prefix) -> bool
        ensures removed { self.new ≡ take_path peer prefix.now self.old }
        ensures held { result ≡ has_path peer prefix.now self.old }
    {
        self.remove_telling(peer, prefix).is_some()
    }

    /// As [`remove`](Unicast::remove), and tells what that changes: nothing where there is no route.
    pub fn remove_telling(&mut self, peer: u16, prefix: &Prefix) -> Option<Swap>
        ensures removed { self.new ≡ take_path peer prefix.now self.old }
        ensures held { is_some result ≡ has_path peer prefix.now self.old }
        ensures swap { IfSome result (λ swap. IsSwapOf peer prefix.now swap self.old self.new) }
    {
        let place = Place {
            prefix: PrefixKey::of(prefix),
            peer,
        };
        let gone = self.routes.remove(&place)?;
        Some(Swap {
            peer,
            prefix: *prefix,
            old: Some(gone),
        })
    }

    /// How many routes there are. They are in the order of their places.
    pub fn len(&self) -> usize
        ensures len { result ≡ length self.now }
        ensures ordered { IsStrictlySortedBy place_cmp (keys_of self.now) }
    {
        self.routes.paths().len()
    }

    /// The path of the peer's route at the prefix, if it holds one. One step.
    pub fn path_at<'a, L: Ledger>(
        &'a self,
        peer: u16,
        prefix: &Prefix,
        steps: &mut Steps<L>,
    ) -> Option<&'a Path>
        ensures path { option_copied result ≡ path_at peer prefix.now self.now }
        ensures step { steps.new ≡ steps.old + 1 }
    {
        steps.take(); // at one place
        search::path_at(self.routes.paths(), peer, prefix)
    }

    /// The most preferred route at the swap's prefix before the swap, after which these are the routes, and now. Two steps.
    pub fn best_before_and_now<'a, L: Ledger>(
        &'a self,
        swap: &'a Swap,
        steps: &mut Steps<L>,
    ) -> (Option<Held<'a>>, Option<Held<'a>>)
        ensures before { (earlier : List Route) → IsSwap swap.now earlier self.now
            → option_map peer_path result.0 ≡ best_at earlier swap.now.prefix }
        ensures now { option_map peer_path result.1 ≡ best_at self.now swap.now.prefix }
        ensures step { steps.new ≡ steps.old + 2 }
    {
        steps.take(); // before
        steps.take(); // and now
        search::best_before_and_now(self.routes.paths(), swap)
    }

    /// The most preferred route at the prefix. One step.
    pub fn best<L: Ledger>(&self, prefix: &Prefix, steps: &mut Steps<L>) -> Option<Held<'_>>
        ensures best { option_map peer_path result ≡ best_at self.now prefix.now }
        ensures step { steps.new ≡ steps.old + 1 }
    {
        steps.take(); // at one prefix
        search::best_at(self.routes.paths(), prefix)
    }

    /// The most preferred route at the longest prefix that covers this one and has a route. One step.
    pub fn best_match<L: Ledger>(&self, prefix: &Prefix, steps: &mut Steps<L>) -> Option<Held<'_>>
        ensures best { option_map peer_path result ≡ best_match_of self.now prefix.now }
        ensures step { steps.new ≡ steps.old + 1 }
    {
        steps.take(); // up to the longest cover
        search::best_match(self.routes.paths(), prefix)
    }

    /// The most preferred route at the longest prefix that covers this one and has a route, and whether a route of any
    /// peer strictly under the prefix has another neighbouring AS than that one; without it, whether there is any
    /// route. A path with only confederation segments has the neighbouring AS `local_as`. One step.
    pub fn best_and_others<L: Ledger>(
        &self,
        prefix: &Prefix,
        local_as: u32,
        steps: &mut Steps<L>,
    ) -> (Option<Held<'_>>, bool)
        ensures best { option_map peer_path result.0 ≡ best_match_of self.now prefix.now }
        ensures others { result.1 ≡ others_under self.now prefix.now local_as
            (neighbour_of local_as (best_match_of self.now prefix.now)) }
        ensures step { steps.new ≡ steps.old + 1 }
    {
        steps.take(); // for both
        search::best_and_others(&self.routes, prefix, local_as)
    }

    /// The first prefix in order, from `from` on or from the start, at which the peer holds a route. The routes are
    /// in the order of their places.
    pub fn held_by(&self, peer: u16, from: Option<&Prefix>) -> Option<Prefix>
        ensures first { result ≡ held_by self.now peer (option_copied from.entry) }
        ensures ordered { IsStrictlySortedBy place_cmp (keys_of self.now) }
    {
        search::held_by(self.routes.paths(), peer, from)
    }

    /// Whether a route of any peer strictly under the prefix has another neighbouring AS than `asn`; of None,
    /// whether there is any route. A path with only confederation segments has the neighbouring AS `local_as`.
    pub fn others_under(&self, prefix: &Prefix, local_as: u32, asn: Option<u32>) -> bool
        ensures { result ≡ others_under self.now prefix.now local_as asn }
    {
        search::others_under(&self.routes, prefix, local_as, asn)
    }
}
