//! The routes in the order of their places, and the turns among them.

ghost use Rattle.std.specs.Prelude.{◌≡◌, ◌↔◌, [], Some, None, IfOk, IfSome, OnOk, OnErr, ◌&&◌};
ghost use Rattle.std.specs.{BTreeMap.{insert_entry, is_at}, List.{list_any, Sorted.{IsStrictlySortedBy}}, Map.{remove_entry, lookup, keys_of}};
ghost use Rattle.fs_unicast.specs.{Search.{is_other}, Unicast.{IsSwap, place_cmp, swap_at}, Turns.{is_within, IsParted}};

use crate::beside::{Beside, Paths, first_from, is_alike, stands_at};
use crate::shared::{SharedPath, has_path, share_beside};
use crate::turns::Turns;
use crate::unicast::Place;
use fs_base::Memory;
use std::alloc::Global;
use std::marker::Model;

/// The routes by their places, and the turns that part those of other neighbouring ASes. Routes beside one another share
/// an equal path.
#[derive(Drop)]
pub(crate) struct Routes {
    alloc: Global,
    paths: Paths,
    turns: Turns,
}

impl Model for Routes {
    ghost use Rattle.std.specs.Prelude.{List};
    ghost use Rattle.fs_base.specs.declared.path.Path.{Path};
    ghost use Rattle.fs_unicast.specs.{declared.unicast.Place.{Place}, Turns.{AreKept}};

    ghost Value = { List (Place × Path) };

    ghost view = { λ a. a.paths.entries };

    ghost invariant = { λ a. AreKept a.turns.places.keys a.paths.entries };
}

impl Routes {
    /// No routes. Takes no memory.
    pub(crate) fn new(alloc: Global) -> Routes
        ensures { result ≡ [] }
    {
        Routes {
            alloc,
            paths: Paths::new(alloc),
            turns: Turns::new(alloc),
        }
    }

    pub(crate) fn allocator(&self) -> Global {
        self.alloc
    }

    /// The routes alone, for look-ups.
    pub(crate) fn paths(&self) -> &Paths
        ensures { result.now.entries ≡ self.now }
    {
        &self.paths
    }

    /// Keeps the path at the place, instead of one that is there, and tells what was there, if that changes anything: not
    /// where this very path is there. Where memory is refused nothing changes.
    pub(crate) fn put(
        &mut self,
        place: Place,
        path: SharedPath,
    ) -> Result<Option<Option<SharedPath>>, Memory>
        ensures ok { OnOk result (self.new ≡ insert_entry place_cmp self.old place path) }
        ensures told { IfOk result (λ told. (told ≡ None) ↔ self.new ≡ self.old) }
        ensures swap { IfOk result (λ told. IfSome told (λ old. IsSwap (swap_at place old) self.old self.new)) }
        ensures err { OnErr result (self.new ≡ self.old) }
    {
        match keep(&mut self.paths, &mut self.turns, place, path) {
            Ok(told) => Ok(told),
            Err(refused) => {
                self.turns.tidy(&self.paths, &place);
                Err(refused)
            }
        }
    }

    /// Takes the route at the place away, if there is one, and gives its path.
    pub(crate) fn remove(&mut self, place: &Place) -> Option<SharedPath>
        ensures removed { self.new ≡ remove_entry (is_at (place_cmp place.now)) self.old }
        ensures held { result ≡ lookup (is_at (place_cmp place.now)) self.old }
        ensures swap { IfSome result (λ path. IsSwap (swap_at place.now (Some path)) self.old self.new) }
    {
        let gone = self.paths.remove(place)?;
        self.turns.close_gap(&self.paths, place, &gone);
        Some(gone)
    }

    /// Whether a route from `low` on and before `high` has another neighbouring AS than `asn`; of None, whether
    /// there is any route.
    pub(crate) fn others_within(
        &self,
        low: Place,
        high: &Place,
        local_as: u32,
        asn: Option<u32>,
    ) -> bool
        ensures { result ≡ list_any (λ r. is_within low high.now r.0 && is_other local_as asn r.1) self.now }
    {
        self.turns
            .others_within(&self.paths, low, high, local_as, asn)
    }
}

/// Keeps the path at the place, with turns beside it, and tells what was there, if that changes anything. Turns that were
/// put before memory is refused stay.
fn keep(
    paths: &mut Paths,
    turns: &mut Turns,
    place: Place,
    path: SharedPath,
) -> Result<Option<Option<SharedPath>>, Memory>
    requires { IsParted turns.old.places.keys paths.old.entries }
    ensures ok { OnOk result (paths.new.entries ≡ insert_entry place_cmp paths.old.entries place path) }
    ensures told { IfOk result (λ told. (told ≡ None) ↔ paths.new.entries ≡ paths.old.entries) }
    ensures swap { IfOk result
        (λ told. IfSome told (λ old. IsSwap (swap_at place old) paths.old.entries paths.new.entries)) }
    ensures err { OnErr result (paths.new.entries ≡ paths.old.entries) }
    ensures parted { IsParted turns.new.places.keys paths.new.entries }
    ensures ordered { IsStrictlySortedBy place_cmp (keys_of paths.new.entries) }
{
    let asn = path.neighbour();
    let next = first_from(paths, &place);
    let taken = stands_at(next, &place);
    if taken && has_path(next, &path) {
        return Ok(None);
    }
    if taken && is_alike(next, asn) {
        let old = paths.insert(place, path)?;
        return Ok(Some(old));
    }
    let beside = Beside::of(paths, place, next);
    let shared = share_beside(path, beside.before, beside.after)?;
    let idle = turns.part(&beside, asn)?;
    let old = paths.insert(place, shared)?;
    if idle {
        turns.tidy(paths, &place);
    }
    Ok(Some(old))
}
