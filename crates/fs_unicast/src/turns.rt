//! The turns among the routes.

ghost use Rattle.std.specs.Prelude.{◌≡◌, [], true, false, None, OnOk, option_map, find, ◌&&◌};
ghost use Rattle.std.specs.{Ordering.{is_le, is_lt}, BTreeMap.{is_at}, Set.{remove_key}, List.{list_any, Sorted.{IsStrictlySortedBy}}};
ghost use Rattle.std.specs.Map.{keys_of, lookup};
ghost use Rattle.fs_unicast.specs.{Search.{is_other}, Neighbour.{neighbour}, Unicast.{place_cmp}};
ghost use Rattle.fs_unicast.specs.Turns.{AreBeside, IsLastUpto, IsParted, IsPartedAround, IsPartedAt, PartsAt, StaysParted};
ghost use Rattle.fs_unicast.specs.Turns.{entry_now, find_last, is_alike, is_alone, is_inside, is_within, without};

use crate::beside;
use crate::beside::{Beside, Lent, Paths, are_alike, has_neighbour, is_alike, names};
use crate::neighbour::is_other;
use crate::shared::SharedPath;
use crate::unicast::Place;
use fs_base::Memory;
use std::alloc::Global;
use std::collections::BTreeSet;
use std::ops::Bound;

/// Places that part the routes of other neighbouring ASes. The routes stand in the order of their places; between any two
/// whose paths name other neighbouring ASes lies a turn, after the one and up to the other. So no route up to the next
/// turn has another neighbouring AS than the route in front of it has:
///
/// ```text
/// neighbouring AS of each route    A  A  A  A  B  B  A  A
/// turns                                        ^     ^
/// ```
///
/// A search for another neighbouring AS than A looks at the first route and at the one behind the first turn, not at the
/// three in between. Most turns stand at the place of a route. Where that route goes the turn may stay, so that taking a
/// route away takes no memory. A turn without which all routes stay parted is idle; calls take away one that they leave
/// beside their place.
#[derive(Drop)]
pub(crate) struct Turns {
    places: BTreeSet<Place>,
}

impl Turns {
    /// No turns. Takes no memory.
    pub(crate) fn new(alloc: Global) -> Turns
        ensures { result.places.keys ≡ [] }
    {
        Turns {
            places: BTreeSet::new(alloc),
        }
    }

    /// Puts the turns that a route of this neighbouring AS at the place needs: one at the place, and one at the route after
    /// it. Tells whether a turn beside the place may be idle once the route is there, and [`tidy`](Turns::tidy) is to be
    /// called. Where the route replaces one that is always so. Else it is where the routes beside the place were parted
    /// by neither of these turns. The turn that parted them is mostly at the route after; if that one's AS is the same the
    /// turn goes at once.
    pub(crate) fn part(&mut self, beside: &Beside<'_>, asn: Option<u32>) -> Result<bool, Memory>
        requires parted { IsParted self.old.places.keys beside.now.paths.now.entries }
        requires beside { AreBeside beside.now.paths.now.entries beside.now.place beside.now }
        ensures parted { IsParted self.new.places.keys beside.now.paths.now.entries }
        ensures around { OnOk result
            (IsPartedAround self.new.places.keys beside.now.paths.now.entries beside.now.place asn) }
    {
        let there = self.part_both(beside, asn)?;
        if beside.is_taken() {
            return Ok(true);
        }
        if there || are_alike(beside.before, beside.after) {
            return Ok(false);
        }
        match beside.next {
            Some((turn, path)) if has_neighbour(path, asn) && !is_alike(beside.before, asn) => {
                Ok(!self.places.remove(turn))
            }
            _ => Ok(true),
        }
    }

    /// Puts the turns that a route of this neighbouring AS at the place needs, and tells whether one of them was there.
    fn part_both(&mut self, beside: &Beside<'_>, asn: Option<u32>) -> Result<bool, Memory>
        requires parted { IsParted self.old.places.keys beside.now.paths.now.entries }
        requires beside { AreBeside beside.now.paths.now.entries beside.now.place beside.now }
        ensures parted { IsParted self.new.places.keys beside.now.paths.now.entries }
        ensures around { OnOk result
            (IsPartedAround self.new.places.keys beside.now.paths.now.entries beside.now.place asn) }
        ensures here { OnOk result
            (is_alike asn (option_map entry_now beside.now.before) ≡ false
            → PartsAt self.new.places.keys beside.now.place) }
    {
        let here = self.part_before(beside.before, beside.place, asn)?;
        let behind = self.part_after(beside.after, asn)?;
        Ok(here | behind)
    }

    /// Puts a turn at the place where the route before it has another neighbouring AS than this, and tells whether it was
    /// there.
    fn part_before(
        &mut self,
        before: Option<Lent<'_>>,
        place: Place,
        asn: Option<u32>,
    ) -> Result<bool, Memory>
        ensures ok { OnOk result
            (is_alike asn (option_map entry_now before.entry) ≡ false → PartsAt self.new.places.keys place) }
        ensures stays { StaysParted self.old.places.keys self.new.places.keys }
    {
        if is_alike(before, asn) {
            Ok(false)
        } else {
            self.put(place)
        }
    }

    /// Puts a turn at the route after a place where it has another neighbouring AS than this, and tells whether it was
    /// there.
    fn part_after(&mut self, after: Option<Lent<'_>>, asn: Option<u32>) -> Result<bool, Memory>
        ensures ok { OnOk result (IsPartedAt self.new.places.keys asn (option_map entry_now after.entry)) }
        ensures stays { StaysParted self.old.places.keys self.new.places.keys }
    {
        match after {
            Some((turn, path)) if !has_neighbour(path, asn) => self.put(*turn),
            _ => Ok(false),
        }
    }

    /// Puts a turn at the place, and tells whether it was there.
    fn put(&mut self, turn: Place) -> Result<bool, Memory>
        ensures ok { OnOk result (PartsAt self.new.places.keys turn) }
        ensures stays { StaysParted self.old.places.keys self.new.places.keys }
    {
        let is_new = self.places.insert(turn)?;
        Ok(!is_new)
    }

    /// Whether a route from `low` on and before `high` has another neighbouring AS than `asn`; of None, whether there
    /// is any route. After a route that has no other one the search goes on at the first turn behind it.
    pub(crate) fn others_within(
        &self,
        paths: &Paths,
        low: Place,
        high: &Place,
        local_as: u32,
        asn: Option<u32>,
    ) -> bool
        requires { IsParted self.now.places.keys paths.now.entries }
        ensures { result ≡ list_any (λ r. is_within low high.now r.0 && is_other local_as asn r.1) paths.now.entries }
    {
        let mut from = low;
        while let Some((place, path)) = beside::first_within(paths, &from, high) {
            if is_other(path.path(), local_as, asn) {
                return true;
            }
            match self.first_inside(place, high) {
                Some(turn) => from = turn,
                None => return false,
            }
        }
        false
    }

    /// Takes the turns away that are idle without the route that stood at the place. Where a route beside the place names
    /// the same neighbouring AS none is. Else a turn lies on each side where a route is: one of them is enough to part
    /// the routes beside the place, and where these are alike or one is missing none is wanted. Takes no memory.
    pub(crate) fn close_gap(&mut self, paths: &Paths, place: &Place, gone: &SharedPath)
        requires ordered { IsStrictlySortedBy place_cmp (keys_of paths.now.entries) }
        requires free { lookup (is_at (place_cmp place.now)) paths.now.entries ≡ None }
        requires parted { IsParted self.old.places.keys paths.now.entries }
        requires around { IsPartedAround self.old.places.keys paths.now.entries place.now (neighbour gone.now.segments) }
        ensures { IsParted self.new.places.keys paths.now.entries }
    {
        if self.places.is_empty() {
            return;
        }
        let asn = gone.neighbour();
        let before = beside::last_before(paths, place);
        if names(before, asn) {
            return;
        }
        let after = beside::first_after(paths, place);
        if names(after, asn) {
            return;
        }
        self.take_last(place);
        if are_alike(before, after) {
            self.take_next(place);
        }
    }

    /// Takes the turns beside the place away that are idle: the last one up to it, and then the first one after it. To
    /// be called after a put at the place. Takes no memory.
    pub(crate) fn tidy(&mut self, paths: &Paths, place: &Place)
        requires { IsParted self.old.places.keys paths.now.entries }
        ensures { IsParted self.new.places.keys paths.now.entries }
    {
        let last = self.last_upto(place);
        self.drop_idle(paths, last);
        let next = self.first_after(place);
        self.drop_idle(paths, next);
    }

    /// Takes the turn away if it is idle.
    fn drop_idle(&mut self, paths: &Paths, turn: Option<Place>)
        requires { IsParted self.old.places.keys paths.now.entries }
        ensures { IsParted self.new.places.keys paths.now.entries }
    {
        let Some(turn) = turn else {
            return;
        };
        if !self.is_needed(paths, &turn) {
            self.places.remove(&turn);
        }
    }

    /// Whether two routes of other neighbouring AS are parted by this turn alone: if any are, the routes beside it are. If
    /// not, all stay parted without it.
    fn is_needed(&self, paths: &Paths, turn: &Place) -> bool
        requires { IsParted self.now.places.keys paths.now.entries }
        ensures { result ≡ false
            → IsParted (remove_key (is_at (place_cmp turn.now)) self.now.places.keys) paths.now.entries }
    {
        let Some((before, path)) = beside::last_before(paths, turn) else {
            return false;
        };
        let Some((after, next)) = beside::first_from(paths, turn) else {
            return false;
        };
        !has_neighbour(path, next.neighbour()) && self.is_alone(before, after, turn)
    }

    /// Whether no other turn lies after `before` and up to `after`.
    fn is_alone(&self, before: &Place, after: &Place, turn: &Place) -> bool
        requires { is_lt (place_cmp before.now after.now) ≡ true }
        ensures { result ≡ is_alone self.now.places.keys before.now after.now turn.now }
    {
        for other in self
            .places
            .range((Bound::Excluded(*before), Bound::Included(*after)))
        {
            if !turn.cmp(other).is_eq() {
                return false;
            }
        }
        true
    }

    /// Takes the last turn up to the place away, which mostly stands at the place itself.
    fn take_last(&mut self, place: &Place) -> Option<Place>
        ensures last { IsLastUpto self.old.places.keys place.now result }
        ensures taken { self.new.places.keys ≡ without self.old.places.keys result }
    {
        if self.places.remove(place) {
            return Some(*place);
        }
        let turn = self.last_upto(place)?;
        self.places.remove(&turn);
        Some(turn)
    }

    /// Takes the first turn after the place away.
    fn take_next(&mut self, place: &Place) -> Option<Place>
        ensures found { result ≡ find (λ t. is_lt (place_cmp place.now t)) self.old.places.keys }
        ensures taken { self.new.places.keys ≡ without self.old.places.keys result }
        ensures ordered { IsStrictlySortedBy place_cmp self.old.places.keys }
    {
        let turn = self.first_after(place)?;
        self.places.remove(&turn);
        Some(turn)
    }

    /// The last turn up to the place.
    fn last_upto(&self, place: &Place) -> Option<Place>
        ensures found { result ≡ find_last (λ t. is_le (place_cmp t place.now)) self.now.places.keys }
        ensures ordered { IsStrictlySortedBy place_cmp self.now.places.keys }
    {
        self.places.range(..=*place).next_back().copied()
    }

    /// The first turn after the place.
    fn first_after(&self, place: &Place) -> Option<Place>
        ensures found { result ≡ find (λ t. is_lt (place_cmp place.now t)) self.now.places.keys }
        ensures ordered { IsStrictlySortedBy place_cmp self.now.places.keys }
    {
        self.places
            .range((Bound::Excluded(*place), Bound::Unbounded))
            .next()
            .copied()
    }

    /// The first turn after `place` and before `high`.
    fn first_inside(&self, place: &Place, high: &Place) -> Option<Place>
        ensures found { result ≡ find (is_inside place.now high.now) self.now.places.keys }
        ensures ordered { IsStrictlySortedBy place_cmp self.now.places.keys }
    {
        let turn = self.first_after(place)?;
        if turn.cmp(high).is_lt() {
            Some(turn)
        } else {
            None
        }
    }
}
