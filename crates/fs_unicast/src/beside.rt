//! A place among the routes, and the routes beside it.

ghost use Rattle.std.specs.Prelude.{◌≡◌, option_map, find};
ghost use Rattle.std.specs.{List.{Sorted.{IsStrictlySortedBy}}, Map.{keys_of}};
ghost use Rattle.fs_unicast.specs.{Neighbour.{neighbour}, Unicast.{place_cmp}};
ghost use Rattle.fs_unicast.specs.Turns.{AreBeside, are_alike, entry_now, find_last, is_after, is_alike, is_at_or_after, is_before};
ghost use Rattle.fs_unicast.specs.Turns.{is_same, is_within, names, stands_at};

use crate::shared::SharedPath;
use crate::unicast::Place;
use std::collections::BTreeMap;
use std::ops::Bound;

/// The paths of routes, by their places.
pub(crate) type Paths = BTreeMap<Place, SharedPath>;

/// A route, as they lend it.
pub(crate) type Lent<'a> = (&'a Place, &'a SharedPath);

/// A place among the routes, and the routes beside it.
#[derive(Clone, Copy, Drop)]
pub(crate) struct Beside<'a> {
    pub(crate) paths: &'a Paths,
    pub(crate) place: Place,
    /// The last route before the place.
    pub(crate) before: Option<Lent<'a>>,
    /// The first route from the place on, which may stand at it.
    pub(crate) next: Option<Lent<'a>>,
    /// The first route after the place.
    pub(crate) after: Option<Lent<'a>>,
}

impl<'a> Beside<'a> {
    /// The routes beside the place, of which `next` is known.
    pub(crate) fn of(paths: &'a Paths, place: Place, next: Option<Lent<'a>>) -> Beside<'a>
        requires { option_map entry_now next ≡ find (is_at_or_after place) paths.now.entries }
        ensures { AreBeside paths.now.entries place result }
    {
        Beside {
            paths,
            place,
            before: last_before(paths, &place),
            next,
            after: first_behind(paths, &place, next),
        }
    }

    /// Whether a route stands at the place.
    pub(crate) fn is_taken(&self) -> bool
        ensures { result ≡ stands_at self.now.place (option_map entry_now self.now.next) }
    {
        stands_at(self.next, &self.place)
    }
}

/// Whether the route that is the first from the place on stands at the place itself.
pub(crate) fn stands_at(next: Option<Lent<'_>>, place: &Place) -> bool
    ensures { result ≡ stands_at place.now (option_map entry_now next.entry) }
{
    match next {
        Some((at, _)) => place.cmp(at).is_eq(),
        None => false,
    }
}

/// Whether the path names this neighbouring AS.
pub(crate) fn has_neighbour(path: &SharedPath, asn: Option<u32>) -> bool
    ensures { result ≡ is_same (neighbour path.now.segments) asn }
{
    path.neighbour() == asn
}

/// Whether there is a route whose path names this neighbouring AS.
pub(crate) fn names(route: Option<Lent<'_>>, asn: Option<u32>) -> bool
    ensures { result ≡ names asn (option_map entry_now route.entry) }
{
    match route {
        Some((_, held)) => has_neighbour(held, asn),
        None => false,
    }
}

/// Whether there is no route, or one whose path names this neighbouring AS.
pub(crate) fn is_alike(route: Option<Lent<'_>>, asn: Option<u32>) -> bool
    ensures { result ≡ is_alike asn (option_map entry_now route.entry) }
{
    match route {
        Some((_, held)) => has_neighbour(held, asn),
        None => true,
    }
}

/// Whether the paths of two routes name the same neighbouring AS, or one of the routes isn't there.
pub(crate) fn are_alike(before: Option<Lent<'_>>, after: Option<Lent<'_>>) -> bool
    ensures { result ≡ are_alike (option_map entry_now before.entry) (option_map entry_now after.entry) }
{
    match after {
        Some((_, held)) => is_alike(before, held.neighbour()),
        None => true,
    }
}

/// The last route before the place.
pub(crate) fn last_before<'a>(paths: &'a Paths, place: &Place) -> Option<Lent<'a>>
    ensures found { option_map entry_now result ≡ find_last (is_before place.now) paths.now.entries }
    ensures ordered { IsStrictlySortedBy place_cmp (keys_of paths.now.entries) }
{
    paths.range(..*place).next_back()
}

/// The first route from the place on.
pub(crate) fn first_from<'a>(paths: &'a Paths, place: &Place) -> Option<Lent<'a>>
    ensures found { option_map entry_now result ≡ find (is_at_or_after place.now) paths.now.entries }
    ensures ordered { IsStrictlySortedBy place_cmp (keys_of paths.now.entries) }
{
    paths.range(*place..).next()
}

/// The first route after the place.
pub(crate) fn first_after<'a>(paths: &'a Paths, place: &Place) -> Option<Lent<'a>>
    ensures found { option_map entry_now result ≡ find (is_after place.now) paths.now.entries }
    ensures ordered { IsStrictlySortedBy place_cmp (keys_of paths.now.entries) }
{
    paths
        .range((Bound::Excluded(*place), Bound::Unbounded))
        .next()
}

/// The first route after the place, where `next` is the first one from the place on.
fn first_behind<'a>(paths: &'a Paths, place: &Place, next: Option<Lent<'a>>) -> Option<Lent<'a>>
    requires { option_map entry_now next ≡ find (is_at_or_after place.now) paths.now.entries }
    ensures { option_map entry_now result ≡ find (is_after place.now) paths.now.entries }
{
    if stands_at(next, place) {
        first_after(paths, place)
    } else {
        next
    }
}

/// The first route from `low` on and before `high`.
pub(crate) fn first_within<'a>(paths: &'a Paths, low: &Place, high: &Place) -> Option<Lent<'a>>
    ensures found { option_map entry_now result ≡ find (λ r. is_within low.now high.now r.0) paths.now.entries }
    ensures ordered { IsStrictlySortedBy place_cmp (keys_of paths.now.entries) }
{
    let (place, path) = paths.range(*low..).next()?;
    if place.cmp(high).is_lt() {
        Some((place, path))
    } else {
        None
    }
}
