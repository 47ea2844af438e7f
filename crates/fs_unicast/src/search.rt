//! Look-ups in the ordered map of routes.

ghost use Rattle.std.specs.Prelude.{◌≡◌, true, List, IfSome, filter, fold, map, option_map};
ghost use Rattle.std.specs.{Option.{option_copied}, List.Sorted.{IsStrictlySortedBy}, Map.{keys_of}};
ghost use Rattle.fs_unicast.specs.Search.{AreCoversOver, IsFront, candidate, is_same_prefix, is_beside, is_strictly_under, is_other_route, best_at};
ghost use Rattle.fs_unicast.specs.Search.{best_match_of, neighbour_of, others_under, held_by, start_of, old_route};
ghost use Rattle.fs_unicast.specs.{Preference.{better, best_of, peer_path}, Unicast.{Route, IsSwap, place_cmp, path_at}};
ghost use Rattle.fs_base.specs.Search.{IsFirstFrom};

use crate::beside::Paths;
use crate::key::PrefixKey;
use crate::neighbour::{is_other, neighbour_as};
use crate::preference::Held;
use crate::routes::Routes;
use crate::shared::SharedPath;
use crate::unicast::{Place, Swap};
use fs_base::{Path, Prefix};
use std::collections::btree_map::Range;
use std::ops::Bound;

/// The path of the peer's route at the prefix, if it holds one.
pub(crate) fn path_at<'a>(routes: &'a Paths, peer: u16, prefix: &Prefix) -> Option<&'a Path>
    ensures { option_copied result ≡ path_at peer prefix.now routes.now.entries }
{
    let place = Place {
        prefix: PrefixKey::of(prefix),
        peer,
    };
    let path = routes.get(&place)?;
    Some(path.path())
}

/// The most preferred route at the prefix.
pub(crate) fn best_at<'a>(routes: &'a Paths, prefix: &Prefix) -> Option<Held<'a>>
    ensures { option_map peer_path result ≡ best_at routes.now.entries prefix.now }
{
    let key = PrefixKey::of(prefix);
    let low = Place {
        prefix: key,
        peer: 0,
    };
    best_among(&key, None, routes.range(low..))
}

/// The most preferred of a route at the prefix and of those routes at the prefix that stand in front.
fn best_among<'a>(
    prefix: &PrefixKey,
    route: Option<Held<'a>>,
    routes: Range<'a, Place, SharedPath>,
) -> Option<Held<'a>>
    requires { IsFront prefix.now routes }
    ensures { option_map peer_path result ≡ fold better (option_map peer_path route.entry)
        (map candidate (filter (λ r. is_same_prefix prefix.now r.0.prefix) routes.entry)) }
{
    let mut best = route;
    for (place, path) in routes {
        if !is_same_prefix(prefix, &place.prefix) {
            return best;
        }
        let route = Held {
            peer: place.peer,
            path: path.path(),
        };
        best = Some(better(best, route));
    }
    best
}

/// The most preferred route at the swap's prefix before the swap, after which these are the routes, and now.
pub(crate) fn best_before_and_now<'a>(
    routes: &'a Paths,
    swap: &'a Swap,
) -> (Option<Held<'a>>, Option<Held<'a>>)
    ensures before { (earlier : List Route) → IsSwap swap.now earlier routes.now.entries
        → option_map peer_path result.0 ≡ best_at earlier swap.now.prefix }
    ensures now { option_map peer_path result.1 ≡ best_at routes.now.entries swap.now.prefix }
{
    let key = PrefixKey::of(&swap.prefix);
    let low = Place {
        prefix: key,
        peer: 0,
    };
    best_of_both(&key, swap.peer, old_route(swap), routes.range(low..))
}

/// The route that the swap's peer had.
fn old_route(swap: &Swap) -> Option<Held<'_>>
    ensures { option_map peer_path result ≡ old_route swap.now }
{
    match &swap.old {
        Some(path) => Some(Held {
            peer: swap.peer,
            path: path.path(),
        }),
        None => None,
    }
}

/// Of those routes at the prefix that stand in front: the most preferred of `old` and of the other peers' routes, and
/// that of all of them.
fn best_of_both<'a>(
    prefix: &PrefixKey,
    peer: u16,
    old: Option<Held<'a>>,
    routes: Range<'a, Place, SharedPath>,
) -> (Option<Held<'a>>, Option<Held<'a>>)
    requires { IsFront prefix.now routes }
    ensures before { option_map peer_path result.0 ≡ fold better (option_map peer_path old.entry)
        (map candidate (filter (λ r. is_beside prefix.now peer r.0) routes.entry)) }
    ensures now { option_map peer_path result.1 ≡ best_of
        (map candidate (filter (λ r. is_same_prefix prefix.now r.0.prefix) routes.entry)) }
{
    let mut before = old;
    let mut now = None;
    for (place, path) in routes {
        if !is_same_prefix(prefix, &place.prefix) {
            return (before, now);
        }
        let route = Held {
            peer: place.peer,
            path: path.path(),
        };
        now = Some(better(now, route));
        if place.peer != peer {
            before = Some(better(before, route));
        }
    }
    (before, now)
}

/// The first prefix in order, from `low` on, that has a route, and the most preferred route there.
fn best_from<'a>(routes: &'a Paths, low: &Prefix) -> Option<(Prefix, Option<Held<'a>>)>
    ensures first { IsFirstFrom (λ r. r.0.prefix) routes.now.entries low.now (option_map (λ f. f.0) result) }
    ensures best { IfSome result (λ f. option_map peer_path f.1 ≡ best_at routes.now.entries f.0) }
{
    let low = Place {
        prefix: PrefixKey::of(low),
        peer: 0,
    };
    let mut behind = routes.range(low..);
    let (place, path) = behind.next()?;
    let first = Held {
        peer: place.peer,
        path: path.path(),
    };
    let best = best_among(&place.prefix, Some(first), behind);
    Some((place.prefix.prefix(), best))
}

fn is_same_prefix(one: &PrefixKey, other: &PrefixKey) -> bool
    ensures { result ≡ is_same_prefix one.now other.now }
{
    one.is(other)
}

fn better<'a>(best: Option<Held<'a>>, route: Held<'a>) -> Held<'a>
    ensures { Some (peer_path result) ≡ better (option_map peer_path best.entry) (peer_path route.entry) }
{
    match best {
        Some(best) if !route.is_preferred(&best) => best,
        _ => route,
    }
}

/// The most preferred route at the longest prefix that covers this one and has a route, and whether a route strictly
/// under this prefix has another neighbouring AS than that one; without it, whether there is any. Mostly nothing lies
/// under the prefix, which the first route from there on tells: a cover, if it is one, and else a place to go on from.
/// Where one lies under the prefix, it is asked first.
pub(crate) fn best_and_others<'a>(
    routes: &'a Routes,
    prefix: &Prefix,
    local_as: u32,
) -> (Option<Held<'a>>, bool)
    ensures best { option_map peer_path result.0 ≡ best_match_of routes.now prefix.now }
    ensures others { result.1 ≡ others_under routes.now prefix.now local_as
        (neighbour_of local_as (best_match_of routes.now prefix.now)) }
{
    let held = routes.paths();
    let Some((first, best)) = best_from(held, &prefix.first_under()) else {
        return (None, false);
    };
    if first.covers(prefix) {
        return (best, false);
    }
    if prefix.covers(&first) {
        let longest = best_match(held, prefix);
        let asn = neighbour_of(longest, local_as);
        let others = others_from(routes, prefix, local_as, asn, &first, best);
        return (longest, others);
    }
    match prefix.common(&first) {
        Some(both) => (best_over(held, prefix, &both), false),
        None => (None, false),
    }
}

/// The neighbouring AS of the route, if there is one.
fn neighbour_of(route: Option<Held<'_>>, local_as: u32) -> Option<u32>
    ensures { result ≡ neighbour_of local_as (option_map peer_path route.entry) }
{
    match route {
        Some(route) => Some(neighbour_as(route.path.segments.as_slice(), local_as)),
        None => None,
    }
}

/// The most preferred route at the longest prefix that covers this one and has a route.
pub(crate) fn best_match<'a>(routes: &'a Paths, prefix: &Prefix) -> Option<Held<'a>>
    ensures { option_map peer_path result ≡ best_match_of routes.now.entries prefix.now }
{
    best_over(routes, prefix, prefix)
}

/// As `best_match`, where each prefix that covers this one and has a route covers `low` too. Where the first from there
/// on doesn't cover this one, each that does covers what the two have in common: so the search goes on from there.
fn best_over<'a>(routes: &'a Paths, prefix: &Prefix, low: &Prefix) -> Option<Held<'a>>
    requires { AreCoversOver routes.now.entries prefix.now low.now }
    ensures { option_map peer_path result ≡ best_match_of routes.now.entries prefix.now }
{
    let mut low = *low;
    loop {
        let Some((first, best)) = best_from(routes, &low) else {
            return None;
        };
        if first.covers(prefix) {
            break best;
        }
        let Some(both) = low.common(&first) else {
            return None;
        };
        low = both;
    }
}

/// Whether a route strictly under the prefix has another neighbouring AS.
pub(crate) fn others_under(
    routes: &Routes,
    prefix: &Prefix,
    local_as: u32,
    asn: Option<u32>,
) -> bool
    ensures { result ≡ others_under routes.now prefix.now local_as asn }
{
    let low = Place {
        prefix: PrefixKey::of(&prefix.first_under()),
        peer: 0,
    };
    let high = Place {
        prefix: PrefixKey::of(prefix),
        peer: 0,
    };
    routes.others_within(low, &high, local_as, asn)
}

/// As `others_under`, where `best` is the most preferred route at `first`, which lies strictly under the prefix: if that
/// route has another neighbouring AS, no other one is looked up.
fn others_from(
    routes: &Routes,
    prefix: &Prefix,
    local_as: u32,
    asn: Option<u32>,
    first: &Prefix,
    best: Option<Held<'_>>,
) -> bool
    requires best { option_map peer_path best ≡ best_at routes.now first.now }
    requires under { is_strictly_under prefix.now first.now ≡ true }
    ensures { result ≡ others_under routes.now prefix.now local_as asn }
{
    if is_other_route(best, local_as, asn) {
        return true;
    }
    others_under(routes, prefix, local_as, asn)
}

/// Whether there is a route, and it has another neighbouring AS.
fn is_other_route(route: Option<Held<'_>>, local_as: u32, asn: Option<u32>) -> bool
    ensures { result ≡ is_other_route local_as asn (option_map peer_path route.entry) }
{
    match route {
        Some(route) => is_other(route.path, local_as, asn),
        None => false,
    }
}

/// The first prefix in order, from `from` on or from the start, at which the peer holds a route.
pub(crate) fn held_by(routes: &Paths, peer: u16, from: Option<&Prefix>) -> Option<Prefix>
    ensures first { result ≡ held_by routes.now.entries peer (option_copied from.entry) }
    ensures ordered { IsStrictlySortedBy place_cmp (keys_of routes.now.entries) }
{
    for (place, _) in routes.range((start(from), Bound::Unbounded)) {
        if place.peer == peer {
            return Some(place.prefix.prefix());
        }
    }
    None
}

fn start(from: Option<&Prefix>) -> Bound<Place>
    ensures { result ≡ start_of (option_copied from.entry) }
{
    match from {
        Some(prefix) => Bound::Included(Place {
            prefix: PrefixKey::of(prefix),
            peer: 0,
        }),
        None => Bound::Unbounded,
    }
}
