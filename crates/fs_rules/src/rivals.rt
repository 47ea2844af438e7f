//! Whether a route is the most preferred valid one of its rule: its rivals stand beside it.

ghost use Rattle.std.specs.Prelude.{◌≡◌, ◌≤◌, ◌<◌, length, slice_get, Some, true, false};
ghost use Rattle.fs_flows.specs.{Shared.{flow_of}, Table.{is_of_family, is_valid, same_rule}, Group.{AreSorted, is_beaten, is_chosen, place_in, routes_of}};
ghost use Rattle.fs_rules.specs.Rivals.{is_apart, is_before_rule, is_better};

use fs_base::Family;
use fs_flows::{Kept, SharedRoute, compare_key, place_of, seen};
use fs_nlri::Rule;
use fs_order::compare;
use fs_validate::Validity;

fn stands(validity: Validity) -> bool
    ensures { result ≡ is_valid validity }
{
    validity == Validity::Valid
}

fn is_same_rule(s: &Kept, k: &Kept) -> bool
    ensures { result ≡ same_rule s.now.route k.now.route }
{
    compare(&s.route().rule, &k.route().rule).is_eq()
}

/// Whether `s` is valid and preferred to `k`.
fn is_better(s: &Kept, k: &Kept) -> bool
    ensures { result ≡ is_better s.now k.now }
{
    stands(s.validity()) && seen(s.route()).is_preferred(&seen(k.route()))
}

/// Whether the route at the place, if there is one, stands before the rule.
fn is_before(kept: &[Kept], place: usize, rule: &Rule) -> bool
    ensures { result ≡ is_before_rule rule.now (slice_get kept.now place) }
{
    match kept.get(place) {
        Some(k) => compare_key(rule, 0, k.route()).is_gt(),
        None => false,
    }
}

/// Whether the routes before the place, at which there is one, are those that stand before the rule.
fn is_start(kept: &[Kept], place: usize, rule: &Rule) -> bool
    requires { AreSorted (routes_of kept.now) }
    ensures start { result ≡ true → place ≡ place_in rule.now 0 kept.now }
    ensures within { result ≡ true → place ≤ length kept.now }
{
    if kept.len() <= place || is_before(kept, place, rule) {
        return false;
    }
    if place == 0 {
        return true;
    }
    is_before(kept, place - 1, rule)
}

/// How many routes stand before those of the rule: mostly as many as before the place, which is tried first.
fn start_of(kept: &[Kept], place: usize, rule: &Rule) -> usize
    requires { AreSorted (routes_of kept.now) }
    ensures start { result ≡ place_in rule.now 0 kept.now }
    ensures within { result ≤ length kept.now }
{
    if is_start(kept, place, rule) {
        place
    } else {
        place_of(kept, rule, 0)
    }
}

/// Whether a valid route of the same rule is preferred. The routes of a rule stand next to each other, mostly from
/// the place on.
fn is_beaten(kept: &[Kept], place: usize, k: &Kept) -> bool
    requires { AreSorted (routes_of kept.now) }
    ensures { result ≡ is_beaten kept.now k.now }
{
    let start = start_of(kept, place, &k.route().rule);
    for s in &kept[start..] {
        if !is_same_rule(s, k) {
            return false;
        }
        if is_better(s, k) {
            return true;
        }
    }
    false
}

/// Whether the route at the place, if there is one, is of another rule.
fn is_apart(kept: &[Kept], place: usize, k: &Kept) -> bool
    ensures { result ≡ is_apart k.now (slice_get kept.now place) }
{
    match kept.get(place) {
        Some(s) => !is_same_rule(s, k),
        None => true,
    }
}

/// Whether the route, which stands at the place, is known to be the only one of its rule: those beside it are of
/// others.
fn is_alone(kept: &[Kept], place: usize, k: &Kept) -> bool
    requires sorted { AreSorted (routes_of kept.now) }
    requires inside { place < length kept.now }
    requires there { slice_get kept.now place ≡ Some k.now }
    ensures { result ≡ true → is_beaten kept.now k.now ≡ false }
{
    if !is_apart(kept, place + 1, k) {
        return false;
    }
    if place == 0 {
        return true;
    }
    is_before(kept, place - 1, &k.route().rule)
}

/// Whether a valid route of the same rule stands at the place that is preferred.
fn beats_at(kept: &[Kept], place: usize, k: &Kept) -> bool
    ensures { result ≡ true → is_beaten kept.now k.now ≡ true }
{
    match kept.get(place) {
        Some(s) => is_same_rule(s, k) && is_better(s, k),
        None => false,
    }
}

/// The place of the most preferred valid route among those from the place on that stand next to each other with the
/// same rule.
fn leader_of(kept: &[Kept], place: usize) -> usize
    requires { place < length kept.now }
{
    let mut leader = place;
    for next in place..kept.len() {
        if !is_same_rule(&kept[next], &kept[leader]) {
            return leader;
        }
        if is_better(&kept[next], &kept[leader]) {
            leader = next;
        }
    }
    leader
}

/// Whether a valid route of the same rule is preferred to the one at the place. Most routes are alone. Else the rival,
/// which is tried first, is the most preferred route of the run that was asked last: so a run is gone through at most
/// three times, however many of its routes are asked.
fn has_rival(kept: &[Kept], place: usize, k: &Kept, rival: &mut usize) -> bool
    requires sorted { AreSorted (routes_of kept.now) }
    requires inside { place < length kept.now }
    requires there { slice_get kept.now place ≡ Some k.now }
    ensures { result ≡ is_beaten kept.now k.now }
{
    if is_alone(kept, place, k) {
        return false;
    }
    if beats_at(kept, *rival, k) {
        return true;
    }
    if is_beaten(kept, place, k) {
        *rival = leader_of(kept, place);
        return true;
    }
    *rival = place;
    false
}

/// Whether the route at the place is that of an admitted rule of the family. The routes are asked in their order, with
/// one rival for all, which is 0 at first.
pub(crate) fn is_chosen(
    family: Family,
    kept: &[Kept],
    place: usize,
    k: &Kept,
    rival: &mut usize,
) -> bool
    requires sorted { AreSorted (routes_of kept.now) }
    requires inside { place < length kept.now }
    requires there { slice_get kept.now place ≡ Some k.now }
    ensures { result ≡ is_chosen family kept.now k.now }
{
    is_of_family(family, k.route()) && stands(k.validity()) && !has_rival(kept, place, k, rival)
}

fn is_of_family(family: Family, route: &SharedRoute) -> bool
    ensures { result ≡ is_of_family family (flow_of route.now) }
{
    route.rule.family() == family
}
