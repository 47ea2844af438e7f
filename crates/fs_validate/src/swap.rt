//! Whether a change of one unicast route leaves what flow routes are judged by.

ghost use Rattle.std.specs.{Prelude.{◌≡◌, ◌≤◌, ◌+◌, true, Some, List, option_map}, Option.{option_copied}};
ghost use Rattle.fs_unicast.specs.{Preference.{peer_path}, Unicast.{Route, IsSwap}};
ghost use Rattle.fs_validate.specs.{Laws.{is_alike, is_against, are_both_against, stays_at}, Validity.{validity_to}, declared.route.FlowRoute.{FlowRoute}};

use crate::originator::{is_same_originator, originator};
use fs_base::{Config, Path, Prefix, Steps};
use fs_unicast::{Held, Swap, Unicast, first_as, neighbour_as};
use std::sync::ledger::Ledger;

/// Whether the swap, after which these are the unicast routes, leaves as it was what each flow route to the destination
/// is judged by; so each has the validity that it had. Where its prefix covers the destination, the best routes there
/// before and now are alike. Where it lies strictly under the destination, both its paths are against the best match,
/// or neither. At any other prefix nothing is read. At most two steps.
pub fn stays<L: Ledger>(
    unicast: &Unicast,
    config: &Config,
    swap: &Swap,
    destination: &Prefix,
    steps: &mut Steps<L>,
) -> bool
    ensures stays { (earlier : List Route)
        → IsSwap swap.now earlier unicast.now
        → result ≡ stays_at config.now destination.now swap.now earlier unicast.now }
    ensures judged { result ≡ true
        → (earlier : List Route)
        → IsSwap swap.now earlier unicast.now
        → (route : FlowRoute)
        → validity_to earlier config.now route (Some destination.now)
        ≡ validity_to unicast.now config.now route (Some destination.now) }
    ensures later { steps.old ≤ steps.new }
    ensures steps { steps.new ≤ steps.old + 2 }
{
    if swap.prefix.covers(destination) {
        let (before, now) = unicast.best_before_and_now(swap, steps);
        return is_alike(config, before, now);
    }
    if !destination.covers(&swap.prefix) {
        return true;
    }
    let best = unicast.best_match(destination, steps);
    let now = unicast.path_at(swap.peer, &swap.prefix, steps);
    are_both_against(config, best, old_path(swap), now)
}

/// Whether both best routes are there, and have the same originator, leftmost AS and neighbouring AS.
fn is_alike(config: &Config, before: Option<Held<'_>>, now: Option<Held<'_>>) -> bool
    ensures { result ≡ is_alike config.now (option_map peer_path before.entry) (option_map peer_path now.entry) }
{
    let (Some(before), Some(now)) = (before, now) else {
        return false;
    };
    let originator_before = originator(config, before.peer, before.path);
    let originator_now = originator(config, now.peer, now.path);
    let segments_before = before.path.segments.as_slice();
    let segments_now = now.path.segments.as_slice();
    let asn_before = neighbour_as(segments_before, config.local_as);
    let asn_now = neighbour_as(segments_now, config.local_as);
    is_same_originator(originator_before, originator_now)
        && first_as(segments_before) == first_as(segments_now)
        && asn_before == asn_now
}

/// Whether both paths are against the best match, or neither.
fn are_both_against(
    config: &Config,
    best: Option<Held<'_>>,
    old: Option<&Path>,
    now: Option<&Path>,
) -> bool
    ensures { result ≡ are_both_against config.now (option_map peer_path best.entry) (option_copied old.entry)
        (option_copied now.entry) }
{
    is_against(config, best, old) == is_against(config, best, now)
}

/// Whether the path, if it is there, has another neighbouring AS than the best match; without one, each path has.
fn is_against(config: &Config, best: Option<Held<'_>>, path: Option<&Path>) -> bool
    ensures { result ≡ is_against config.now (option_map peer_path best.entry) (option_copied path.entry) }
{
    let Some(path) = path else {
        return false;
    };
    let Some(best) = best else {
        return true;
    };
    let asn = neighbour_as(best.path.segments.as_slice(), config.local_as);
    neighbour_as(path.segments.as_slice(), config.local_as) != asn
}

/// The path that the swap's route had.
fn old_path(swap: &Swap) -> Option<&Path>
    ensures { option_copied result ≡ swap.now.old }
{
    match &swap.old {
        Some(path) => Some(path.path()),
        None => None,
    }
}
