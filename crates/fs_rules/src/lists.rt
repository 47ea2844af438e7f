//! The lists that the validities of kept routes tell.

ghost use Rattle.std.specs.Prelude.{◌≡◌, ◌<◌, ◌+◌, ◌^◌, OnOk, length, option_map, slice_get, ◌&&◌, nat_le, find};
ghost use Rattle.fs_packet.specs.Matching.{is_match};
ghost use Rattle.fs_flows.specs.Group.{chosen, AreSorted, routes_of};
ghost use Rattle.fs_rules.specs.Lent.{shown_admitted, shown_held, Adds};
ghost use Rattle.fs_rules.specs.Lists.{judgement, routes_chosen, listing, judgements, nth_listing, shown_chosen};
ghost use Rattle.fs_rules.specs.Walk.{matching_from};

use crate::lent::{Admitted, HeldFlow, OfKept};
use crate::rivals::is_chosen;
use fs_base::{Family, Memory};
use fs_flows::Kept;
use fs_packet::{View, matches};

fn lend_admitted(k: &Kept) -> Admitted<'_>
    ensures { shown_admitted result ≡ listing k.now }
{
    let route = k.route();
    Admitted {
        rule: &route.rule,
        peer: route.peer,
        actions: route.actions.actions(),
    }
}

fn lend_held(k: &Kept) -> HeldFlow<'_>
    ensures { shown_held result ≡ judgement k.now }
{
    let route = k.route();
    HeldFlow {
        rule: &route.rule,
        peer: route.peer,
        validity: k.validity(),
    }
}

/// Adds the admitted rules of the family to the list, in order.
pub(crate) fn push_admitted<'a, T: OfKept<'a>>(
    family: Family,
    kept: &'a [Kept],
    list: &mut Vec<T>,
) -> Result<(), Memory>
    requires { AreSorted (routes_of kept.now) }
    ensures { OnOk result (Adds T.shown (shown_chosen T.shows family kept.now) list.old.items list.new.items) }
{
    let mut rival = 0;
    for place in 0..kept.len() {
        let k = &kept[place];
        if is_chosen(family, kept, place, k, &mut rival) {
            list.push(T::of_kept(k)?)?;
        }
    }
    Ok(())
}

/// Adds the routes to the list, in order.
pub(crate) fn push_held<'a>(kept: &'a [Kept], list: &mut Vec<HeldFlow<'a>>) -> Result<(), Memory>
    ensures { OnOk result (Adds shown_held (judgements kept.now) list.old.items list.new.items) }
{
    for k in kept {
        list.push(lend_held(k))?;
    }
    Ok(())
}

/// How many rules of the family are admitted.
pub(crate) fn count_admitted(family: Family, kept: &[Kept]) -> usize
    requires { AreSorted (routes_of kept.now) }
    ensures { result ≡ length (chosen family kept.now) }
{
    let mut count = 0;
    let mut rival = 0;
    for place in 0..kept.len() {
        if is_chosen(family, kept, place, &kept[place], &mut rival) {
            count += 1;
        }
    }
    count
}

/// The admitted rule of that number.
pub(crate) fn admitted_at(family: Family, kept: &[Kept], n: usize) -> Option<Admitted<'_>>
    requires { AreSorted (routes_of kept.now) }
    ensures { option_map shown_admitted result ≡ nth_listing family kept.now n }
{
    let mut left = n;
    let mut rival = 0;
    for place in 0..kept.len() {
        let k = &kept[place];
        if is_chosen(family, kept, place, k, &mut rival) {
            if left == 0 {
                return Some(lend_admitted(k));
            }
            left -= 1;
        }
    }
    None
}

/// The route of that number.
pub(crate) fn held_at(kept: &[Kept], n: usize) -> Option<HeldFlow<'_>>
    ensures { option_map shown_held result ≡ option_map judgement (slice_get kept.now n) }
{
    match kept.get(n) {
        Some(k) => Some(lend_held(k)),
        None => None,
    }
}

/// Whether the number is not below `n` and the rule matches the packet.
fn is_next(k: &Kept, view: &View<'_>, n: usize, number: usize) -> bool
    ensures { result ≡ (is_match k.now.route.rule view.now && nat_le n number) }
{
    n <= number && matches(&k.route().rule, view)
}

/// The least number from `n` on of an admitted rule that matches the packet, where the first has the number `first`.
pub(crate) fn next_match(
    family: Family,
    kept: &[Kept],
    view: &View<'_>,
    n: usize,
    first: usize,
) -> Option<usize>
    requires sorted { AreSorted (routes_of kept.now) }
    requires most { first + length (chosen family kept.now) < 2 ^ 64 }
    ensures { result ≡ find (λ k. nat_le n k) (matching_from view.now first (routes_chosen family kept.now)) }
{
    let mut number = first;
    let mut rival = 0;
    for place in 0..kept.len() {
        let k = &kept[place];
        if is_chosen(family, kept, place, k, &mut rival) {
            if is_next(k, view, n, number) {
                return Some(number);
            }
            number += 1;
        }
    }
    None
}
