//! What the kept validities tell, read one group after the other.

ghost use Rattle.std.specs.Prelude.{◌≡◌, ◌+◌, ◌<◌, ◌^◌, OnOk, length, option_map};
ghost use Rattle.fs_flows.specs.{Group.{AreSorted, routes_of}, Groups.{HasSortedGroups}, Lending.{group_at, chosen_in}};
ghost use Rattle.fs_rules.specs.{Lent.{shown_admitted, shown_held, Adds}, Lists.{shown_chosen}};
ghost use Rattle.fs_rules.specs.Reading.{shown_in, judgements_in, nth_listing_in, nth_judgement_in};
ghost use Rattle.fs_rules.specs.Walk.{next_match};

use crate::blocks;
use crate::lent::{Admitted, HeldFlow, OfKept};
use fs_base::{Family, Memory, Prefix};
use fs_flows::Group;
use fs_packet::View;
use fs_unicast::PrefixKey;
use std::collections::BTreeMap;

/// Adds the admitted rules to the list.
pub(crate) fn push_admitted<'a, T: OfKept<'a>>(
    groups: &'a BTreeMap<PrefixKey, Group>,
    rest: &'a Group,
    family: Family,
    list: &mut Vec<T>,
) -> Result<(), Memory>
    requires groups { HasSortedGroups groups.now.entries }
    requires rest { AreSorted (routes_of rest.now) }
    ensures { OnOk result (Adds T.shown (shown_in T.shows family groups.now.entries rest.now) list.old.items list.new.items) }
{
    for (_, group) in groups {
        blocks::push_admitted(family, group.blocks(), list)?;
    }
    blocks::push_admitted(family, rest.blocks(), list)
}

/// Adds the admitted rules with this destination, or without one, to the list.
pub(crate) fn push_admitted_to<'a, T: OfKept<'a>>(
    groups: &'a BTreeMap<PrefixKey, Group>,
    rest: &'a Group,
    family: Family,
    destination: Option<Prefix>,
    list: &mut Vec<T>,
) -> Result<(), Memory>
    requires groups { HasSortedGroups groups.now.entries }
    requires rest { AreSorted (routes_of rest.now) }
    ensures { OnOk result (Adds T.shown (shown_chosen T.shows family (group_at destination groups.now.entries rest.now))
        list.old.items list.new.items) }
{
    let Some(destination) = destination else {
        return blocks::push_admitted(family, rest.blocks(), list);
    };
    match groups.get(&PrefixKey::of(&destination)) {
        Some(group) => blocks::push_admitted(family, group.blocks(), list),
        None => Ok(()),
    }
}

/// Adds the routes to the list.
pub(crate) fn push_held<'a>(
    groups: &'a BTreeMap<PrefixKey, Group>,
    rest: &'a Group,
    list: &mut Vec<HeldFlow<'a>>,
) -> Result<(), Memory>
    ensures { OnOk result (Adds shown_held (judgements_in groups.now.entries rest.now) list.old.items list.new.items) }
{
    for (_, group) in groups {
        blocks::push_held(group.blocks(), list)?;
    }
    blocks::push_held(rest.blocks(), list)
}

/// How many rules are admitted.
pub(crate) fn count(groups: &BTreeMap<PrefixKey, Group>, rest: &Group, family: Family) -> usize
    requires groups { HasSortedGroups groups.now.entries }
    requires rest { AreSorted (routes_of rest.now) }
    requires most { length (chosen_in family groups.now.entries rest.now) < 2 ^ 64 }
    ensures { result ≡ length (chosen_in family groups.now.entries rest.now) }
{
    let mut total = 0;
    for (_, group) in groups {
        total += blocks::count_admitted(family, group.blocks());
    }
    total + blocks::count_admitted(family, rest.blocks())
}

/// The admitted rule of that number.
pub(crate) fn admitted_at<'a>(
    groups: &'a BTreeMap<PrefixKey, Group>,
    rest: &'a Group,
    family: Family,
    n: usize,
) -> Option<Admitted<'a>>
    requires groups { HasSortedGroups groups.now.entries }
    requires rest { AreSorted (routes_of rest.now) }
    ensures { option_map shown_admitted result ≡ nth_listing_in family groups.now.entries rest.now n }
{
    let mut left = n;
    for (_, group) in groups {
        let found = blocks::admitted_at(family, group.blocks(), left);
        if found.is_some() {
            return found;
        }
        left -= blocks::count_admitted(family, group.blocks());
    }
    blocks::admitted_at(family, rest.blocks(), left)
}

/// The route of that number.
pub(crate) fn held_at<'a>(
    groups: &'a BTreeMap<PrefixKey, Group>,
    rest: &'a Group,
    n: usize,
) -> Option<HeldFlow<'a>>
    ensures { option_map shown_held result ≡ nth_judgement_in groups.now.entries rest.now n }
{
    let mut left = n;
    for (_, group) in groups {
        let found = blocks::held_at(group.blocks(), left);
        if found.is_some() {
            return found;
        }
        left -= blocks::count_held(group.blocks());
    }
    blocks::held_at(rest.blocks(), left)
}

/// The least number from `n` on of an admitted rule that matches the packet.
pub(crate) fn next_match(
    groups: &BTreeMap<PrefixKey, Group>,
    rest: &Group,
    family: Family,
    view: &View<'_>,
    n: usize,
) -> Option<usize>
    requires groups { HasSortedGroups groups.now.entries }
    requires rest { AreSorted (routes_of rest.now) }
    requires most { length (chosen_in family groups.now.entries rest.now) < 2 ^ 64 }
    ensures { result ≡ next_match view.now n (routes_of (chosen_in family groups.now.entries rest.now)) }
{
    let mut number = 0;
    for (_, group) in groups {
        let found = blocks::next_match(family, group.blocks(), view, n, number);
        if found.is_some() {
            return found;
        }
        number += blocks::count_admitted(family, group.blocks());
    }
    blocks::next_match(family, rest.blocks(), view, n, number)
}
