//! Groups by their destination: the next one, and those that cover a prefix or lie under it.

ghost use Rattle.std.specs.{Prelude.{◌≡◌, ◌≤◌, ◌+◌, ◌-◌, ◌||◌, true, false, Some, List, length}, Ordering.{is_le}};
ghost use Rattle.fs_base.specs.{Prefix.{covers, prefix_cmp}, Search.{IsFirstFrom}};
ghost use Rattle.fs_flows.specs.{Search.{AreRightSince, Mended, IsNextAfter, IsNextRelated}, Groups.{AreNoShorter}};
ghost use Rattle.fs_validate.specs.{Laws.{is_related}, Validity.{validity_to}, declared.route.FlowRoute.{FlowRoute}};
ghost use Rattle.fs_unicast.specs.{Search.{is_same_prefix}, Unicast.{Route, IsSwap}};

use crate::group::Group;
use crate::noted::{Change, Changes};
use fs_base::{Config, Prefix, Steps};
use fs_unicast::{PrefixKey, Swap, Unicast};
use fs_validate::stays;
use std::collections::BTreeMap;
use std::ops::Bound;
use std::sync::ledger::Ledger;

/// The first destination in order, from `low` on.
fn first_from(groups: &BTreeMap<PrefixKey, Group>, low: &Prefix) -> Option<PrefixKey>
    ensures { IsFirstFrom (λ e. e.0) groups.now.entries low.now result }
{
    match groups.range(PrefixKey::of(low)..).next() {
        Some((destination, _)) => Some(*destination),
        None => None,
    }
}

/// The first destination in order behind `low`.
fn first_after(groups: &BTreeMap<PrefixKey, Group>, low: &PrefixKey) -> Option<PrefixKey>
    ensures { IsNextAfter groups.now.entries low.now result }
{
    match groups
        .range((Bound::Excluded(*low), Bound::Unbounded))
        .next()
    {
        Some((destination, _)) => Some(*destination),
        None => None,
    }
}

/// The next destination behind this one that may be related to the prefix. Behind one that covers the prefix and is as
/// short as any there is none.
fn next_related(
    groups: &BTreeMap<PrefixKey, Group>,
    prefix: &Prefix,
    destination: &PrefixKey,
    shortest: u8,
) -> Option<PrefixKey>
    requires { AreNoShorter shortest groups.now.entries }
    ensures { IsNextRelated groups.now.entries prefix.now destination.now result }
{
    let here = destination.prefix();
    if here.length <= shortest && here.covers(prefix) {
        return None;
    }
    first_after(groups, destination)
}

/// The next destination behind `apart` that may be related to the prefix, where `apart` stands behind the prefix and
/// doesn't cover it. Nothing there lies under the prefix, and what covers the prefix covers what it has in common with
/// `apart`: so the search goes on from that, unless that is too short.
fn first_over(
    groups: &BTreeMap<PrefixKey, Group>,
    prefix: &Prefix,
    apart: &Prefix,
    shortest: u8,
) -> Option<PrefixKey>
    requires behind { is_le (prefix_cmp prefix.now apart.now) ≡ true }
    requires apart { covers apart.now prefix.now ≡ false }
    requires shortest { AreNoShorter shortest groups.now.entries }
    ensures { IsNextRelated groups.now.entries prefix.now apart.now result }
{
    let Some(both) = prefix.common(apart) else {
        return None;
    };
    if both.length < shortest {
        return None;
    }
    first_from(groups, &both)
}

/// Whether one of the two covers the other.
fn is_related(prefix: &Prefix, destination: &Prefix) -> bool
    ensures { result ≡ is_related prefix.now destination.now }
{
    destination.covers(prefix) || prefix.covers(destination)
}

/// Whether the group has many routes, and the swap leaves what they are judged by. A few are judged sooner than that is
/// found out: of them no step is taken, and of many at most two.
fn keeps_validities<L: Ledger>(
    group: &Group,
    destination: &Prefix,
    swap: &Swap,
    unicast: &Unicast,
    config: &Config,
    steps: &mut Steps<L>,
) -> bool
    ensures judged { result ≡ true
        → (earlier : List Route)
        → IsSwap swap.now earlier unicast.now
        → (route : FlowRoute)
        → validity_to earlier config.now route (Some destination.now)
        ≡ validity_to unicast.now config.now route (Some destination.now) }
    ensures later { steps.old ≤ steps.new }
    ensures steps { steps.new ≤ steps.old + (length group.now - 1) }
{
    group.has_many() && stays(unicast, config, swap, destination, steps)
}

/// Validates the routes of the group anew behind the swap, if there is one. Where a validity is another than before, the
/// destination is noted. A group of many routes is left as it is where the swap leaves what they are judged by.
fn mark_group<L: Ledger>(
    groups: &mut BTreeMap<PrefixKey, Group>,
    destination: &PrefixKey,
    swap: &Swap,
    unicast: &Unicast,
    config: &Config,
    changes: &mut Changes,
    steps: &mut Steps<L>,
)
    requires { AreRightSince swap.now unicast.now config.now groups.old.entries }
    ensures { Mended unicast.now config.now (is_same_prefix destination.now)
        groups.old groups.new changes.old changes.new steps.old steps.new }
{
    let Some(group) = groups.get_mut(destination) else {
        return;
    };
    let prefix = destination.prefix();
    if keeps_validities(group, &prefix, swap, unicast, config, steps) {
        return;
    }
    if group.retest(&prefix, unicast, config, steps) {
        changes.note(Change::at(prefix));
    }
}

/// Validates the routes anew, behind the swap, whose destination covers its prefix or lies under it, and notes the
/// destinations at which a validity is another than before. In order those under the prefix come first, from the lowest
/// on, and behind them those that cover it, so one walk meets all of them. No destination is shorter than `shortest`.
pub(crate) fn retest_related<L: Ledger>(
    groups: &mut BTreeMap<PrefixKey, Group>,
    shortest: u8,
    swap: &Swap,
    unicast: &Unicast,
    config: &Config,
    changes: &mut Changes,
    steps: &mut Steps<L>,
)
    requires shortest { AreNoShorter shortest groups.old.entries }
    requires right { AreRightSince swap.now unicast.now config.now groups.old.entries }
    ensures { Mended unicast.now config.now (is_related swap.now.prefix)
        groups.old groups.new changes.old changes.new steps.old steps.new }
{
    if groups.is_empty() {
        return;
    }
    let prefix = &swap.prefix;
    let mut next = first_from(groups, &prefix.first_under());
    while let Some(key) = next {
        let destination = key.prefix();
        if is_related(prefix, &destination) {
            mark_group(groups, &key, swap, unicast, config, changes, steps);
            next = next_related(groups, prefix, &key, shortest);
        } else {
            next = first_over(groups, prefix, &destination, shortest);
        }
    }
}
