//! What the kept validities tell, read one block of a group after the other.

ghost use Rattle.std.specs.Prelude.{◌≡◌, ◌<◌, ◌+◌, ◌^◌, OnOk, length, option_map, slice_get, nat_le, find};
ghost use Rattle.fs_flows.specs.{Blocks.{flat, AreCut}, Group.{chosen, AreSorted, routes_of}};
ghost use Rattle.fs_rules.specs.Lent.{shown_admitted, shown_held, Adds};
ghost use Rattle.fs_rules.specs.Lists.{judgement, routes_chosen, judgements, nth_listing, shown_chosen};
ghost use Rattle.fs_rules.specs.Walk.{matching_from};

use crate::lent::{Admitted, HeldFlow, OfKept};
use crate::lists;
use fs_base::{Family, Memory};
use fs_flows::Block;
use fs_packet::View;

/// Adds the admitted rules of the family to the list, in order.
pub(crate) fn push_admitted<'a, T: OfKept<'a>>(
    family: Family,
    blocks: &'a [Block],
    list: &mut Vec<T>,
) -> Result<(), Memory>
    requires cut { AreCut blocks.now }
    requires sorted { AreSorted (routes_of (flat blocks.now)) }
    ensures { OnOk result (Adds T.shown (shown_chosen T.shows family (flat blocks.now)) list.old.items list.new.items) }
{
    for block in blocks {
        lists::push_admitted(family, block.as_slice(), list)?;
    }
    Ok(())
}

/// Adds the routes to the list, in order.
pub(crate) fn push_held<'a>(blocks: &'a [Block], list: &mut Vec<HeldFlow<'a>>) -> Result<(), Memory>
    ensures { OnOk result (Adds shown_held (judgements (flat blocks.now)) list.old.items list.new.items) }
{
    for block in blocks {
        lists::push_held(block.as_slice(), list)?;
    }
    Ok(())
}

/// How many rules of the family are admitted.
pub(crate) fn count_admitted(family: Family, blocks: &[Block]) -> usize
    requires cut { AreCut blocks.now }
    requires sorted { AreSorted (routes_of (flat blocks.now)) }
    requires most { length (chosen family (flat blocks.now)) < 2 ^ 64 }
    ensures { result ≡ length (chosen family (flat blocks.now)) }
{
    let mut count = 0;
    for block in blocks {
        count += lists::count_admitted(family, block.as_slice());
    }
    count
}

/// How many routes there are.
pub(crate) fn count_held(blocks: &[Block]) -> usize
    requires { length (flat blocks.now) < 2 ^ 64 }
    ensures { result ≡ length (flat blocks.now) }
{
    let mut count = 0;
    for block in blocks {
        count += block.len();
    }
    count
}

/// The admitted rule of that number.
pub(crate) fn admitted_at(family: Family, blocks: &[Block], n: usize) -> Option<Admitted<'_>>
    requires cut { AreCut blocks.now }
    requires sorted { AreSorted (routes_of (flat blocks.now)) }
    ensures { option_map shown_admitted result ≡ nth_listing family (flat blocks.now) n }
{
    let mut left = n;
    for block in blocks {
        let found = lists::admitted_at(family, block.as_slice(), left);
        if found.is_some() {
            return found;
        }
        left -= lists::count_admitted(family, block.as_slice());
    }
    None
}

/// The route of that number.
pub(crate) fn held_at(blocks: &[Block], n: usize) -> Option<HeldFlow<'_>>
    ensures { option_map shown_held result ≡ option_map judgement (slice_get (flat blocks.now) n) }
{
    let mut left = n;
    for block in blocks {
        let found = lists::held_at(block.as_slice(), left);
        if found.is_some() {
            return found;
        }
        left -= block.len();
    }
    None
}

/// The least number from `n` on of an admitted rule that matches the packet, where the first has the number `first`.
pub(crate) fn next_match(
    family: Family,
    blocks: &[Block],
    view: &View<'_>,
    n: usize,
    first: usize,
) -> Option<usize>
    requires cut { AreCut blocks.now }
    requires sorted { AreSorted (routes_of (flat blocks.now)) }
    requires most { first + length (chosen family (flat blocks.now)) < 2 ^ 64 }
    ensures { result ≡ find (λ k. nat_le n k) (matching_from view.now first (routes_chosen family (flat blocks.now))) }
{
    let mut number = first;
    for block in blocks {
        let found = lists::next_match(family, block.as_slice(), view, n, number);
        if found.is_some() {
            return found;
        }
        number += lists::count_admitted(family, block.as_slice());
    }
    None
}
