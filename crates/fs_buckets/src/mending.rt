//! Buckets with the rules of one destination put anew.

ghost use Rattle.std.specs.{Prelude.{◌≡◌, ◌≤◌, ◌+◌, ◌-◌, ◌<◌, ◌^◌, true, IfOk, List, is_some, length}, List.{AllByRecursion, splice}};
ghost use Rattle.fs_rules.specs.Lent.{Listed, all_admitted};
ghost use Rattle.fs_buckets.specs.{Destinations.{AreTo, IsOfFamily, spans_of, target_of}, Housed.{AreBucketsOf, AreSound, HasStretch}};

use crate::buckets::{Buckets, buckets_with};
use crate::runs::mended_runs;
use fs_base::{Family, Memory, Prefix};
use fs_rules::LentRule;
use std::alloc::Global;

/// The buckets with the rules of the list in the place of those of the destination, or of those without one, which are
/// those from the number `from` on before `to`.
pub fn mended(
    alloc: Global,
    family: Family,
    old: Buckets,
    destination: Option<Prefix>,
    from: usize,
    to: usize,
    list: &[LentRule<'_>],
) -> Result<Buckets, Memory>
    requires sound { AreSound old (length old.homes.items) }
    requires whole { length old.homes.items < 2 ^ 32 }
    requires each { AllByRecursion (IsOfFamily family) (all_admitted list.now) }
    requires there { AreTo (target_of destination) (spans_of (all_admitted list.now)) }
    requires fits { from + length list.now + length old.homes.items < 2 ^ 32 + to }
    requires homes { is_some destination ≡ true → to ≤ length old.homes.items }
    requires some { (rules : List Listed) × HasStretch family rules old (target_of destination) from to }
    ensures { IfOk result (λ new.
        (rules : List Listed)
        → HasStretch family rules old (target_of destination) from to
        → AreBucketsOf
        (splice (spans_of rules) from to (spans_of (all_admitted list.now)))
        new
        (from + length list.now + (length rules - to))) }
{
    let Some(destination) = destination else {
        return Ok(old);
    };
    if list.len() == to - from {
        return Ok(old);
    }
    let (first, last) = (destination.bits, destination.last());
    if let Some(bucket) = old.holder(first, last, from, to) {
        return old.resized(alloc, bucket, from, to, list.len());
    }
    match old.gap(first, last, from, to) {
        Some(bucket) => old.opened(alloc, bucket, (first, last), from, list.len()),
        None => {
            let runs = mended_runs(alloc, family, &old, from, to, list)?;
            buckets_with(alloc, family, runs)
        }
    }
}
