//! Where the rules of a destination stand in a list.

ghost use Rattle.std.specs.Prelude.{◌≡◌};
ghost use Rattle.fs_buckets.specs.Destinations.{place_by, span_of, target_of};
ghost use Rattle.fs_changes.specs.Places.{AreInPlaces, HaveStretch};

use fs_base::Prefix;
use fs_rules::SharedFlow;
use std::cmp::Ordering;

/// How one destination stands to another, where that of no destination is last.
pub(crate) fn compare_places(target: Option<Prefix>, other: Option<Prefix>) -> Ordering
    ensures { result ≡ place_by (target_of target) (target_of other) }
{
    match (target, other) {
        (None, None) => Ordering::Equal,
        (None, Some(_)) => Ordering::Less,
        (Some(_), None) => Ordering::Greater,
        (Some(target), Some(other)) => {
            let last = other.last().cmp(&target.last());
            last.then(target.bits.cmp(&other.bits))
        }
    }
}

/// How a rule's destination stands to this one.
fn stands(rule: &SharedFlow, target: Option<Prefix>) -> Ordering
    ensures { result ≡ place_by (target_of target) (span_of rule.now.rule) }
{
    compare_places(target, rule.route().rule.destination())
}

/// From where on and before where the rules of the destination stand, or those without one.
pub(crate) fn stretch(rules: &[SharedFlow], target: Option<Prefix>) -> (usize, usize)
    requires { AreInPlaces (target_of target) rules.now }
    ensures { HaveStretch (target_of target) rules.now result.0 result.1 }
{
    let from = rules.partition_point(|rule| stands(rule, target).is_lt());
    let to = rules.partition_point(|rule| stands(rule, target).is_le());
    (from, to)
}
