//! The noted places of a family, one after the other.

ghost use Rattle.std.specs.Prelude.{◌≡◌, ◌&&◌};
ghost use Rattle.fs_buckets.specs.Destinations.{place_by, target_of};
ghost use Rattle.fs_changes.specs.Noted.{is_due, is_later, is_sooner, next_of, targets};

use crate::places::compare_places;
use fs_base::{Family, Prefix};
use fs_rules::Change;

/// Whether a destination stands after the last one, if there is one.
fn is_later(last: Option<Option<Prefix>>, target: Option<Prefix>) -> bool
    ensures { result ≡ is_later (targets last) (target_of target) }
{
    match last {
        Some(last) => compare_places(last, target).is_gt(),
        None => true,
    }
}

/// Whether a destination stands before the one that was found, if there is one.
fn is_sooner(target: Option<Prefix>, found: Option<Option<Prefix>>) -> bool
    ensures { result ≡ is_sooner place_by target_of target found }
{
    match found {
        Some(found) => compare_places(found, target).is_lt(),
        None => true,
    }
}

/// Whether the place is one of the family, and stands after the last one and before the one that was found.
fn is_next(
    family: Family,
    last: Option<Option<Prefix>>,
    found: Option<Option<Prefix>>,
    place: &Change,
) -> bool
    ensures { result
        ≡ (is_due family last place.now && is_sooner place_by target_of place.now.destination found) }
{
    place.family.afi() == family.afi()
        && is_later(last, place.destination)
        && is_sooner(place.destination, found)
}

/// The destination of a family that is noted next after one, in the order of rules, or first. That of no destination is
/// the last.
pub(crate) fn next_noted(
    places: &[Change],
    family: Family,
    last: Option<Option<Prefix>>,
) -> Option<Option<Prefix>>
    ensures { result ≡ next_of family last places.now }
{
    let mut found = None;
    for place in places {
        if is_next(family, last, found, place) {
            found = Some(place.destination);
        }
    }
    found
}
