//! Whether a flow route may be used.

ghost use Rattle.std.specs.Prelude.{◌≡◌, ◌≤◌, ◌+◌, ℕ, List, option_map};
ghost use Rattle.fs_nlri.specs.Parts.{Ruled};
ghost use Rattle.fs_unicast.specs.Preference.{peer_path};
ghost use Rattle.fs_validate.specs.Validity.{flow_route, validity, has_originator, has_leftmost, validity_without, same_as};

use crate::basis::{basis_of, judged};
use crate::originator::{is_local, is_same_originator, originator};
use crate::route::{FlowRoute, destination};
use fs_base::{Config, Path, Steps};
use fs_nlri::Rule;
use fs_unicast::{Held, Unicast, first_as};
use std::sync::ledger::Ledger;

/// Valid, or the first rule of validation that the route breaks.
#[derive(Clone, Copy, Debug, PartialEq, Eq, Drop)]
pub enum Validity {
    Valid,
    /// The rule has no destination prefix (IPv6: none with offset 0), and the configuration doesn't allow that.
    NoDestination,
    /// The originator isn't that of the best match of the destination (RFC 9117 section 4.1, rule b).
    Originator,
    /// A unicast route strictly under the destination has another neighbouring AS than the best match, or there is
    /// no best match (rule c).
    MoreSpecific,
    /// The leftmost AS of an external peer's route isn't that of the best match (RFC 9117 section 4.2).
    LeftAs,
}

/// Validates a route against the unicast routes. At most one step.
pub fn valid<L: Ledger>(
    unicast: &Unicast,
    config: &Config,
    route: &FlowRoute,
    steps: &mut Steps<L>,
) -> Validity
    ensures validity { result ≡ validity unicast.now config.now route.now }
    ensures later { steps.old ≤ steps.new }
    ensures step { steps.new ≤ steps.old + 1 }
{
    validity_of(unicast, config, route.peer, &route.rule, &route.path, steps)
}

/// As [`valid`], of a route by its parts: the peer that gave it, its rule and its path, whatever its actions are.
pub fn validity_of<L: Ledger>(
    unicast: &Unicast,
    config: &Config,
    peer: u16,
    rule: &Rule,
    path: &Path,
    steps: &mut Steps<L>,
) -> Validity
    ensures validity { (actions : List (List ℕ))
        → result ≡ validity unicast.now config.now (flow_route peer rule.now path.now actions) }
    ensures later { steps.old ≤ steps.new }
    ensures step { steps.new ≤ steps.old + 1 }
{
    let Some(destination) = destination(rule) else {
        return without_destination(config);
    };
    let basis = basis_of(unicast, config, &destination, steps);
    judged(config, peer, path, &basis)
}

fn without_destination(config: &Config) -> Validity
    ensures { result ≡ validity_without config.now }
{
    if config.allow_no_destination {
        Validity::Valid
    } else {
        Validity::NoDestination
    }
}

/// Rule b: the best match has the same originator, or the route, which has this peer and this path, began in the local
/// AS and that is allowed.
pub(crate) fn has_originator(
    config: &Config,
    peer: u16,
    path: &Path,
    best: Option<Held<'_>>,
) -> bool
    ensures { (rule : Ruled) (actions : List (List ℕ))
        → result ≡ has_originator config.now (flow_route peer rule path.now actions) (option_map peer_path best.entry) }
{
    if config.empty_path_valid && is_local(path.segments.as_slice()) {
        return true;
    }
    match best {
        Some(best) => is_same_originator(
            originator(config, peer, path),
            originator(config, best.peer, best.path),
        ),
        None => false,
    }
}

/// Rule d: of a route from an external peer the leftmost AS is that of the best match.
pub(crate) fn has_leftmost(path: &Path, best: Option<Held<'_>>) -> bool
    ensures { (peer : ℕ) (rule : Ruled) (actions : List (List ℕ))
        → result ≡ has_leftmost (flow_route peer rule path.now actions) (option_map peer_path best.entry) }
{
    if !path.external {
        return true;
    }
    match best {
        Some(best) => is_same_as(
            first_as(path.segments.as_slice()),
            first_as(best.path.segments.as_slice()),
        ),
        None => false,
    }
}

/// Whether both are there and the same.
fn is_same_as(a: Option<u32>, b: Option<u32>) -> bool
    ensures { result ≡ same_as a b }
{
    match (a, b) {
        (Some(a), Some(b)) => a == b,
        _ => false,
    }
}
