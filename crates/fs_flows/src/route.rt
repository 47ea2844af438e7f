//! A flow route as the table keeps it.

ghost use Rattle.std.specs.Prelude.{◌≡◌, ◌≤◌, ◌+◌, option_map};
ghost use Rattle.fs_unicast.specs.Preference.{peer_path};
ghost use Rattle.fs_validate.specs.Validity.{judged, validity};
ghost use Rattle.fs_flows.specs.Shared.{flow_of};

use crate::actions::SharedActions;
use fs_base::{Config, Steps};
use fs_nlri::Rule;
use fs_unicast::{Held, SharedPath, Unicast};
use fs_validate::{Basis, Validity, validity_of};
use std::sync::ledger::Ledger;

/// A flow route of which many others may share the path and the actions.
#[derive(Drop)]
pub struct SharedRoute {
    pub peer: u16,
    pub rule: Rule,
    pub path: SharedPath,
    pub actions: SharedActions,
}

/// The peer of the route and its path.
pub fn seen(route: &SharedRoute) -> Held<'_>
    ensures { peer_path result ≡ (route.now.peer, route.now.path) }
{
    Held {
        peer: route.peer,
        path: route.path.path(),
    }
}

/// Validates the route against the unicast routes. At most one step.
pub fn validate<L: Ledger>(
    unicast: &Unicast,
    config: &Config,
    route: &SharedRoute,
    steps: &mut Steps<L>,
) -> Validity
    ensures validity { result ≡ validity unicast.now config.now (flow_of route.now) }
    ensures later { steps.old ≤ steps.new }
    ensures step { steps.new ≤ steps.old + 1 }
{
    validity_of(
        unicast,
        config,
        route.peer,
        &route.rule,
        route.path.path(),
        steps,
    )
}

/// Validates the route, whose destination has this basis.
pub(crate) fn judged(config: &Config, route: &SharedRoute, basis: &Basis<'_>) -> Validity
    ensures { result ≡ judged config.now (flow_of route.now) (option_map peer_path basis.now.best) basis.now.others }
{
    fs_validate::judged(config, route.peer, route.path.path(), basis)
}
