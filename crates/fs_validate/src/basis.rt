//! What the validity of each route to one destination rests on.

ghost use Rattle.std.specs.Prelude.{◌≡◌, ◌+◌, ℕ, List, option_map};
ghost use Rattle.fs_nlri.specs.Parts.{Ruled};
ghost use Rattle.fs_unicast.specs.Preference.{peer_path};
ghost use Rattle.fs_validate.specs.{Basis.{IsBasis}, Validity.{flow_route, judged}};

use crate::validity::{Validity, has_leftmost, has_originator};
use fs_base::{Config, Path, Prefix, Steps};
use fs_unicast::{Held, Unicast};
use std::sync::ledger::Ledger;

/// What the unicast routes say of a destination: its best match, and whether a route strictly under it has another
/// neighbouring AS than that one.
#[derive(Clone, Copy, Drop)]
pub struct Basis<'a> {
    pub best: Option<Held<'a>>,
    pub others: bool,
}

/// The basis of a destination, by which each flow route to it is validated (`judged`). One step.
pub fn basis_of<'a, L: Ledger>(
    unicast: &'a Unicast,
    config: &Config,
    destination: &Prefix,
    steps: &mut Steps<L>,
) -> Basis<'a>
    ensures basis { IsBasis unicast.now config.now destination.now (option_map peer_path result.best) result.others }
    ensures step { steps.new ≡ steps.old + 1 }
{
    let (best, others) = unicast.best_and_others(destination, config.local_as, steps);
    Basis { best, others }
}

/// Validates a route, which this peer gave with this path, whose destination has this basis. Reads no unicast route.
pub fn judged(config: &Config, peer: u16, path: &Path, basis: &Basis<'_>) -> Validity
    ensures { (rule : Ruled) (actions : List (List ℕ))
        → result ≡ judged config.now (flow_route peer rule path.now actions) (option_map peer_path basis.now.best)
        basis.now.others }
{
    if !has_originator(config, peer, path, basis.best) {
        return Validity::Originator;
    }
    if basis.others {
        return Validity::MoreSpecific;
    }
    if !has_leftmost(path, basis.best) {
        return Validity::LeftAs;
    }
    Validity::Valid
}
