//! Flow specification routes.

ghost use Rattle.std.specs.Prelude.{◌≡◌};
ghost use Rattle.fs_nlri.specs.Rule.{IsRule, destination_prefix};

use fs_actions::Actions;
use fs_base::{Path, Prefix};
use fs_nlri::Rule;

/// A rule that a peer gave, with the path and the actions of its UPDATE.
#[derive(Debug, PartialEq, Eq, Drop)]
pub struct FlowRoute {
    pub peer: u16,
    pub rule: Rule,
    pub path: Path,
    pub actions: Actions,
}

/// The rule's destination prefix; None where it has none, or in IPv6 none with offset 0.
pub fn destination(rule: &Rule) -> Option<Prefix>
    ensures value { result ≡ destination_prefix rule.now }
    ensures rule { IsRule rule.now }
{
    rule.destination()
}
