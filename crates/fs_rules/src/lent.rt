//! What the table lends of its routes.

use fs_actions::Actions;
use fs_base::Memory;
use fs_flows::{Kept, SharedActions, SharedFlow};
use fs_nlri::Rule;
use fs_validate::Validity;

/// An admitted rule, with the peer and the actions of its most preferred valid route.
#[derive(Clone, Copy, Debug, PartialEq, Eq, Drop)]
pub struct Admitted<'a> {
    pub rule: &'a Rule,
    pub peer: u16,
    pub actions: &'a Actions,
}

/// As [`Admitted`], of a list of all admitted rules: who keeps the actions beyond the table shares them, and copies none.
#[derive(Clone, Copy, Drop)]
pub struct LentRule<'a> {
    pub rule: &'a Rule,
    pub peer: u16,
    pub actions: &'a SharedActions,
}

/// A held flow route, valid or not.
#[derive(Clone, Copy, Debug, PartialEq, Eq, Drop)]
pub struct HeldFlow<'a> {
    pub rule: &'a Rule,
    pub peer: u16,
    pub validity: Validity,
}

/// How an admitted rule stands in a list of them.
pub(crate) trait OfKept<'a>: Drop {
    ghost use Rattle.std.specs.Prelude.{◌≡◌, IfOk};
    ghost use Rattle.fs_validate.specs.declared.route.FlowRoute.{FlowRoute};

    /// What the list tells of a rule.
    ghost Shown: { Type 0 };

    /// What an element of the list tells.
    ghost shown: { Self → Shown };

    /// What is to be told of the route that is admitted.
    ghost shows: { FlowRoute → Shown };

    /// The route, as the list has it.
    fn of_kept(kept: &'a Kept) -> Result<Self, Memory>
        ensures { IfOk result (λ own. shown own ≡ shows kept.now.route) };
}

impl<'a> OfKept<'a> for LentRule<'a> {
    ghost use Rattle.fs_rules.specs.Lent.{Listed, listed, shown_lent};

    ghost Shown = { Listed };

    ghost shown = { shown_lent };

    ghost shows = { listed };

    fn of_kept(kept: &'a Kept) -> Result<LentRule<'a>, Memory> {
        let route = kept.route();
        Ok(LentRule {
            rule: &route.rule,
            peer: route.peer,
            actions: &route.actions,
        })
    }
}

impl<'a> OfKept<'a> for SharedFlow {
    ghost use Rattle.fs_validate.specs.declared.route.FlowRoute.{FlowRoute};

    ghost Shown = { FlowRoute };

    ghost shown = { λ flow. flow };

    ghost shows = { λ route. route };

    fn of_kept(kept: &'a Kept) -> Result<SharedFlow, Memory> {
        kept.share()
    }
}
