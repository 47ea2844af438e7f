//! A flow route and its validity.

ghost use Rattle.std.specs.Prelude.{◌≡◌};
ghost use Rattle.fs_nlri.specs.Rule.{IsRule, destination_prefix};

use crate::route::SharedRoute;
use crate::shared::SharedFlow;
use fs_base::{Family, Memory};
use fs_nlri::Rule;
use fs_unicast::PrefixKey;
use fs_validate::{Validity, destination};
use std::alloc::Global;
use std::marker::Model;

/// A flow route and its validity. The route stands in a block of its own, so that a group moves few octets to make a
/// place among many routes, and that others may hold it too. The peer stands beside it, so that the routes of a peer
/// are found without a look into each block.
#[derive(Drop)]
pub struct Kept {
    route: SharedFlow,
    peer: u16,
    validity: Validity,
}

impl Model for Kept {
    ghost use Rattle.std.specs.Prelude.{◌≡◌};
    ghost use Rattle.fs_flows.specs.Kept.{Kept};

    ghost Value = { Kept };

    ghost view = { λ a. record { route = a.route; validity = a.validity } };

    ghost invariant = { λ a. a.peer ≡ a.route.peer };
}

/// The destination of a rule, as a key.
pub(crate) fn destination_key(rule: &Rule) -> Option<PrefixKey>
    ensures value { result ≡ destination_prefix rule.now }
    ensures rule { IsRule rule.now }
{
    match destination(rule) {
        Some(destination) => Some(PrefixKey::of(&destination)),
        None => None,
    }
}

impl Kept {
    ghost use Rattle.std.specs.Prelude.{◌≡◌, IfOk};
    ghost use Rattle.fs_nlri.specs.Rule.{IsRule, destination_prefix};
    ghost use Rattle.fs_flows.specs.Shared.{flow_of};

    /// The route with this validity.
    pub fn new(alloc: Global, route: SharedRoute, validity: Validity) -> Result<Kept, Memory>
        ensures { IfOk result (λ k. k ≡ record { route = flow_of route; validity = validity }) }
    {
        let peer = route.peer;
        let route = SharedFlow::new(alloc, route)?;
        Ok(Kept {
            route,
            peer,
            validity,
        })
    }

    /// The route.
    pub fn route(&self) -> &SharedRoute
        ensures { flow_of result.now ≡ self.now.route }
    {
        self.route.route()
    }

    /// The route once more, for one who holds it beside the table.
    ///
    /// # Errors
    ///
    /// As [`SharedFlow::share`].
    pub fn share(&self) -> Result<SharedFlow, Memory>
        ensures { IfOk result (λ shared. shared ≡ self.now.route) }
    {
        self.route.share()
    }

    /// The peer that gave the route.
    pub(crate) fn peer(&self) -> u16
        ensures { result ≡ self.now.route.peer }
    {
        self.peer
    }

    pub(crate) fn family(&self) -> Family
        ensures { result ≡ self.now.route.rule.family }
    {
        self.route().rule.family()
    }

    /// The destination of the route's rule, as a key.
    pub(crate) fn destination(&self) -> Option<PrefixKey>
        ensures value { result ≡ destination_prefix self.now.route.rule }
        ensures rule { IsRule self.now.route.rule }
    {
        destination_key(&self.route().rule)
    }

    /// Its validity.
    pub fn validity(&self) -> Validity
        ensures { result ≡ self.now.validity }
    {
        self.validity
    }

    /// Gives the route another validity.
    pub(crate) fn judge(&mut self, validity: Validity)
        ensures { self.new ≡ record { route = self.old.route; validity = validity } }
    {
        self.validity = validity;
    }
}
