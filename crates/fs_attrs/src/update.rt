//! What an UPDATE says, and reading its body.

ghost use Rattle.std.specs.Prelude.{◌≡◌, false, IfOk, not, unwrap_or, []};
ghost use Rattle.fs_actions.specs.Actions.{actions_of, are_communities};
ghost use Rattle.fs_attrs.specs.{Attributes.{lent_value, lent_values}, Paths.{is_wrong, withdraws}, Update.{given_path, given_actions, update_of, Reads}};

use crate::attributes::{Values, split};
use crate::lists::{PrefixList, RuleList};
use crate::paths::{is_withdrawal, read_path};
use crate::prefixes::read_prefixes;
use crate::routes::{are_given, read_optional};
use fs_actions::{ActionFault, Actions, from_communities};
use fs_base::{Address, Family, Memory, Path};
use fs_nlri::Reason;
use std::alloc::{AllocError, AllocFailed, Global};

/// The session that an UPDATE belongs to: whether the peer is external, whether AS numbers in AS_PATH have
/// four octets (RFC 6793), and the address of the sender, for next hops that are written.
#[derive(Clone, Copy, Debug, PartialEq, Eq, Drop)]
pub struct Terms {
    pub external: bool,
    pub four: bool,
    pub address: Address,
}

/// Routes of one family: of unicast (SAFI 1) or of flow specification (SAFI 133).
#[derive(Debug, PartialEq, Eq, Drop)]
pub enum Routes {
    Unicast(Family, PrefixList),
    Flow(Family, RuleList),
}

/// An UPDATE. It takes routes (`classic_out`, `unreach`) before it gives any (`reach`, `classic_in`).
#[derive(Debug, PartialEq, Eq, Drop)]
pub struct Update {
    /// Withdrawn IPv4 unicast routes.
    pub classic_out: PrefixList,
    /// The routes of MP_UNREACH_NLRI.
    pub unreach: Option<Routes>,
    /// The routes of MP_REACH_NLRI.
    pub reach: Option<Routes>,
    /// Announced IPv4 unicast routes.
    pub classic_in: PrefixList,
    /// The path of what is given; Some exactly where a route is given and `as_withdraw` is false.
    pub path: Option<Path>,
    /// The actions of what is given; none where `path` is None.
    pub actions: Actions,
    /// Whether the given routes are to be withdrawn (RFC 7606, section 2).
    pub as_withdraw: bool,
}

/// The first fault of an UPDATE's body.
#[derive(Clone, Copy, Debug, PartialEq, Eq, Drop)]
pub enum UpdateFault {
    /// A length or an attribute passes its end, or an attribute with routes stands twice (3/1).
    List,
    /// A prefix outside the attributes is malformed (3/10).
    Network,
    /// An attribute with routes is malformed (3/9); with the reason and the place of an NLRI's fault.
    Optional(Option<(Reason, usize)>),
    /// The machine refused memory.
    Memory,
}

/// Why an UPDATE isn't written.
#[derive(Clone, Copy, Debug, PartialEq, Eq, Drop)]
pub enum WriteFault {
    /// The message would pass 4096 octets.
    TooLong,
    /// The machine refused memory.
    Memory,
}

impl From<Memory> for UpdateFault {
    ghost use Rattle.fs_attrs.specs.declared.update.UpdateFault.TheVariants.{Memory};

    ghost from_gives = { λ e r. r ≡ Memory };

    fn from(_error: fs_base::Memory) -> UpdateFault {
        UpdateFault::Memory
    }
}

impl From<Memory> for WriteFault {
    ghost use Rattle.fs_attrs.specs.declared.update.WriteFault.TheVariants.{Memory};

    ghost from_gives = { λ e r. r ≡ Memory };

    fn from(_error: fs_base::Memory) -> WriteFault {
        WriteFault::Memory
    }
}

/// Reads an UPDATE's body. The faults are judged in this order: 3/1 a length or an attribute passes its end,
/// or MP_REACH_NLRI or MP_UNREACH_NLRI stands twice; 3/10 a malformed prefix in the withdrawn routes or in the
/// last field; 3/9 a malformed MP_REACH_NLRI or MP_UNREACH_NLRI, as they stand. Other malformed attributes
/// have the given routes withdrawn (RFC 7606).
pub fn read_update(alloc: Global, body: &[u8], terms: &Terms) -> Result<Update, UpdateFault>
    ensures { Reads result (update_of terms.now body.now) }
{
    let Some(fields) = split(body) else {
        return Err(UpdateFault::List);
    };
    let Some(classic_out) = read_prefixes(alloc, Family::V4, fields.withdrawn)? else {
        return Err(UpdateFault::Network);
    };
    let Some(classic_in) = read_prefixes(alloc, Family::V4, fields.announced)? else {
        return Err(UpdateFault::Network);
    };
    let (reach, unreach) = read_optional(alloc, &fields.values)?;
    let gives = are_given(&reach) || !classic_in.is_empty();
    let as_withdraw = is_withdrawal(&fields.values, terms, gives);
    let (path, actions) = read_given(alloc, &fields.values, terms, gives, as_withdraw)?;
    Ok(Update {
        classic_out,
        unreach,
        reach,
        classic_in,
        path,
        actions,
        as_withdraw,
    })
}

/// The path and the actions of what is given, if anything is.
fn read_given(
    alloc: Global,
    values: &Values<'_>,
    terms: &Terms,
    gives: bool,
    as_withdraw: bool,
) -> Result<(Option<Path>, Actions), Memory>
    requires { as_withdraw ≡ withdraws terms.now (lent_values values.now) gives }
    ensures path { IfOk result (λ got. got.0 ≡ given_path terms.now (lent_values values.now) gives as_withdraw) }
    ensures actions { IfOk result (λ got. got.1 ≡ given_actions (lent_values values.now) gives as_withdraw) }
{
    if gives && !as_withdraw {
        let path = read_path(alloc, values, terms)?;
        let actions = read_actions(alloc, values.communities)?;
        return Ok((Some(path), actions));
    }
    Ok((None, Actions::none(alloc)))
}

/// The actions of the extended communities.
fn read_actions(alloc: Global, value: Option<&[u8]>) -> Result<Actions, Memory>
    requires { is_wrong (λ value. not (are_communities value)) (lent_value value) ≡ false }
    ensures { IfOk result (λ actions. actions ≡ actions_of (unwrap_or (lent_value value.entry) [])) }
{
    let Some(value) = value else {
        return Ok(Actions::none(alloc));
    };
    match from_communities(alloc, value) {
        Ok(actions) => Ok(actions),
        Err(ActionFault::Memory) => Err(Memory),
        Err(ActionFault::BadLength) => unreachable!(),
    }
}
