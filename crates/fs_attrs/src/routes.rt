//! The routes of MP_REACH_NLRI and MP_UNREACH_NLRI (RFC 4760, sections 3 and 4).

ghost use Rattle.std.specs.Prelude.{◌≡◌, IfOk, IfErr};
ghost use Rattle.fs_nlri.specs.Feed.{Frames};
ghost use Rattle.fs_attrs.specs.Attributes.{lent_value, lent_values};
ghost use Rattle.fs_attrs.specs.Routes.{unicast_routes, flow_routes, routes_of, is_read, reach_of, unreach_of, if_there, optional_of, has_routes};
ghost use Rattle.fs_attrs.specs.Routes.{ReadsAs, field_fault, IsFieldFault};

use crate::attributes::Values;
use crate::lists::RuleList;
use crate::prefixes::read_prefixes;
use crate::update::{Routes, UpdateFault};
use byteorder::{BigEndian, ByteOrder};
use fs_base::Family;
use fs_nlri::{NlriFault, decode};
use std::alloc::Global;

/// The subsequent address families that are read (RFC 4760; RFC 8955, section 4).
pub(crate) const UNICAST: u8 = 1;

pub(crate) const FLOW: u8 = 133;

/// The routes that are reached and those that are withdrawn. The attribute that stands first is judged first.
pub(crate) fn read_optional(
    alloc: Global,
    values: &Values<'_>,
) -> Result<(Option<Routes>, Option<Routes>), UpdateFault>
    ensures { ReadsAs result (optional_of (lent_values values.now)) }
{
    if values.unreach_first {
        let unreach = read_unreach_in(alloc, values.unreach)?;
        let reach = read_reach_in(alloc, values.reach)?;
        return Ok((reach, unreach));
    }
    let reach = read_reach_in(alloc, values.reach)?;
    let unreach = read_unreach_in(alloc, values.unreach)?;
    Ok((reach, unreach))
}

fn read_reach_in(alloc: Global, value: Option<&[u8]>) -> Result<Option<Routes>, UpdateFault>
    ensures { ReadsAs result (if_there reach_of (lent_value value.entry)) }
{
    match value {
        Some(value) => read_reach(alloc, value),
        None => Ok(None),
    }
}

fn read_unreach_in(alloc: Global, value: Option<&[u8]>) -> Result<Option<Routes>, UpdateFault>
    ensures { ReadsAs result (if_there unreach_of (lent_value value.entry)) }
{
    match value {
        Some(value) => read_unreach(alloc, value),
        None => Ok(None),
    }
}

/// AFI, SAFI, the next hop's length and octets, a reserved octet, and routes.
fn read_reach(alloc: Global, value: &[u8]) -> Result<Option<Routes>, UpdateFault>
    ensures { ReadsAs result (reach_of value.now) }
{
    if value.len() < 3 {
        return Err(UpdateFault::Optional(None));
    }
    let afi = BigEndian::read_u16(value);
    let safi = value[2];
    if !is_known(afi, safi) {
        return Ok(None);
    }
    if value.len() < 4 {
        return Err(UpdateFault::Optional(None));
    }
    let start = 5 + usize::from(value[3]);
    if value.len() < start {
        return Err(UpdateFault::Optional(None));
    }
    read_routes(alloc, afi, safi, &value[start..])
}

/// AFI, SAFI, and routes.
fn read_unreach(alloc: Global, value: &[u8]) -> Result<Option<Routes>, UpdateFault>
    ensures { ReadsAs result (unreach_of value.now) }
{
    if value.len() < 3 {
        return Err(UpdateFault::Optional(None));
    }
    read_routes(alloc, BigEndian::read_u16(value), value[2], &value[3..])
}

fn is_known(afi: u16, safi: u8) -> bool
    ensures { result ≡ is_read afi safi }
{
    (afi == 1 || afi == 2) && (safi == UNICAST || safi == FLOW)
}

fn read_routes(
    alloc: Global,
    afi: u16,
    safi: u8,
    octets: &[u8],
) -> Result<Option<Routes>, UpdateFault>
    ensures { ReadsAs result (routes_of afi safi octets.now) }
{
    match (afi, safi) {
        (1, UNICAST) => read_unicast(alloc, Family::V4, octets),
        (2, UNICAST) => read_unicast(alloc, Family::V6, octets),
        (1, FLOW) => read_flow(alloc, Family::V4, octets),
        (2, FLOW) => read_flow(alloc, Family::V6, octets),
        _ => Ok(None),
    }
}

fn read_unicast(alloc: Global, family: Family, octets: &[u8]) -> Result<Option<Routes>, UpdateFault>
    ensures { ReadsAs result (unicast_routes family octets.now) }
{
    match read_prefixes(alloc, family, octets)? {
        Some(prefixes) => Ok(Some(Routes::Unicast(family, prefixes))),
        None => Err(UpdateFault::Optional(None)),
    }
}

fn read_flow(alloc: Global, family: Family, octets: &[u8]) -> Result<Option<Routes>, UpdateFault>
    ensures { ReadsAs result (flow_routes family octets.now) }
{
    match read_rules(alloc, family, octets) {
        Ok(rules) => Ok(Some(Routes::Flow(family, rules))),
        Err(fault) => Err(fault_of_field(fault)),
    }
}

fn fault_of_field(fault: NlriFault) -> UpdateFault
    ensures { result ≡ field_fault fault }
{
    match fault {
        NlriFault::Bad { reason, place } => UpdateFault::Optional(Some((reason, place))),
        NlriFault::Memory => UpdateFault::Memory,
    }
}

/// The rules of frames one after the other, or the first fault of a frame.
fn read_rules(alloc: Global, family: Family, octets: &[u8]) -> Result<RuleList, NlriFault>
    ensures ok { IfOk result (Frames family octets.now) }
    ensures err { IfErr result (IsFieldFault family octets.now) }
{
    let mut rules = Vec::new(alloc);
    let mut rest = octets;
    while !rest.is_empty() {
        let (rule, count) = decode(alloc, family, rest)?;
        rules.push(rule)?;
        rest = &rest[count..];
    }
    Ok(RuleList::new(rules))
}

/// Whether some route is there.
pub(crate) fn are_given(routes: &Option<Routes>) -> bool
    ensures { result ≡ has_routes routes.now }
{
    match routes {
        Some(Routes::Unicast(_, prefixes)) => !prefixes.is_empty(),
        Some(Routes::Flow(_, rules)) => !rules.is_empty(),
        None => false,
    }
}
