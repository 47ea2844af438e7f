//! Writing an UPDATE.

ghost use Rattle.std.specs.Prelude.{◌≡◌, ◌^◌, ◌<◌, ◌≤◌, ◌++◌, [], ◌∷◌, Some, length, flat_map, All, OnOk, IfSome, IsTrue};
ghost use Rattle.byteorder.specs.Endian.{big_bytes};
ghost use Rattle.fs_attrs.specs.{Attributes.{attribute}, Segments.{segments_text, AreNumbers}};
ghost use Rattle.fs_attrs.specs.Write.{as_path_in, hop_field, hop_of, family_of, routes_text, reach_text, unreach_text, reach_in, unreach_in};
ghost use Rattle.fs_attrs.specs.Write.{next_hop_in, local_pref_in, originator_in, actions_in, path_in, written_attributes, update_text, Writes};
ghost use Rattle.fs_attrs.specs.Write.{AreRoutes, IfRoutes, IsPath, IsSound, ReadsBack};
ghost use Rattle.fs_attrs.specs.{Texts.{attribute_text, AddsAttributes}, Writable.{is_writable, is_written_path, has_its_path}};
ghost use Rattle.fs_actions.specs.Actions.{IsActions};

use crate::attributes::{
    AS_PATH, EXTENDED_COMMUNITIES, LOCAL_PREF, MP_REACH, MP_UNREACH, NEXT_HOP, ORIGIN,
    ORIGINATOR_ID,
};
use crate::lists::PrefixList;
use crate::routes::{FLOW, UNICAST};
use crate::segments::append_segments;
use crate::texts::{
    append_attribute, append_long, append_next_hop, append_prefixes, append_rules, append_u16,
    octets_of, v4_next_hop,
};
use crate::update::{Routes, Terms, Update, WriteFault};
use fs_actions::Actions;
use fs_base::{Address, Memory, Path, Segment};
use fs_message::write_update_frame;

/// The octets of the longest body of a message of 4096 octets.
const LONGEST_BODY: usize = 4077;

/// Appends the UPDATE that says this update, with its header. The attributes stand in the order MP_REACH_NLRI,
/// MP_UNREACH_NLRI, and then by rising types. `TooLong` is answered exactly where the message would pass 4096
/// octets; then, and after `Memory`, `out` is as it was. Read on these terms, what was written is the same
/// update, where AS numbers have four octets or none of the path needs more than two.
pub fn write_update(update: &Update, terms: &Terms, out: &mut Vec<u8>) -> Result<(), WriteFault>
    requires { IsTrue (is_writable terms.now update.now) }
    ensures written { Writes result (update_text terms.now update.now) out.old.items out.new.items }
    ensures read_back { OnOk result (ReadsBack terms.now update.now) }
{
    let mut body = Vec::new(*out.allocator());
    append_body(update, terms, &mut body)?;
    append_message(&body, out)
}

/// Appends the UPDATE with this body, unless it would be too long.
fn append_message(body: &[u8], out: &mut Vec<u8>) -> Result<(), WriteFault>
    ensures { Writes result body.now out.old.items out.new.items }
{
    if body.len() > LONGEST_BODY {
        return Err(WriteFault::TooLong);
    }
    write_update_frame(body, out)?;
    Ok(())
}

/// Appends the withdrawn routes, the attributes and the announced routes.
fn append_body(update: &Update, terms: &Terms, out: &mut Vec<u8>) -> Result<(), Memory>
    requires { IsTrue (has_its_path terms.now update.now update.now.path) }
    ensures appended { OnOk result (out.new.items ≡ out.old.items ++ update_text terms.now update.now) }
    ensures sound { OnOk result (IsSound update.now) }
{
    let mut withdrawn = Vec::new(*out.allocator());
    append_prefixes(update.classic_out.as_slice(), &mut withdrawn)?;
    append_long(&withdrawn, out)?;
    let mut attributes = Vec::new(*out.allocator());
    append_attributes(update, terms, &mut attributes)?;
    append_long(&attributes, out)?;
    append_prefixes(update.classic_in.as_slice(), out)
}

fn append_attributes(update: &Update, terms: &Terms, out: &mut Vec<u8>) -> Result<(), Memory>
    requires { IsTrue (has_its_path terms.now update.now update.now.path) }
    ensures appended { AddsAttributes result out.old.items out.new.items (written_attributes terms.now update.now) }
    ensures reach { OnOk result (IfRoutes update.now.reach) }
    ensures unreach { OnOk result (IfRoutes update.now.unreach) }
    ensures path { OnOk result (IfSome update.now.path (IsPath update.now.actions)) }
{
    append_reach(&update.reach, terms, out)?;
    append_unreach(&update.unreach, out)?;
    match &update.path {
        Some(path) => append_path(path, update, terms, out),
        None => Ok(()),
    }
}

fn append_reach(reach: &Option<Routes>, terms: &Terms, out: &mut Vec<u8>) -> Result<(), Memory>
    ensures appended { AddsAttributes result out.old.items out.new.items (reach_in terms.now reach.now) }
    ensures sound { OnOk result (IfRoutes reach.now) }
{
    let Some(routes) = reach else {
        return Ok(());
    };
    let mut value = Vec::new(*out.allocator());
    append_reached(routes, terms.address, &mut value)?;
    append_attribute(MP_REACH, &value, out)
}

/// Appends AFI, SAFI, the next hop behind its length, a reserved octet and the routes.
fn append_reached(routes: &Routes, address: Address, out: &mut Vec<u8>) -> Result<(), Memory>
    ensures appended { OnOk result (out.new.items ≡ out.old.items ++ reach_text address routes.now) }
    ensures sound { OnOk result (AreRoutes routes.now) }
{
    append_family(routes, out)?;
    append_hop(routes, address, out)?;
    out.push(0)?;
    append_routes(routes, out)
}

fn append_unreach(unreach: &Option<Routes>, out: &mut Vec<u8>) -> Result<(), Memory>
    ensures appended { AddsAttributes result out.old.items out.new.items (unreach_in unreach.now) }
    ensures sound { OnOk result (IfRoutes unreach.now) }
{
    let Some(routes) = unreach else {
        return Ok(());
    };
    let mut value = Vec::new(*out.allocator());
    append_family(routes, &mut value)?;
    append_routes(routes, &mut value)?;
    append_attribute(MP_UNREACH, &value, out)
}

/// Appends AFI and SAFI.
fn append_family(routes: &Routes, out: &mut Vec<u8>) -> Result<(), Memory>
    ensures { OnOk result (out.new.items ≡ out.old.items ++ family_of routes.now) }
{
    let (family, safi) = match routes {
        Routes::Unicast(family, _) => (*family, UNICAST),
        Routes::Flow(family, _) => (*family, FLOW),
    };
    append_u16(family.afi(), out)?;
    out.push(safi)?;
    Ok(())
}

/// Appends the next hop behind its length; of flow routes there is none (RFC 8955, section 4).
fn append_hop(routes: &Routes, address: Address, out: &mut Vec<u8>) -> Result<(), Memory>
    ensures { OnOk result (out.new.items ≡ out.old.items ++ hop_field address routes.now) }
{
    match routes {
        Routes::Unicast(family, _) => {
            out.push(family.width() / 8)?;
            append_next_hop(*family, address, out)
        }
        Routes::Flow(_, _) => {
            out.push(0)?;
            Ok(())
        }
    }
}

fn append_routes(routes: &Routes, out: &mut Vec<u8>) -> Result<(), Memory>
    ensures appended { OnOk result (out.new.items ≡ out.old.items ++ routes_text routes.now) }
    ensures sound { OnOk result (AreRoutes routes.now) }
{
    match routes {
        Routes::Unicast(_, prefixes) => append_prefixes(prefixes.as_slice(), out),
        Routes::Flow(_, rules) => append_rules(rules.as_slice(), out),
    }
}

/// Appends the attributes of what is announced.
fn append_path(path: &Path, update: &Update, terms: &Terms, out: &mut Vec<u8>) -> Result<(), Memory>
    requires { IsTrue (is_written_path terms.now path.now) }
    ensures appended { AddsAttributes result out.old.items out.new.items
        (path_in terms.now update.now (Some path.now)) }
    ensures sound { OnOk result (IsPath update.now.actions path.now) }
{
    append_attribute(ORIGIN, &[path.origin], out)?;
    append_as_path(path.segments.as_slice(), terms, out)?;
    append_hop_of_classic(&update.classic_in, terms, out)?;
    append_local_pref(path.local_pref, terms, out)?;
    append_originator(path.originator, out)?;
    append_actions(&update.actions, out)
}

fn append_as_path(segments: &[Segment], terms: &Terms, out: &mut Vec<u8>) -> Result<(), Memory>
    requires { All (λ segment. length segment.numbers ≤ 255) segments.now }
    ensures appended { AddsAttributes result out.old.items out.new.items (as_path_in terms.now segments.now) }
    ensures sound { OnOk result (All AreNumbers segments.now) }
{
    let mut value = Vec::new(*out.allocator());
    append_segments(segments, terms.four, &mut value)?;
    append_attribute(AS_PATH, &value, out)
}

/// Appends NEXT_HOP where IPv4 routes are announced outside the attributes.
fn append_hop_of_classic(
    announced: &PrefixList,
    terms: &Terms,
    out: &mut Vec<u8>,
) -> Result<(), Memory>
    ensures { AddsAttributes result out.old.items out.new.items (next_hop_in terms.now announced.now) }
{
    if announced.is_empty() {
        return Ok(());
    }
    append_number(NEXT_HOP, v4_next_hop(terms.address), out)
}

/// Appends LOCAL_PREF to an internal peer.
fn append_local_pref(local_pref: u32, terms: &Terms, out: &mut Vec<u8>) -> Result<(), Memory>
    ensures appended { AddsAttributes result out.old.items out.new.items (local_pref_in terms.now local_pref) }
    ensures sound { OnOk result (local_pref < 2 ^ 32) }
{
    if terms.external {
        return Ok(());
    }
    append_number(LOCAL_PREF, local_pref, out)
}

fn append_originator(originator: Option<u32>, out: &mut Vec<u8>) -> Result<(), Memory>
    ensures appended { AddsAttributes result out.old.items out.new.items (originator_in originator) }
    ensures sound { OnOk result (IfSome originator (λ id. id < 2 ^ 32)) }
{
    match originator {
        Some(id) => append_number(ORIGINATOR_ID, id, out),
        None => Ok(()),
    }
}

/// Appends an attribute of four octets.
fn append_number(kind: u8, number: u32, out: &mut Vec<u8>) -> Result<(), Memory>
    ensures { AddsAttributes result out.old.items out.new.items (attribute kind (big_bytes 4 number) ∷ []) }
{
    append_attribute(kind, &octets_of(number), out)
}

/// Appends the actions, if there are any, as extended communities.
fn append_actions(actions: &Actions, out: &mut Vec<u8>) -> Result<(), Memory>
    ensures appended { AddsAttributes result out.old.items out.new.items (actions_in actions.now) }
    ensures sound { OnOk result (IsActions actions.now) }
{
    if actions.as_slice().is_empty() {
        return Ok(());
    }
    let mut value = Vec::new(*out.allocator());
    actions.to_communities(&mut value)?;
    append_attribute(EXTENDED_COMMUNITIES, &value, out)
}
