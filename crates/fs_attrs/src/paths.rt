//! The path attributes of routes.

ghost use Rattle.std.specs.Prelude.{◌≡◌, ◌&&◌, not, nat_le, IfOk};
ghost use Rattle.fs_attrs.specs.Attributes.{lent_value, lent_values};
ghost use Rattle.fs_attrs.specs.Paths.{origin_wrong, path_wrong, number_wrong, number_of, origin_of, path_of, is_wrong, withdraws};
ghost use Rattle.fs_actions.specs.Actions.{are_communities};

use crate::attributes::Values;
use crate::segments::{is_of_confederation, next_segment, read_segments};
use crate::update::Terms;
use byteorder::{BigEndian, ByteOrder};
use fs_base::{Memory, Path};
use std::alloc::Global;

/// The preference of a route without LOCAL_PREF.
const DEFAULT_LOCAL_PREF: u32 = 100;

/// Whether the given routes are to be withdrawn: an attribute is malformed, or ORIGIN or AS_PATH is missing
/// while routes are given (RFC 7606, section 7).
pub(crate) fn is_withdrawal(values: &Values<'_>, terms: &Terms, gives: bool) -> bool
    ensures { result ≡ withdraws terms.now (lent_values values.now) gives }
{
    is_wrong_origin(values.origin)
        || is_wrong_path(values.as_path, terms)
        || is_wrong_number(values.local_pref, terms)
        || is_wrong_number(values.originator, terms)
        || are_wrong_communities(values.communities)
        || gives && (values.origin.is_none() || values.as_path.is_none())
}

fn is_wrong_origin(value: Option<&[u8]>) -> bool
    ensures { result ≡ is_wrong origin_wrong (lent_value value.entry) }
{
    match value {
        Some(value) => !(value.len() == 1 && value[0] <= 2),
        None => false,
    }
}

fn is_wrong_path(value: Option<&[u8]>, terms: &Terms) -> bool
    ensures { result ≡ is_wrong (path_wrong terms.now) (lent_value value.entry) }
{
    match value {
        Some(value) => are_wrong_segments(value, terms),
        None => false,
    }
}

fn is_wrong_number(value: Option<&[u8]>, terms: &Terms) -> bool
    ensures { result ≡ is_wrong (number_wrong terms.now) (lent_value value.entry) }
{
    match value {
        Some(value) => !terms.external && value.len() != 4,
        None => false,
    }
}

fn are_wrong_communities(value: Option<&[u8]>) -> bool
    ensures { result ≡ is_wrong (λ value. not (are_communities value)) (lent_value value.entry) }
{
    match value {
        Some(value) => value.is_empty() || value.len() % 8 != 0,
        None => false,
    }
}

/// Whether these are not whole segments, or an external peer gives one of a confederation.
fn are_wrong_segments(octets: &[u8], terms: &Terms) -> bool
    ensures { result ≡ path_wrong terms.now octets.now }
{
    let mut rest = octets;
    while let Some((segment, behind)) = next_segment(terms.four, rest) {
        if is_barred(segment.form, terms) {
            return true;
        }
        rest = behind;
    }
    !rest.is_empty()
}

/// An external peer gives no segment of a confederation (RFC 5065, section 5).
fn is_barred(form: u8, terms: &Terms) -> bool
    ensures { result ≡ (terms.now.external && nat_le 3 form) }
{
    terms.external && is_of_confederation(form)
}

/// The path of the routes.
pub(crate) fn read_path(alloc: Global, values: &Values<'_>, terms: &Terms) -> Result<Path, Memory>
    ensures { IfOk result (λ path. path ≡ path_of terms.now (lent_values values.now)) }
{
    Ok(Path {
        origin: read_origin(values.origin),
        segments: read_segments(alloc, terms.four, values.as_path.unwrap_or(&[]))?,
        local_pref: read_number(values.local_pref, terms).unwrap_or(DEFAULT_LOCAL_PREF),
        originator: read_number(values.originator, terms),
        external: terms.external,
    })
}

fn read_origin(value: Option<&[u8]>) -> u8
    ensures { result ≡ origin_of (lent_value value.entry) }
{
    match value {
        Some([origin, ..]) => *origin,
        _ => 0,
    }
}

/// A number of four octets, of an internal peer.
fn read_number(value: Option<&[u8]>, terms: &Terms) -> Option<u32>
    ensures { result ≡ number_of terms.now (lent_value value.entry) }
{
    if terms.external {
        return None;
    }
    match value {
        Some(value) if value.len() == 4 => Some(BigEndian::read_u32(value)),
        _ => None,
    }
}
