//! The fields of an UPDATE's body and its path attributes (RFC 4271, section 4.3).

ghost use Rattle.std.specs.{Prelude.{◌≡◌, Some, option_map}, Option.{option_or}};
ghost use Rattle.fs_attrs.specs.Attributes.{short_field, long_field, first_attribute, values_in, body_of, lent, lent_value, lent_values, lent_body};
ghost use Rattle.fs_attrs.specs.Attributes.{values_with, has_kept};

use byteorder::{BigEndian, ByteOrder};

/// The types of path attributes that are read or written (RFC 4271, RFC 4456, RFC 4760, RFC 4360).
pub(crate) const ORIGIN: u8 = 1;

pub(crate) const AS_PATH: u8 = 2;

pub(crate) const NEXT_HOP: u8 = 3;

pub(crate) const LOCAL_PREF: u8 = 5;

pub(crate) const ORIGINATOR_ID: u8 = 9;

pub(crate) const MP_REACH: u8 = 14;

pub(crate) const MP_UNREACH: u8 = 15;

pub(crate) const EXTENDED_COMMUNITIES: u8 = 16;

/// The flag of an attribute whose length has two octets.
pub(crate) const EXTENDED_LENGTH: u8 = 0x10;

/// The three fields of a body.
#[derive(Clone, Copy, Drop)]
pub(crate) struct Fields<'a> {
    pub(crate) withdrawn: &'a [u8],
    pub(crate) values: Values<'a>,
    pub(crate) announced: &'a [u8],
}

/// A path attribute.
#[derive(Clone, Copy, Drop)]
pub(crate) struct Lent<'a> {
    pub(crate) kind: u8,
    pub(crate) value: &'a [u8],
}

/// The value of each type that is read: that of the first attribute of the type, since later ones are discarded
/// (RFC 7606, section 3(g)).
#[derive(Clone, Copy, Drop)]
pub(crate) struct Values<'a> {
    pub(crate) origin: Option<&'a [u8]>,
    pub(crate) as_path: Option<&'a [u8]>,
    pub(crate) local_pref: Option<&'a [u8]>,
    pub(crate) originator: Option<&'a [u8]>,
    pub(crate) reach: Option<&'a [u8]>,
    pub(crate) unreach: Option<&'a [u8]>,
    pub(crate) communities: Option<&'a [u8]>,
    /// Whether MP_UNREACH_NLRI stands before MP_REACH_NLRI.
    pub(crate) unreach_first: bool,
}

/// The fields, or None where a length or an attribute passes its end, or where MP_REACH_NLRI or MP_UNREACH_NLRI
/// stands twice.
pub(crate) fn split(body: &[u8]) -> Option<Fields<'_>>
    ensures { option_map lent_body result ≡ body_of body.now }
{
    let (withdrawn, rest) = first_long_field(body)?;
    let (attributes, announced) = first_long_field(rest)?;
    let values = read_values(attributes)?;
    Some(Fields {
        withdrawn,
        values,
        announced,
    })
}

/// A length in two octets, then so many octets; and what follows them.
fn first_long_field(octets: &[u8]) -> Option<(&[u8], &[u8])>
    ensures { option_map (λ found. (found.0.now, found.1.now)) result ≡ long_field octets.now }
{
    if octets.len() < 2 {
        return None;
    }
    octets[2..].split_at_checked(BigEndian::read_u16(octets).into())
}

/// A length in one octet, then so many octets; and what follows them.
fn first_short_field(octets: &[u8]) -> Option<(&[u8], &[u8])>
    ensures { option_map (λ found. (found.0.now, found.1.now)) result ≡ short_field octets.now }
{
    let (size, rest) = octets.split_first()?;
    rest.split_at_checked((*size).into())
}

/// The attribute at the front, and what follows it.
fn next_attribute(octets: &[u8]) -> Option<(Lent<'_>, &[u8])>
    ensures { option_map (λ found. (lent found.0, found.1.now)) result ≡ first_attribute octets.now }
{
    let [flags, kind, rest @ ..] = octets else {
        return None;
    };
    let (value, behind) = if *flags & EXTENDED_LENGTH == 0 {
        first_short_field(rest)?
    } else {
        first_long_field(rest)?
    };
    Some((Lent { kind: *kind, value }, behind))
}

/// The values, or None where the octets aren't whole attributes, or where MP_REACH_NLRI or MP_UNREACH_NLRI stands
/// twice (RFC 7606, section 3(g)).
fn read_values(octets: &[u8]) -> Option<Values<'_>>
    ensures { option_map lent_values result ≡ values_in octets.now }
{
    let mut values = Values {
        origin: None,
        as_path: None,
        local_pref: None,
        originator: None,
        reach: None,
        unreach: None,
        communities: None,
        unreach_first: false,
    };
    let mut rest = octets;
    while let Some((attribute, behind)) = next_attribute(rest) {
        if has_routes_of(&values, attribute.kind) {
            return None;
        }
        keep(&mut values, attribute);
        rest = behind;
    }
    if rest.is_empty() { Some(values) } else { None }
}

/// Whether an attribute of this type with routes has been kept.
fn has_routes_of(values: &Values<'_>, kind: u8) -> bool
    ensures { result ≡ has_kept (lent_values values.now) kind }
{
    match kind {
        MP_REACH => values.reach.is_some(),
        MP_UNREACH => values.unreach.is_some(),
        _ => false,
    }
}

/// Keeps the value of an attribute, if its type is read.
fn keep<'a>(values: &mut Values<'a>, attribute: Lent<'a>)
    ensures { lent_values values.new ≡ values_with (lent_values values.old) (lent attribute.entry) }
{
    let value = attribute.value;
    match attribute.kind {
        ORIGIN => keep_first(&mut values.origin, value),
        AS_PATH => keep_first(&mut values.as_path, value),
        LOCAL_PREF => keep_first(&mut values.local_pref, value),
        ORIGINATOR_ID => keep_first(&mut values.originator, value),
        MP_REACH => keep_first(&mut values.reach, value),
        MP_UNREACH => {
            values.unreach_first = values.reach.is_none();
            keep_first(&mut values.unreach, value);
        }
        EXTENDED_COMMUNITIES => keep_first(&mut values.communities, value),
        _ => {}
    }
}

/// Keeps a value where none is kept yet.
fn keep_first<'a>(kept: &mut Option<&'a [u8]>, value: &'a [u8])
    ensures { lent_value kept.new ≡ option_or (lent_value kept.old) (Some value.now) }
{
    if kept.is_none() {
        *kept = Some(value);
    }
}
