//! The parameters of an OPEN and their capabilities (RFC 5492).

ghost use Rattle.std.specs.Prelude.{◌≡◌, ◌==◌, ◌||◌, option_map, length, [], ◌∷◌, if◌then◌else◌};
ghost use Rattle.fs_message.specs.Capabilities.{field, first_field, names_family, found_in, added, with_later, gathered, all_gathered, field_of};

use byteorder::{BigEndian, ByteOrder};

/// What the capabilities say.
#[derive(Clone, Copy, Drop)]
pub(crate) struct Found {
    pub(crate) asn: Option<u32>,
    pub(crate) v4_unicast: bool,
    pub(crate) v4_flow: bool,
    pub(crate) v6_unicast: bool,
    pub(crate) v6_flow: bool,
}

/// A parameter or a capability.
#[derive(Clone, Copy, Drop)]
pub(crate) struct Field<'a> {
    kind: u8,
    value: &'a [u8],
}

/// The type of the one parameter that is known: capabilities.
const CAPABILITIES: u8 = 2;

/// The capability that names a family of routes (RFC 4760, section 8).
const MULTIPROTOCOL: u8 = 1;

/// The capability of a four-octet AS (RFC 6793, section 3).
const FOUR_OCTET_AS: u8 = 65;

/// What all parameters of an OPEN say, or None where they are malformed.
pub(crate) fn read_parameters(octets: &[u8]) -> Option<Found>
    ensures { result ≡ all_gathered (found_in []) octets.now }
{
    let mut found = Found {
        asn: None,
        v4_unicast: false,
        v4_flow: false,
        v6_unicast: false,
        v6_flow: false,
    };
    let mut rest = octets;
    while let Some((parameter, behind)) = first_field(rest) {
        if parameter.kind != CAPABILITIES {
            return None;
        }
        let Some(next) = read_capabilities(found, parameter.value) else {
            return None;
        };
        found = next;
        rest = behind;
    }
    found_at_end(found, rest)
}

/// What is found, with a parameter's capabilities.
fn read_capabilities(found: Found, octets: &[u8]) -> Option<Found>
    ensures { result ≡ gathered found octets.now }
{
    let mut found = found;
    let mut rest = octets;
    while let Some((capability, behind)) = first_field(rest) {
        let Some(next) = with_capability(found, capability) else {
            return None;
        };
        found = next;
        rest = behind;
    }
    found_at_end(found, rest)
}

/// What is found where no field stands any more: nothing but fields may be there.
fn found_at_end(found: Found, rest: &[u8]) -> Option<Found>
    ensures { result ≡ (if length rest.now == 0 then Some found else None) }
{
    if rest.is_empty() { Some(found) } else { None }
}

/// What is found, with one more capability.
fn with_capability(found: Found, capability: Field<'_>) -> Option<Found>
    ensures { result ≡ added found (field_of capability.entry) }
{
    match capability.kind {
        MULTIPROTOCOL | FOUR_OCTET_AS if capability.value.len() != 4 => None,
        MULTIPROTOCOL => Some(with_family(found, capability.value)),
        FOUR_OCTET_AS => Some(with_asn(found, capability.value)),
        _ => Some(found),
    }
}

fn with_asn(found: Found, value: &[u8]) -> Found
    requires { length value.now ≡ 4 }
    ensures { result ≡ with_later found (found_in (field 65 value.now ∷ [])) }
{
    Found {
        asn: found.asn.or(Some(BigEndian::read_u32(value))),
        ..found
    }
}

fn with_family(found: Found, value: &[u8]) -> Found
    requires { length value.now ≡ 4 }
    ensures { result ≡ with_later found (found_in (field 1 value.now ∷ [])) }
{
    Found {
        asn: found.asn,
        v4_unicast: found.v4_unicast || is_family(1, 1, value),
        v4_flow: found.v4_flow || is_family(1, 133, value),
        v6_unicast: found.v6_unicast || is_family(2, 1, value),
        v6_flow: found.v6_flow || is_family(2, 133, value),
    }
}

fn is_family(afi: u16, safi: u8, value: &[u8]) -> bool
    requires { length value.now ≡ 4 }
    ensures { result ≡ names_family afi safi (field 1 value.now) }
{
    BigEndian::read_u16(value) == afi && value[3] == safi
}

/// The field at the front, and what follows it.
fn first_field(octets: &[u8]) -> Option<(Field<'_>, &[u8])>
    ensures { option_map (λ found. (field_of found.0, found.1.now)) result ≡ first_field octets.now }
{
    let [kind, size, rest @ ..] = octets else {
        return None;
    };
    let size = *size as usize;
    if size <= rest.len() {
        return Some((
            Field {
                kind: *kind,
                value: &rest[..size],
            },
            &rest[size..],
        ));
    }
    None
}
