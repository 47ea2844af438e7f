//! The texts of fields, attributes, next hops, prefixes and rules.

ghost use Rattle.std.specs.Prelude.{◌≡◌, ◌+◌, ◌-◌, ◌*◌, ◌^◌, ◌<◌, ◌≤◌, ◌++◌, [], ◌∷◌, length, map, flat_map, All, OnOk};
ghost use Rattle.byteorder.specs.Endian.{big_bytes};
ghost use Rattle.fs_base.specs.{Bits.{width_of}, declared.prefix.Family.TheVariants.{V4}};
ghost use Rattle.fs_nlri.specs.{Spelling.{octets_for}, Rule.{IsRule, shown, first_octets}};
ghost use Rattle.fs_attrs.specs.Attributes.{attribute};
ghost use Rattle.fs_attrs.specs.Texts.{long_text, prefix_text, prefixes_text, rules_text, flags_of, attribute_text, next_hop, AddsAttributes};

use crate::attributes::{
    EXTENDED_COMMUNITIES, EXTENDED_LENGTH, MP_REACH, MP_UNREACH, ORIGINATOR_ID,
};
use byteorder::{BigEndian, ByteOrder};
use fs_base::{Address, Family, Memory, Prefix};
use fs_nlri::{Rule, encode};

/// The flags of attributes: well-known ones are transitive (RFC 4271, section 4.3).
const OPTIONAL: u8 = 0x80;

const TRANSITIVE: u8 = 0x40;

/// Appends an attribute; a value of more than 255 octets has its length in two octets.
pub(crate) fn append_attribute(kind: u8, value: &[u8], out: &mut Vec<u8>) -> Result<(), Memory>
    ensures { AddsAttributes result out.old.items out.new.items (attribute kind value.now ∷ []) }
{
    if value.len() > 255 {
        out.extend_from_slice(&[flags(kind) | EXTENDED_LENGTH, kind])?;
        return append_long(value, out);
    }
    out.extend_from_slice(&[flags(kind), kind, value.len() as u8])?;
    out.extend_from_slice(value)?;
    Ok(())
}

fn flags(kind: u8) -> u8
    ensures { result ≡ flags_of kind }
{
    match kind {
        EXTENDED_COMMUNITIES => OPTIONAL | TRANSITIVE,
        ORIGINATOR_ID | MP_REACH | MP_UNREACH => OPTIONAL,
        _ => TRANSITIVE,
    }
}

/// Appends a length in two octets and then so many. Of a length that two octets can't say the low ones are
/// written: no message is as long.
pub(crate) fn append_long(octets: &[u8], out: &mut Vec<u8>) -> Result<(), Memory>
    ensures { OnOk result (out.new.items ≡ out.old.items ++ long_text octets.now) }
{
    append_u16((octets.len() % 65536) as u16, out)?;
    out.extend_from_slice(octets)?;
    Ok(())
}

pub(crate) fn append_u16(number: u16, out: &mut Vec<u8>) -> Result<(), Memory>
    ensures { OnOk result (out.new.items ≡ out.old.items ++ big_bytes 2 number) }
{
    let mut octets = [0; 2];
    BigEndian::write_u16(&mut octets, number);
    out.extend_from_slice(&octets)?;
    Ok(())
}

pub(crate) fn append_u32(number: u32, out: &mut Vec<u8>) -> Result<(), Memory>
    ensures { OnOk result (out.new.items ≡ out.old.items ++ big_bytes 4 number) }
{
    out.extend_from_slice(&octets_of(number))?;
    Ok(())
}

/// The number in four octets, the highest first.
pub(crate) fn octets_of(number: u32) -> [u8; 4]
    ensures { result ≡ big_bytes 4 number }
{
    let mut octets = [0; 4];
    BigEndian::write_u32(&mut octets, number);
    octets
}

/// Appends the address as the next hop of a family: zeros where it is of the other one.
pub(crate) fn append_next_hop(
    family: Family,
    address: Address,
    out: &mut Vec<u8>,
) -> Result<(), Memory>
    ensures { OnOk result (out.new.items ≡ out.old.items ++ next_hop family address) }
{
    match (family, address) {
        (Family::V4, _) => append_u32(v4_next_hop(address), out),
        (Family::V6, Address::V4(_)) => append_u128(0, out),
        (Family::V6, Address::V6(bits)) => append_u128(bits, out),
    }
}

/// The address as the next hop of IPv4 routes: 0 where it is one of IPv6.
pub(crate) fn v4_next_hop(address: Address) -> u32
    ensures { big_bytes 4 result ≡ next_hop V4 address }
{
    match address {
        Address::V4(bits) => bits,
        Address::V6(_) => 0,
    }
}

fn append_u128(number: u128, out: &mut Vec<u8>) -> Result<(), Memory>
    ensures { OnOk result (out.new.items ≡ out.old.items ++ big_bytes 16 number) }
{
    let mut octets = [0; 16];
    BigEndian::write_u128(&mut octets, number);
    out.extend_from_slice(&octets)?;
    Ok(())
}

/// Appends unicast prefixes.
pub(crate) fn append_prefixes(prefixes: &[Prefix], out: &mut Vec<u8>) -> Result<(), Memory>
    ensures { OnOk result (out.new.items ≡ out.old.items ++ prefixes_text (map shown prefixes.now)) }
{
    for prefix in prefixes {
        append_prefix(prefix, out)?;
    }
    Ok(())
}

/// Appends a length and the least octets that hold so many bits.
fn append_prefix(prefix: &Prefix, out: &mut Vec<u8>) -> Result<(), Memory>
    ensures { OnOk result (out.new.items ≡ out.old.items ++ prefix_text (shown prefix.now)) }
{
    out.push(prefix.length)?;
    append_bits(prefix.bits, prefix.family.width(), prefix.length, out)
}

/// Appends the octets that hold the first bits of a number of `width` bits.
fn append_bits(number: u128, width: u8, length: u8, out: &mut Vec<u8>) -> Result<(), Memory>
    requires width { width ≤ 128 }
    requires room { 8 * octets_for length ≤ width }
    requires fits { number < 2 ^ width }
    ensures { OnOk result (out.new.items ≡ out.old.items ++ first_octets width length number) }
{
    let count = (usize::from(length) + 7) / 8;
    if count == 0 {
        return Ok(());
    }
    let mut octets = [0; 16];
    BigEndian::write_uint128(
        &mut octets,
        number >> (usize::from(width) - 8 * count),
        count,
    );
    out.extend_from_slice(&octets[..count])?;
    Ok(())
}

/// Appends rules, each as its canonical frame.
pub(crate) fn append_rules(rules: &[Rule], out: &mut Vec<u8>) -> Result<(), Memory>
    ensures appended { OnOk result (out.new.items ≡ out.old.items ++ rules_text rules.now) }
    ensures rules { OnOk result (All IsRule rules.now) }
{
    for rule in rules {
        encode(rule, out)?;
    }
    Ok(())
}
