//! The words of prefix components (RFC 8955 section 4.2.2.1, RFC 8956 section 3.1).

ghost use Rattle.std.specs.{Prelude.{◌≡◌, ◌++◌, ◌<◌, ◌≤◌, ◌^◌, ◌/◌, OnOk, codes, decimal, flat_map}, String.{string_bytes}};
ghost use Rattle.fs_nlri.specs.{Component.{body_of}, Sound.{IsSoundBody}};
ghost use Rattle.fs_words.specs.{Prefixes.{address_text, groups_text, next_group, offset_text, v4_text, v6_text, wide_address_text}, Values.{body_text}};

use crate::pieces::{print_decimal, print_hexadecimal};
use fs_base::Memory;
use fs_nlri::PrefixForm;
use std::net::Ipv6Addr;

/// Appends a mark and a number behind it.
pub(crate) fn print_behind(mark: &str, number: u32, out: &mut String) -> Result<(), Memory>
    ensures { OnOk result (string_bytes out.new ≡ string_bytes out.old ++ (mark.now ++ decimal number)) }
{
    out.push_str(mark)?;
    print_decimal(number, out)
}

/// Appends an IPv4 address.
pub(crate) fn print_address(address: u32, out: &mut String) -> Result<(), Memory>
    ensures { OnOk result (string_bytes out.new ≡ string_bytes out.old ++ address_text address) }
{
    let [first, second, third, fourth] = address.to_be_bytes();
    print_decimal(first, out)?;
    print_behind(".", u32::from(second), out)?;
    print_behind(".", u32::from(third), out)?;
    print_behind(".", u32::from(fourth), out)
}

/// Appends the groups of an IPv6 address behind the first.
fn print_next_groups(groups: &[u16], out: &mut String) -> Result<(), Memory>
    ensures { OnOk result (string_bytes out.new ≡ string_bytes out.old ++ flat_map next_group groups.now) }
{
    for group in groups {
        out.push_str(":")?;
        print_hexadecimal(*group, out)?;
    }
    Ok(())
}

fn print_groups(groups: &[u16], out: &mut String) -> Result<(), Memory>
    ensures { OnOk result (string_bytes out.new ≡ string_bytes out.old ++ groups_text groups.now) }
{
    match groups {
        [] => Ok(()),
        [first, others @ ..] => {
            print_hexadecimal(*first, out)?;
            print_next_groups(others, out)
        }
    }
}

/// Appends an IPv6 address, none of its groups left out.
fn print_wide_address(address: u128, out: &mut String) -> Result<(), Memory>
    ensures { OnOk result (string_bytes out.new ≡ string_bytes out.old ++ wide_address_text address) }
{
    print_groups(
        &Ipv6Addr::from_octets(address.to_be_bytes()).segments(),
        out,
    )
}

/// Appends an offset that isn't 0.
fn print_offset(offset: u8, out: &mut String) -> Result<(), Memory>
    ensures { OnOk result (string_bytes out.new ≡ string_bytes out.old ++ offset_text offset) }
{
    if offset == 0 {
        return Ok(());
    }
    print_behind("-", u32::from(offset), out)
}

/// Appends a prefix of an IPv4 address.
fn print_v4(length: u8, bits: u32, out: &mut String) -> Result<(), Memory>
    ensures { OnOk result (string_bytes out.new ≡ string_bytes out.old ++ v4_text length bits) }
{
    print_address(bits, out)?;
    print_behind("/", u32::from(length), out)
}

/// Appends a pattern of the bits of an IPv6 address from the offset up to the length.
fn print_v6(length: u8, offset: u8, pattern: u128, out: &mut String) -> Result<(), Memory>
    requires { offset < 128 }
    ensures { OnOk result (string_bytes out.new ≡ string_bytes out.old ++ v6_text length offset pattern) }
{
    print_wide_address(pattern >> offset, out)?;
    print_behind("/", u32::from(length), out)?;
    print_offset(offset, out)
}

/// Appends a prefix of either family.
pub(crate) fn print_prefix(form: &PrefixForm, out: &mut String) -> Result<(), Memory>
    requires { IsSoundBody (body_of form.now) }
    ensures { OnOk result (string_bytes out.new ≡ string_bytes out.old ++ body_text 1 (body_of form.now)) }
{
    match *form {
        PrefixForm::V4(prefix) => print_v4(prefix.length, prefix.bits as u32, out),
        PrefixForm::V6 {
            length,
            offset,
            pattern,
        } => print_v6(length, offset, pattern, out),
    }
}
