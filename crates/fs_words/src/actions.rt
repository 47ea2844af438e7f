//! The words of actions (RFC 8955 section 7).

ghost use Rattle.std.specs.{Prelude.{◌≡◌, ◌++◌, ◌≤◌, length, OnOk}, String.{string_bytes}};
ghost use Rattle.fs_actions.specs.Community.{IsAction};
ghost use Rattle.fs_words.specs.Actions.{action_name, action_text, plain_text, rate_text, target_text};

use crate::pieces::{print_decimal, print_octets};
use crate::prefixes::{print_address, print_behind};
use byteorder::{BigEndian, ByteOrder};
use fs_actions::{Action, Redirect};
use fs_base::Memory;

/// The name of an action, by its type and sub-type.
pub fn action_name(action: &Action) -> &'static str
    requires { IsAction action.now }
    ensures { result.now ≡ action_name action.now }
{
    match BigEndian::read_u16(action.octets()) {
        0x8006 => "bytes",
        0x800c => "packets",
        0x8007 => "control",
        0x8009 => "mark",
        _ => "redirect",
    }
}

/// Appends a route target, by the form of its community.
fn print_target(target: Redirect, out: &mut String) -> Result<(), Memory>
    ensures { OnOk result (string_bytes out.new ≡ string_bytes out.old ++ target_text target) }
{
    match target {
        Redirect::As2 { asn, number } => {
            print_behind("as2:", u32::from(asn), out)?;
            print_behind(":", number, out)
        }
        Redirect::Ip4 { address, number } => {
            out.push_str("ip4:")?;
            print_address(address, out)?;
            print_behind(":", u32::from(number), out)
        }
        Redirect::As4 { asn, number } => {
            print_behind("as4:", asn, out)?;
            print_behind(":", u32::from(number), out)
        }
    }
}

/// Appends the id and the figure of a traffic-rate.
fn print_rate(octets: &[u8], out: &mut String) -> Result<(), Memory>
    requires { length octets.now ≡ 8 }
    ensures { OnOk result (string_bytes out.new ≡ string_bytes out.old ++ rate_text octets.now) }
{
    print_decimal(BigEndian::read_u16(&octets[2..]), out)?;
    out.push_str(":")?;
    print_octets(&octets[4..], out)
}

/// Appends what an action that is no redirect says.
fn print_plain(octets: &[u8], out: &mut String) -> Result<(), Memory>
    requires { length octets.now ≡ 8 }
    ensures { OnOk result (string_bytes out.new ≡ string_bytes out.old ++ plain_text octets.now) }
{
    match BigEndian::read_u16(octets) {
        0x8006 | 0x800c => print_rate(octets, out),
        _ => print_decimal(octets[7], out),
    }
}

/// Appends the word of what an action says.
///
/// After `Memory` a part of the word may stand in `out`.
pub fn print_action(action: &Action, out: &mut String) -> Result<(), Memory>
    requires { IsAction action.now }
    ensures { OnOk result (string_bytes out.new ≡ string_bytes out.old ++ action_text action.now) }
{
    match action.redirect() {
        Some(target) => print_target(target, out),
        None => print_plain(action.octets(), out),
    }
}
