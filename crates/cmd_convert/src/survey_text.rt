//! What is written of a dump by `check`.

ghost use Rattle.std.specs.{Prelude.{◌≡◌, ◌++◌, OnOk, IfOk, flat_map}, String.{string_bytes}};
ghost use Rattle.cmd_convert.specs.Survey.{address_text, counts_text, dump_fault_line, number_text, peer_line, peer_part, peer_text, skipped_part};
ghost use Rattle.cmd_convert.specs.Survey.{skipped_text};

use crate::counts::NoteCount;
use fs_base::{Address, Memory};
use fs_mrt::{DumpReason, Note};
use std::alloc::Global;
use std::net::{Ipv4Addr, Ipv6Addr};

/// A line for each peer, and then one for each type of records that aren't read.
pub(crate) fn counts_text(alloc: Global, counts: &[NoteCount]) -> Result<String, Memory>
    ensures { IfOk result (λ text. string_bytes text ≡ counts_text counts.now) }
{
    let mut text = String::new(alloc);
    push_peers(alloc, counts, &mut text)?;
    push_skipped(alloc, counts, &mut text)?;
    Ok(text)
}

/// Appends the line of a dump's fault: its name and its place, the octet at which the dump is wrong.
pub(crate) fn push_fault(
    alloc: Global,
    reason: DumpReason,
    place: u64,
    text: &mut String,
) -> Result<(), Memory>
    ensures { OnOk result (string_bytes text.new ≡ string_bytes text.old ++ dump_fault_line reason place) }
{
    text.push_str(&format!(in alloc; "dump {reason} at {place}\n")?)?;
    Ok(())
}

fn push_peers(alloc: Global, counts: &[NoteCount], text: &mut String) -> Result<(), Memory>
    ensures { OnOk result (string_bytes text.new ≡ string_bytes text.old ++ flat_map peer_text counts.now) }
{
    for count in counts {
        text.push_str(&peer_part(alloc, count.note, count.count)?)?;
    }
    Ok(())
}

fn push_skipped(alloc: Global, counts: &[NoteCount], text: &mut String) -> Result<(), Memory>
    ensures { OnOk result (string_bytes text.new ≡ string_bytes text.old ++ flat_map skipped_text counts.now) }
{
    for count in counts {
        text.push_str(&skipped_part(alloc, count.note, count.count)?)?;
    }
    Ok(())
}

/// The line of a peer.
fn peer_part(alloc: Global, note: Note, count: u64) -> Result<String, Memory>
    ensures { IfOk result (λ text. string_bytes text ≡ peer_part note count) }
{
    match note {
        Note::Spoke {
            address,
            asn,
            number,
            ..
        } => peer_line(alloc, address, asn, number, count),
        Note::Skipped { .. } => Ok(String::new(alloc)),
    }
}

fn peer_line(
    alloc: Global,
    address: Address,
    asn: u32,
    number: Option<u16>,
    count: u64,
) -> Result<String, Memory>
    ensures { IfOk result (λ text. string_bytes text ≡ peer_line address asn number count) }
{
    let address = address_text(alloc, address)?;
    let number = number_text(alloc, number)?;
    Ok(format!(in alloc; "peer {address} as {asn} {number} messages {count}\n")?)
}

/// The text of an address.
fn address_text(alloc: Global, address: Address) -> Result<String, Memory>
    ensures { IfOk result (λ text. string_bytes text ≡ address_text address) }
{
    match address {
        Address::V4(address) => {
            let address = Ipv4Addr::from_octets(address.to_be_bytes());
            Ok(format!(in alloc; "{address}")?)
        }
        Address::V6(address) => {
            let address = Ipv6Addr::from_octets(address.to_be_bytes());
            Ok(format!(in alloc; "{address}")?)
        }
    }
}

/// The number of a peer that is configured.
fn number_text(alloc: Global, number: Option<u16>) -> Result<String, Memory>
    ensures { IfOk result (λ text. string_bytes text ≡ number_text number) }
{
    match number {
        Some(number) => Ok(format!(in alloc; "number {number}")?),
        None => Ok(format!(in alloc; "unknown")?),
    }
}

/// The line of a type of records that aren't read.
fn skipped_part(alloc: Global, note: Note, count: u64) -> Result<String, Memory>
    ensures { IfOk result (λ text. string_bytes text ≡ skipped_part note count) }
{
    match note {
        Note::Spoke { .. } => Ok(String::new(alloc)),
        Note::Skipped { kind, subtype } => {
            Ok(format!(in alloc; "skipped {kind}/{subtype} {count}\n")?)
        }
    }
}
