//! What is written of a capture by `check`.

ghost use Rattle.std.specs.{Prelude.{◌≡◌, ◌++◌, OnOk, IfOk, flat_map}, String.{string_bytes}};
ghost use Rattle.cmd_enforce.specs.Survey.{capture_fault_line, fall_line, format_text, head_line, link_line, link_lines, link_text, moments_text, tally_text};

use crate::fault::CaptureReason;
use crate::tally::{LinkCount, Tally};
use fs_base::{Link, Memory};
use std::alloc::Global;

/// The line of a capture's fault: its name and its place, the octet at which the capture is wrong.
pub(crate) fn fault_text(alloc: Global, reason: CaptureReason, place: u64) -> Result<String, Memory>
    ensures { IfOk result (λ text. string_bytes text ≡ capture_fault_line reason place) }
{
    Ok(format!(in alloc; "capture {reason} at {place}\n")?)
}

/// What is said of a capture without a fault, whose packets were counted so.
pub(crate) fn survey_text(
    alloc: Global,
    link: Option<Link>,
    tally: &Tally,
) -> Result<String, Memory>
    ensures { IfOk result (λ text. string_bytes text ≡ tally_text link tally.now) }
{
    let mut text = head_text(alloc, link, tally)?;
    if let Some(number) = tally.fall() {
        text.push_str(&format!(in alloc; "capture times fall at packet {number}\n")?)?;
    }
    if link.is_none() {
        push_links(alloc, tally.links(), &mut text)?;
    }
    Ok(text)
}

/// The first line.
fn head_text(alloc: Global, link: Option<Link>, tally: &Tally) -> Result<String, Memory>
    ensures { IfOk result (λ text. string_bytes text ≡ head_line link tally.now) }
{
    let format = format_text(alloc, link)?;
    let count = tally.count();
    let moments = moments_text(alloc, tally.first(), tally.greatest())?;
    Ok(format!(in alloc; "{format} packets {count} moments {moments}\n")?)
}

/// The format, with the link type of a capture that has one.
fn format_text(alloc: Global, link: Option<Link>) -> Result<String, Memory>
    ensures { IfOk result (λ text. string_bytes text ≡ format_text link) }
{
    match link {
        Some(link) => {
            let number = link.number();
            Ok(format!(in alloc; "capture pcap link {number}")?)
        }
        None => Ok(format!(in alloc; "capture pcapng")?),
    }
}

/// The moments of the first packet and of the last one.
fn moments_text(alloc: Global, first: Option<u64>, greatest: u64) -> Result<String, Memory>
    ensures { IfOk result (λ text. string_bytes text ≡ moments_text first greatest) }
{
    match first {
        Some(first) => Ok(format!(in alloc; "{first} {greatest}")?),
        None => Ok(format!(in alloc; "- -")?),
    }
}

/// Appends a line for each link type.
fn push_links(alloc: Global, links: &[LinkCount], text: &mut String) -> Result<(), Memory>
    ensures { OnOk result (string_bytes text.new ≡ string_bytes text.old ++ flat_map link_line links.now) }
{
    for count in links {
        text.push_str(&link_line(alloc, *count)?)?;
    }
    Ok(())
}

/// The line of a link type.
fn link_line(alloc: Global, count: LinkCount) -> Result<String, Memory>
    ensures { IfOk result (λ text. string_bytes text ≡ link_line count) }
{
    let packets = count.packets;
    match count.link {
        Some(link) => {
            let number = link.number();
            Ok(format!(in alloc; "link {number} packets {packets}\n")?)
        }
        None => Ok(format!(in alloc; "link - packets {packets}\n")?),
    }
}
