//! The text for a word.

ghost use Rattle.std.specs.Prelude.{◌≡◌, ◌+◌, ◌<◌, ◌≤◌, ◌^◌, ◌++◌, codes, length, IfOk, OnOk};
ghost use Rattle.fs_reports.specs.Report.{reason_name, frame_line, fault_line, ReportsField, Reports};

use crate::rules::append_frame;
use fs_base::{Family, Memory};
use fs_line::{append, append_decimal};
use fs_nlri::{NlriFault, Reason, Rule, decode};
use hex::FromHexError;
use std::alloc::Global;

/// The lines for a word, and whether it is the hexadecimal of frames.
#[derive(Drop)]
pub struct Report {
    pub text: Vec<u8>,
    pub accepted: bool,
}

/// What is said of a field of frames that a word gives in hexadecimal: for each frame its number, from 1, and its
/// canonical octets; at the first faulty frame its number, the fault and the place; `not hex` where the word isn't
/// hexadecimal.
pub fn report_on(alloc: Global, family: Family, word: &str) -> Result<Report, Memory>
    ensures { IfOk result (λ report. Reports family word.now report.text.items report.accepted) }
{
    let octets = match hex::decode(alloc, word) {
        Ok(octets) => octets,
        Err(FromHexError::OutOfMemory) => return Err(Memory),
        Err(_) => {
            return Ok(Report {
                text: Vec::from_slice(alloc, b"not hex\n")?,
                accepted: false,
            });
        }
    };
    report_field(alloc, family, &octets)
}

fn report_field(alloc: Global, family: Family, octets: &[u8]) -> Result<Report, Memory>
    ensures { IfOk result (λ report. ReportsField family octets.now report.text.items report.accepted) }
{
    let mut text = Vec::new(alloc);
    let mut number = 1;
    let mut rest = octets;
    'frames: while !rest.is_empty() {
        match decode(alloc, family, rest) {
            Ok((rule, taken)) => {
                append_rule(number, &rule, &mut text)?;
                number += 1;
                rest = &rest[taken..];
            }
            Err(NlriFault::Bad { reason, place }) => {
                append_fault(number, reason, place, &mut text)?;
                return Ok(Report {
                    text,
                    accepted: false,
                });
            }
            Err(NlriFault::Memory) => return Err(Memory),
        }
    }
    Ok(Report {
        text,
        accepted: true,
    })
}

fn append_rule(number: usize, rule: &Rule, text: &mut Vec<u8>) -> Result<(), Memory>
    ensures { OnOk result (text.new.items ≡ text.old.items ++ frame_line number rule.now) }
{
    append_decimal(number, text)?;
    append(b" ", text)?;
    append_frame(rule, text)?;
    append(b"\n", text)
}

fn append_fault(
    number: usize,
    reason: Reason,
    place: usize,
    text: &mut Vec<u8>,
) -> Result<(), Memory>
    ensures { OnOk result (text.new.items ≡ text.old.items ++ fault_line number reason place) }
{
    append_decimal(number, text)?;
    append(b" fault ", text)?;
    append(name_of(reason), text)?;
    append(b" at ", text)?;
    append_decimal(place, text)?;
    append(b"\n", text)
}

/// The printed name of a reason.
fn name_of(reason: Reason) -> &'static [u8]
    ensures { result.now ≡ reason_name reason }
{
    match reason {
        Reason::Cut => b"Cut",
        Reason::NoType => b"Type",
        Reason::Order => b"Order",
        Reason::PrefixLength => b"PrefixLength",
        Reason::Offset => b"Offset",
        Reason::Width => b"Width",
        Reason::Length => b"Length",
    }
}
