//! What is said of a rule in words.

ghost use Rattle.std.specs.Prelude.{◌≡◌, ◌++◌, IfOk, OnOk};
ghost use Rattle.fs_reports.specs.Text.{ReportsText, pair_line, text_fault_line};

use crate::report::Report;
use crate::rules::{append_frame, append_tail};
use fs_actions::Actions;
use fs_base::Memory;
use fs_line::{append, append_decimal};
use fs_nlri::Rule;
use fs_text::{TextFault, read};
use std::alloc::Global;

/// Appends the canonical octets of the rule and of the actions.
fn append_pair(rule: &Rule, actions: &Actions, text: &mut Vec<u8>) -> Result<(), Memory>
    ensures { OnOk result (text.new.items ≡ text.old.items ++ pair_line rule.now actions.now) }
{
    append(b"1 ", text)?;
    append_frame(rule, text)?;
    append_tail(actions, text)
}

/// Appends why a word is no text.
fn append_text_fault(fault: TextFault, text: &mut Vec<u8>) -> Result<(), Memory>
    ensures { OnOk result (text.new.items ≡ text.old.items ++ text_fault_line fault) }
{
    match fault {
        TextFault::Bad { word } => {
            append(b"text fault at word ", text)?;
            append_decimal(word, text)?;
            append(b"\n", text)
        }
        TextFault::TooLong => append(b"text too long\n", text),
        TextFault::Memory => Ok(()),
    }
}

/// What is said of a word that is to be the text of a rule and its actions: `1`, the canonical octets of the rule,
/// `actions` and the octets of their communities, or `-` where there are none; else the first word with which no text
/// goes on, or that the rule's value is too long.
pub fn report_on_text(alloc: Global, word: &str) -> Result<Report, Memory>
    ensures { IfOk result (λ report. ReportsText word.now report.text.items report.accepted) }
{
    let mut text = Vec::new(alloc);
    match read(alloc, word) {
        Ok((rule, actions)) => {
            append_pair(&rule, &actions, &mut text)?;
            Ok(Report {
                text,
                accepted: true,
            })
        }
        Err(TextFault::Memory) => Err(Memory),
        Err(fault) => {
            append_text_fault(fault, &mut text)?;
            Ok(Report {
                text,
                accepted: false,
            })
        }
    }
}
