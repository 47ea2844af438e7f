//! The admitted rules in words, as a desk stands.

ghost use Rattle.std.specs.{Prelude.{◌≡◌, ◌++◌, IfOk, OnOk, map}, String.{string_bytes}};
ghost use Rattle.fs_rules.specs.Lent.{shown_lent};
ghost use Rattle.fs_reports.specs.{Listing.{Tells}, Worded.{rule_line, rule_lines, words_of_held, worded}};

use fs_base::{Family, Memory};
use fs_desk::Desk;
use fs_rules::{LentRule, Table};
use fs_text::print;
use std::alloc::Global;

/// A line for each admitted rule, in order, first those of IPv4 and then those of IPv6: its text with its actions.
///
/// # Errors
///
/// `Memory` where the machine refused memory.
pub fn desk_words(alloc: Global, desk: &Desk<'_>) -> Result<Vec<u8>, Memory>
    ensures text { IfOk result (λ text. text.items ≡ words_of_held desk.now.held) }
    ensures told { IfOk result (λ text. Tells worded desk.now text.items) }
{
    let mut text = String::new(alloc);
    append_table(desk.table(), &mut text)?;
    Ok(text.into_bytes())
}

/// Appends the lines of the admitted rules of both families.
fn append_table(table: &Table<'_>, text: &mut String) -> Result<(), Memory>
    ensures { OnOk result (string_bytes text.new ≡ string_bytes text.old ++ words_of_held table.now) }
{
    append_rules(&table.admitted(Family::V4)?, text)?;
    append_rules(&table.admitted(Family::V6)?, text)
}

/// Appends the lines of these rules.
fn append_rules(rules: &[LentRule<'_>], text: &mut String) -> Result<(), Memory>
    ensures { OnOk result (string_bytes text.new
        ≡ string_bytes text.old ++ rule_lines (map shown_lent rules.now)) }
{
    for rule in rules {
        append_rule(rule, text)?;
    }
    Ok(())
}

/// Appends the line of a rule.
fn append_rule(rule: &LentRule<'_>, text: &mut String) -> Result<(), Memory>
    ensures { OnOk result (string_bytes text.new ≡ string_bytes text.old ++ rule_line (shown_lent rule.now)) }
{
    print(rule.rule, rule.actions.actions(), text)?;
    text.push_str("\n")?;
    Ok(())
}
