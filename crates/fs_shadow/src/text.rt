//! The lines of the report.

ghost use Rattle.std.specs.Prelude.{◌≡◌, ◌++◌, IfOk, List, OnOk, flat_map};
ghost use Rattle.fs_base.specs.declared.config.Config.{Config};
ghost use Rattle.fs_tape.specs.Tape.{Item};
ghost use Rattle.fs_desk.specs.Desk.{Played};
ghost use Rattle.fs_shadow.specs.Text.{covered_line, earlier_text, held_lines, shadow_listing};

use crate::reporting::report;
use fs_base::{Family, Memory};
use fs_desk::Desk;
use fs_line::{append, append_numbered, family_name};
use std::alloc::Global;

/// A line for each admitted rule that can never act, with the earlier rule that takes all of its packets, for IPv4 and
/// then for IPv6; by their numbers from 1.
///
/// # Errors
///
/// `Memory` where the machine refused memory.
pub fn shadow_text(alloc: Global, desk: &Desk<'_>) -> Result<Vec<u8>, Memory>
    ensures text { IfOk result (λ text. text.items ≡ held_lines desk.now.held) }
    ensures told { IfOk result (λ text. (config : Config) (items : List Item) → Played config items desk.now
        → text.items ≡ shadow_listing config items desk.now.held) }
{
    let table = desk.table();
    let mut text = Vec::new(alloc);
    append_lines(Family::V4, &report(alloc, table, Family::V4)?, &mut text)?;
    append_lines(Family::V6, &report(alloc, table, Family::V6)?, &mut text)?;
    Ok(text)
}

/// Appends the line of each pair.
fn append_lines(family: Family, pairs: &[(usize, usize)], text: &mut Vec<u8>) -> Result<(), Memory>
    ensures { OnOk result (text.new.items ≡ text.old.items ++ flat_map (covered_line family) pairs.now) }
{
    for &pair in pairs {
        append_line(family, pair, text)?;
    }
    Ok(())
}

/// Appends the line of a rule and the earlier one at these places, from 0: by their numbers, from 1.
fn append_line(family: Family, pair: (usize, usize), text: &mut Vec<u8>) -> Result<(), Memory>
    ensures { OnOk result (text.new.items ≡ text.old.items ++ covered_line family pair) }
{
    append(family_name(family), text)?;
    append_numbered(b" ", pair.0 as u128 + 1, text)?;
    append_earlier(pair.1 as u128 + 1, text)
}

/// Appends what the line says of the earlier rule, and the line's end.
fn append_earlier(earlier: u128, text: &mut Vec<u8>) -> Result<(), Memory>
    ensures { OnOk result (text.new.items ≡ text.old.items ++ earlier_text earlier) }
{
    append_numbered(b" covered by ", earlier, text)?;
    append(b"\n", text)
}
