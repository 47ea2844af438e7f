//! The listing of the peers and the rules, as a desk stands.

ghost use Rattle.std.specs.Prelude.{◌≡◌, ◌++◌, IfOk, OnOk};
ghost use Rattle.fs_reports.specs.Listing.{Tells, desk_text, listing};

use crate::peers::append_peers;
use crate::rules::append_rules;
use fs_base::{Family, Memory};
use fs_desk::Desk;
use std::alloc::Global;

/// The listing: a line for each configured peer, by number, then for IPv4 and for IPv6 the admitted rules in order and
/// the held routes that aren't valid.
///
/// # Errors
///
/// `Memory` where the machine refused memory.
pub fn desk_text(alloc: Global, desk: &Desk<'_>) -> Result<Vec<u8>, Memory>
    ensures text { IfOk result (λ text. text.items ≡ desk_text desk.now) }
    ensures told { IfOk result (λ text. Tells listing desk.now text.items) }
{
    let mut text = Vec::new(alloc);
    append_desk(desk, &mut text)?;
    Ok(text)
}

/// Appends the listing.
fn append_desk(desk: &Desk<'_>, text: &mut Vec<u8>) -> Result<(), Memory>
    ensures { OnOk result (text.new.items ≡ text.old.items ++ desk_text desk.now) }
{
    append_peers(desk, text)?;
    append_rules(Family::V4, desk.table(), text)?;
    append_rules(Family::V6, desk.table(), text)
}
