//! The lines of rules.

ghost use Rattle.std.specs.Prelude.{◌≡◌, ◌+◌, ◌++◌, map, option_map, OnOk};
ghost use Rattle.hex.specs.Hex.{encode_lower};
ghost use Rattle.fs_nlri.specs.Rule.{canonical_frame};
ghost use Rattle.fs_rules.specs.Lent.{shown_held, shown_lent};
ghost use Rattle.fs_reports.specs.Rules.{actions_text, admitted_line, admitted_lines, family_text, head_text, invalid_line, invalid_lines};
ghost use Rattle.fs_reports.specs.Rules.{invalid_text, number_text, reason_of, tail_text};

use fs_actions::Actions;
use fs_base::{Family, Memory};
use fs_line::{append, append_decimal, append_hex, family_name};
use fs_nlri::{Rule, encode};
use fs_rules::{HeldFlow, LentRule, Table};
use fs_validate::Validity;

/// Appends the lines of a family's rules: of the admitted ones in order, each with its number from 1, and then of each
/// held route that isn't valid, with the reason, in the order of rules, then by peer.
pub(crate) fn append_rules(
    family: Family,
    table: &Table<'_>,
    text: &mut Vec<u8>,
) -> Result<(), Memory>
    ensures { OnOk result (text.new.items ≡ text.old.items ++ family_text family table.now) }
{
    let admitted = table.admitted(family)?;
    append_admitted(family, &admitted, text)?;
    let held = table.held(family)?;
    append_invalid(family, &held, text)
}

/// Appends the lines of admitted rules.
fn append_admitted(family: Family, rules: &[LentRule<'_>], text: &mut Vec<u8>) -> Result<(), Memory>
    ensures { OnOk result (text.new.items ≡ text.old.items ++ admitted_lines family 1 (map shown_lent rules.now)) }
{
    for (place, rule) in rules.iter().enumerate() {
        append_admitted_rule(family, place + 1, rule, text)?;
    }
    Ok(())
}

/// Appends the line of the admitted rule of this number.
fn append_admitted_rule(
    family: Family,
    number: usize,
    rule: &LentRule<'_>,
    text: &mut Vec<u8>,
) -> Result<(), Memory>
    ensures { OnOk result (text.new.items ≡ text.old.items ++ admitted_line family number (shown_lent rule.now)) }
{
    append_number(family, number, text)?;
    append_head(rule.rule, rule.peer, text)?;
    append_tail(rule.actions.actions(), text)
}

/// Appends the family's name and the number of a rule.
fn append_number(family: Family, number: usize, text: &mut Vec<u8>) -> Result<(), Memory>
    ensures { OnOk result (text.new.items ≡ text.old.items ++ number_text family number) }
{
    append(family_name(family), text)?;
    append(b" ", text)?;
    append_decimal(number, text)
}

/// Appends the rule's canonical octets and the peer's number.
fn append_head(rule: &Rule, peer: u16, text: &mut Vec<u8>) -> Result<(), Memory>
    ensures { OnOk result (text.new.items ≡ text.old.items ++ head_text rule.now peer) }
{
    append(b" ", text)?;
    append_frame(rule, text)?;
    append(b" peer ", text)?;
    append_decimal(peer, text)
}

/// Appends the rule's canonical frame in hexadecimal.
pub(crate) fn append_frame(rule: &Rule, text: &mut Vec<u8>) -> Result<(), Memory>
    ensures { OnOk result (text.new.items ≡ text.old.items ++ encode_lower (canonical_frame rule.now)) }
{
    let mut frame = Vec::new(*text.allocator());
    encode(rule, &mut frame)?;
    append_hex(*text.allocator(), &frame, text)
}

/// Appends what a rule's line says of its actions, and the line's end.
pub(crate) fn append_tail(actions: &Actions, text: &mut Vec<u8>) -> Result<(), Memory>
    ensures { OnOk result (text.new.items ≡ text.old.items ++ tail_text actions.now) }
{
    append(b" actions ", text)?;
    append_actions(actions, text)?;
    append(b"\n", text)
}

/// Appends the communities of the actions in hexadecimal, or `-` where there are none.
fn append_actions(actions: &Actions, text: &mut Vec<u8>) -> Result<(), Memory>
    ensures { OnOk result (text.new.items ≡ text.old.items ++ actions_text actions.now) }
{
    if actions.as_slice().is_empty() {
        return append(b"-", text);
    }
    let mut octets = Vec::new(*text.allocator());
    actions.to_communities(&mut octets)?;
    append_hex(*text.allocator(), &octets, text)
}

/// Appends the lines of those held routes that aren't valid.
fn append_invalid(family: Family, routes: &[HeldFlow<'_>], text: &mut Vec<u8>) -> Result<(), Memory>
    ensures { OnOk result (text.new.items ≡ text.old.items ++ invalid_lines family (map shown_held routes.now)) }
{
    for route in routes {
        append_route(family, route, text)?;
    }
    Ok(())
}

/// Appends the line of a held route, unless it is valid.
fn append_route(family: Family, route: &HeldFlow<'_>, text: &mut Vec<u8>) -> Result<(), Memory>
    ensures { OnOk result (text.new.items ≡ text.old.items ++ invalid_text family (shown_held route.now)) }
{
    match reason_of(route.validity) {
        Some(reason) => append_invalid_route(family, route, reason, text),
        None => Ok(()),
    }
}

/// Appends the line of a held route that isn't valid for this reason.
fn append_invalid_route(
    family: Family,
    route: &HeldFlow<'_>,
    reason: &[u8],
    text: &mut Vec<u8>,
) -> Result<(), Memory>
    ensures { OnOk result (text.new.items ≡ text.old.items ++ invalid_line family (shown_held route.now) reason.now) }
{
    append(family_name(family), text)?;
    append(b" invalid", text)?;
    append_head(route.rule, route.peer, text)?;
    append(b" ", text)?;
    append(reason, text)?;
    append(b"\n", text)
}

/// The name of the rule of validation that is broken, or None where the route is valid.
fn reason_of(validity: Validity) -> Option<&'static [u8]>
    ensures { option_map (λ name. name.now) result ≡ reason_of validity }
{
    match validity {
        Validity::Valid => None,
        Validity::NoDestination => Some(b"NoDestination"),
        Validity::Originator => Some(b"Originator"),
        Validity::MoreSpecific => Some(b"MoreSpecific"),
        Validity::LeftAs => Some(b"LeftAs"),
    }
}
