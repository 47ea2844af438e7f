//! A rule of the rules file.

ghost use Rattle.std.specs.{Prelude.{◌≡◌, Some, None, IfOk, IsErrOf}, List.{list_all}};
ghost use Rattle.toml.specs.{Data.{get_member}, View.{view, table_view}};
ghost use Rattle.fs_actions.specs.Actions.{communities};
ghost use Rattle.fs_conf.specs.Config.{written};
ghost use Rattle.fs_conf.specs.Sent.{family_of, octets_of, rule_of, rule_written, are_listed, listed_actions, actions_written, actions_in};
ghost use Rattle.fs_conf.specs.Sent.{sent_of_members, sent_of_text};

use crate::array::OfItem;
use crate::config::ConfFault;
use crate::fields::{has_only, text_at, value_at};
use crate::worded::sent_of_text;
use fs_actions::{Action, ActionFault, Actions, from_communities};
use fs_attrs::rules_are_the_outcome;
use fs_base::Family;
use fs_nlri::{NlriFault, Rule, decode, no_frame_goes_on};
use fs_speaker::Sent;
use hex::FromHexError;
use std::alloc::Global;
use toml::{Table, Value};

/// The keys of a rule that is told by its octets.
pub(crate) const RULE_KEYS: [&str; 3] = ["family", "nlri", "actions"];

/// The key of a rule in words.
pub(crate) const TEXT_KEYS: [&str; 1] = ["text"];

fn family_of(word: &str) -> Option<Family>
    ensures { result ≡ family_of word.now }
{
    match word {
        "v4" => Some(Family::V4),
        "v6" => Some(Family::V6),
        _ => None,
    }
}

pub(crate) fn family_at(table: &Table, key: &str) -> Option<Family>
    ensures { result ≡ written family_of (get_member key.now (table_view table.now)) }
{
    family_of(text_at(table, key)?)
}

/// The octets that a text writes in hexadecimal, in either case.
pub(crate) fn octets_of(alloc: Global, text: &str) -> Result<Vec<u8>, ConfFault>
    ensures ok { IfOk result (λ octets. octets_of text.now ≡ Some octets.items) }
    ensures refused { IsErrOf result ConfFault.Refused → octets_of text.now ≡ None }
{
    match hex::decode(alloc, text) {
        Ok(octets) => Ok(octets),
        Err(FromHexError::OutOfMemory) => Err(ConfFault::Memory),
        Err(_) => Err(ConfFault::Refused),
    }
}

/// The rule of octets that are exactly one frame.
fn rule_of(alloc: Global, family: Family, octets: &[u8]) -> Result<Rule, ConfFault>
    ensures ok { IfOk result (λ rule. rule_of family octets.now ≡ Some rule) }
    ensures refused { IsErrOf result ConfFault.Refused → rule_of family octets.now ≡ None }
{
    rules_are_the_outcome();
    no_frame_goes_on();
    match decode(alloc, family, octets) {
        Ok((rule, taken)) if taken == octets.len() => Ok(rule),
        Ok(_) => Err(ConfFault::Refused),
        Err(NlriFault::Bad { .. }) => Err(ConfFault::Refused),
        Err(NlriFault::Memory) => Err(ConfFault::Memory),
    }
}

fn rule_written(alloc: Global, family: Family, text: &str) -> Result<Rule, ConfFault>
    ensures ok { IfOk result (λ rule. rule_written family text.now ≡ Some rule) }
    ensures refused { IsErrOf result ConfFault.Refused → rule_written family text.now ≡ None }
{
    let octets = octets_of(alloc, text)?;
    rule_of(alloc, family, &octets)
}

pub(crate) fn rule_at(
    alloc: Global,
    family: Family,
    table: &Table,
    key: &str,
) -> Result<Rule, ConfFault>
    ensures ok { IfOk result (λ rule.
        written (rule_written family) (get_member key.now (table_view table.now)) ≡ Some rule) }
    ensures refused { IsErrOf result ConfFault.Refused
        → written (rule_written family) (get_member key.now (table_view table.now)) ≡ None }
{
    let Some(text) = text_at(table, key) else {
        return Err(ConfFault::Refused);
    };
    rule_written(alloc, family, text)
}

/// Whether each community is an action.
fn are_listed(octets: &[u8]) -> bool
    ensures { result ≡ are_listed octets.now }
{
    let (communities, _) = octets.as_chunks::<8>();
    communities
        .iter()
        .all(|community| Action::of(community).is_some())
}

/// The actions of octets that are whole communities, each of them an action; none of no octets.
fn listed_actions(alloc: Global, octets: &[u8]) -> Result<Actions, ConfFault>
    ensures ok { IfOk result (λ actions. listed_actions octets.now ≡ Some actions) }
    ensures refused { IsErrOf result ConfFault.Refused → listed_actions octets.now ≡ None }
{
    if octets.is_empty() {
        return Ok(Actions::none(alloc));
    }
    if !are_listed(octets) {
        return Err(ConfFault::Refused);
    }
    match from_communities(alloc, octets) {
        Ok(actions) => Ok(actions),
        Err(ActionFault::BadLength) => Err(ConfFault::Refused),
        Err(ActionFault::Memory) => Err(ConfFault::Memory),
    }
}

fn actions_written(alloc: Global, text: &str) -> Result<Actions, ConfFault>
    ensures ok { IfOk result (λ actions. actions_written text.now ≡ Some actions) }
    ensures refused { IsErrOf result ConfFault.Refused → actions_written text.now ≡ None }
{
    let octets = octets_of(alloc, text)?;
    listed_actions(alloc, &octets)
}

fn actions_of(alloc: Global, value: &Value) -> Result<Actions, ConfFault>
    ensures ok { IfOk result (λ actions. actions_in (Some (view value.now)) ≡ Some actions) }
    ensures refused { IsErrOf result ConfFault.Refused → actions_in (Some (view value.now)) ≡ None }
{
    let Some(text) = value.as_str() else {
        return Err(ConfFault::Refused);
    };
    actions_written(alloc, text)
}

pub(crate) fn actions_at(alloc: Global, table: &Table, key: &str) -> Result<Actions, ConfFault>
    ensures ok { IfOk result (λ actions. actions_in (get_member key.now (table_view table.now)) ≡ Some actions) }
    ensures refused { IsErrOf result ConfFault.Refused
        → actions_in (get_member key.now (table_view table.now)) ≡ None }
{
    match value_at(table, key) {
        None => Ok(Actions::none(alloc)),
        Some(value) => actions_of(alloc, value),
    }
}

/// The rule whose octets stand at these keys.
fn sent_in(alloc: Global, table: &Table) -> Result<Sent, ConfFault>
    ensures ok { IfOk result (λ sent. sent_of_members (table_view table.now) ≡ Some sent) }
    ensures refused { IsErrOf result ConfFault.Refused → sent_of_members (table_view table.now) ≡ None }
{
    let family = family_at(table, "family").ok_or(ConfFault::Refused)?;
    Ok(Sent {
        rule: rule_at(alloc, family, table, "nlri")?,
        actions: actions_at(alloc, table, "actions")?,
    })
}

/// The rule whose text stands at this key.
pub(crate) fn worded_at(alloc: Global, table: &Table, key: &str) -> Result<Sent, ConfFault>
    ensures ok { IfOk result (λ sent. written sent_of_text (get_member key.now (table_view table.now)) ≡ Some sent) }
    ensures refused { IsErrOf result ConfFault.Refused
        → written sent_of_text (get_member key.now (table_view table.now)) ≡ None }
{
    let Some(text) = text_at(table, key) else {
        return Err(ConfFault::Refused);
    };
    sent_of_text(alloc, text)
}

impl OfItem for Sent {
    ghost use Rattle.fs_conf.specs.Sent.{sent_of_data};

    ghost says = { sent_of_data };

    /// The rule of one item of `[[rule]]`: either `family` (`v4` or `v6`), `nlri` (exactly one frame in hexadecimal)
    /// and `actions` (extended communities in hexadecimal, each of them an action; none where the key is missing), or
    /// `text` alone (the rule and its actions in words).
    fn of_item(alloc: Global, item: &Value) -> Result<Sent, ConfFault> {
        let Some(table) = item.as_table() else {
            return Err(ConfFault::Refused);
        };
        if has_only(table, &RULE_KEYS) {
            return sent_in(alloc, table);
        }
        if has_only(table, &TEXT_KEYS) {
            return worded_at(alloc, table, "text");
        }
        Err(ConfFault::Refused)
    }
}
