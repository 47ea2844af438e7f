//! The rules file.

ghost use Rattle.std.specs.Prelude.{◌≡◌, Some, None, IfOk, IsErrOf};
ghost use Rattle.toml.specs.{Data.{get_member}, View.{view, table_view}};
ghost use Rattle.fs_conf.specs.{Address.{ipv4_of}, Config.{written}};
ghost use Rattle.fs_conf.specs.Rules.{as_path_in, are_single, number_of, rules_in, sendable, sending_of_members, sending_of_document, rules_of, Sees};

use crate::address::read_ipv4;
use crate::array::{OfItem, each_item};
use crate::config::ConfFault;
use crate::document::read_document;
use crate::fields::{array_at, has_only, text_at, value_at};
use fs_base::{Config, Memory, Numbers};
use fs_order::Ranked;
use fs_speaker::{Sending, Sent, SentList, sender};
use std::alloc::Global;
use std::collections::BTreeSet;
use toml::{Table, Value};

/// The keys of a rules file.
pub(crate) const FILE_KEYS: [&str; 3] = ["id", "as_path", "rule"];

impl OfItem for u32 {
    ghost use Rattle.fs_conf.specs.Rules.{number_of};

    ghost says = { number_of };

    fn of_item(_alloc: Global, item: &Value) -> Result<u32, ConfFault> {
        number_of(item).ok_or(ConfFault::Refused)
    }
}

/// The AS number that an item is.
pub(crate) fn number_of(item: &Value) -> Option<u32>
    ensures { result ≡ number_of (view item.now) }
{
    match item {
        Value::Integer(n) => match u32::try_from(*n) {
            Ok(n) if 1 <= n => Some(n),
            _ => None,
        },
        _ => None,
    }
}

pub(crate) fn as_path_at(alloc: Global, table: &Table, key: &str) -> Result<Numbers, ConfFault>
    ensures ok { IfOk result (λ numbers. as_path_in (get_member key.now (table_view table.now)) ≡ Some numbers) }
    ensures refused { IsErrOf result ConfFault.Refused
        → as_path_in (get_member key.now (table_view table.now)) ≡ None }
{
    let Some(items) = array_at(table, key) else {
        return Err(ConfFault::Refused);
    };
    Ok(Numbers::new(each_item::<u32>(alloc, items)?))
}

/// Whether no two are one rule.
fn are_single(alloc: Global, rules: &[Sent]) -> Result<bool, Memory>
    ensures { IfOk result (λ single. single ≡ are_single rules.now) }
{
    let mut seen = BTreeSet::new(alloc);
    for sent in rules {
        if !see(&mut seen, sent)? {
            return Ok(false);
        }
    }
    Ok(true)
}

/// Notes a rule, and answers whether it is new.
pub(crate) fn see(seen: &mut BTreeSet<Ranked>, sent: &Sent) -> Result<bool, Memory>
    ensures { IfOk result (λ new. Sees seen.old seen.new sent.now new) }
{
    let rule = sent.rule.copy()?;
    Ok(seen.insert(Ranked { rule })?)
}

fn rules_of(alloc: Global, value: &Value) -> Result<SentList, ConfFault>
    ensures ok { IfOk result (λ rules. rules_in (Some (view value.now)) ≡ Some rules) }
    ensures refused { IsErrOf result ConfFault.Refused → rules_in (Some (view value.now)) ≡ None }
{
    let Some(items) = value.as_array() else {
        return Err(ConfFault::Refused);
    };
    let rules = each_item::<Sent>(alloc, items)?;
    if are_single(alloc, &rules)? {
        Ok(SentList::new(rules))
    } else {
        Err(ConfFault::Refused)
    }
}

fn rules_at(alloc: Global, table: &Table, key: &str) -> Result<SentList, ConfFault>
    ensures ok { IfOk result (λ rules. rules_in (get_member key.now (table_view table.now)) ≡ Some rules) }
    ensures refused { IsErrOf result ConfFault.Refused
        → rules_in (get_member key.now (table_view table.now)) ≡ None }
{
    match value_at(table, key) {
        None => Ok(SentList::new(Vec::new(alloc))),
        Some(value) => rules_of(alloc, value),
    }
}

pub(crate) fn address_at(table: &Table, key: &str) -> Option<u32>
    ensures { result ≡ written ipv4_of (get_member key.now (table_view table.now)) }
{
    read_ipv4(text_at(table, key)?)
}

/// The same, where it may be sent for the peer with the lowest number.
fn sendable(config: &Config, sending: Sending) -> Result<Sending, ConfFault>
    ensures ok { IfOk result (λ found. sendable config.now sending ≡ Some found) }
    ensures refused { IsErrOf result ConfFault.Refused → sendable config.now sending ≡ None }
{
    let Some(peer) = sender(config) else {
        return Err(ConfFault::Refused);
    };
    if sending.may_be_sent(config, peer) {
        Ok(sending)
    } else {
        Err(ConfFault::Refused)
    }
}

fn sending_in(alloc: Global, table: &Table, config: &Config) -> Result<Sending, ConfFault>
    ensures ok { IfOk result (λ sending. sending_of_members config.now (table_view table.now) ≡ Some sending) }
    ensures refused { IsErrOf result ConfFault.Refused
        → sending_of_members config.now (table_view table.now) ≡ None }
{
    let sending = Sending {
        id: address_at(table, "id").ok_or(ConfFault::Refused)?,
        as_path: as_path_at(alloc, table, "as_path")?,
        rules: rules_at(alloc, table, "rule")?,
    };
    sendable(config, sending)
}

pub(crate) fn sending_from(
    alloc: Global,
    table: &Table,
    config: &Config,
) -> Result<Sending, ConfFault>
    ensures ok { IfOk result (λ sending. sending_of_document config.now (table_view table.now) ≡ Some sending) }
    ensures refused { IsErrOf result ConfFault.Refused
        → sending_of_document config.now (table_view table.now) ≡ None }
{
    if has_only(table, &FILE_KEYS) {
        return sending_in(alloc, table, config);
    }
    Err(ConfFault::Refused)
}

/// Reads a rules file: a TOML document with `id` (dotted IPv4), `as_path` (an array of at most 255 AS numbers from 1 to
/// 4294967295) and none or more tables `[[rule]]`, no two of which give one rule. Each rule's UPDATE to the peer with
/// the lowest number fits the 4096 octets of a message. A file with any other key is refused.
///
/// # Errors
///
/// `Refused` where the octets aren't such a file, `Memory` where the machine refused memory.
pub fn read_rules(alloc: Global, octets: &[u8], config: &Config) -> Result<Sending, ConfFault>
    ensures ok { IfOk result (λ sending. rules_of config.now octets.now ≡ Some sending) }
    ensures refused { IsErrOf result ConfFault.Refused → rules_of config.now octets.now ≡ None }
{
    let table = read_document(alloc, octets)?;
    sending_from(alloc, &table, config)
}
