//! The first fault of a rules file, found.

ghost use Rattle.std.specs.Option.{option_copied, option_or};
ghost use Rattle.std.specs.Prelude.{◌≡◌, ◌≤◌, ◌+◌, ◌&&◌, suc, length, codes, nat_le, option_and_then, option_map, is_some, false, Some, None, IfOk};
ghost use Rattle.std.specs.Prelude.{IfErr};
ghost use Rattle.toml.specs.{Data.{as_str, get_member}, View.{items_view, table_view, view}};
ghost use Rattle.fs_speaker.specs.Sending.{sender_of};
ghost use Rattle.fs_conf.specs.declared.faults.Kind.TheVariants.{Integer};
ghost use Rattle.fs_conf.specs.{Config.{written}, Document.{each_item}};
ghost use Rattle.fs_conf.specs.Fault.{each_fault, first_of, item_fault, own_fault, reason_at, spot_shown, unfit_shown};
ghost use Rattle.fs_conf.specs.Rules.{as_path_in, number_of, rules_of, sending_of_document};
ghost use Rattle.fs_conf.specs.Sent.{actions_in, family_of, octets_of, sent_of_data, sent_of_text};
ghost use Rattle.fs_conf.specs.RuleFault.{IsFirstRulesFault, IsOfDocument, IsTold, SaysFrame, SaysOctet, SaysValue, SaysWord, bad_nlri};
ghost use Rattle.fs_conf.specs.RuleFault.{file_checks, first_but, first_same, is_at, is_value, judged_rule, item_at, list_fault, listed};
ghost use Rattle.fs_conf.specs.RuleFault.{listed_fault, may_go, nlri_at, number_fault, numbers_fault, octet_checks, path_fault, rule_at, rule_check};
ghost use Rattle.fs_conf.specs.RuleFault.{rule_fault, rule_in, rules_fault, sents_fault, text_checks, unsent};

use crate::array::each_item;
use crate::config::ConfFault;
use crate::fault::{KeyReason, RulesFault};
use crate::faults::{
    Kind, Spot, Unfit, item_fault, item_found, judged, own_fault, own_found, place_text,
    read_table, reason_at, unknown,
};
use crate::fields::{array_at, text_at, value_at};
use crate::laws::names_the_rules_fault;
use crate::rules::{FILE_KEYS, address_at, as_path_at, number_of, see, sending_from};
use crate::sent::{
    RULE_KEYS, TEXT_KEYS, actions_at, family_at, octets_of, rule_at as read_rule_at, worded_at,
};
use crate::worded::text_fault;
use fs_base::{Config, Family, Memory, Numbers, Peer};
use fs_nlri::{NlriFault, Reason, decode};
use fs_speaker::{Sending, Sent, SentList, sender};
use fs_text::TextFault;
use std::alloc::Global;
use std::collections::BTreeSet;
use toml::{Table, Value};

/// What is wrong at the keys of the document, but for the path and the rules.
fn file_unfit(table: &Table) -> Option<Unfit<'_>>
    ensures { option_map unfit_shown result ≡ first_of file_checks (table_view table.now) }
{
    let id = address_at(table, "id").is_some();
    unknown(table, &FILE_KEYS).or(judged(table, "id", Kind::Text, id))
}

/// Why an item of the path isn't taken.
fn number_reason(item: &Value) -> Option<KeyReason>
    ensures { result ≡ reason_at Integer (is_some (number_of (view item.now))) (Some (view item.now)) }
{
    reason_at(Kind::Integer, number_of(item).is_some(), Some(item))
}

/// What is wrong with the item of the path at this place.
fn number_fault(place: usize, item: &Value) -> Option<Spot<'static>>
    ensures { option_map spot_shown result ≡ number_fault place (view item.now) }
{
    let reason = number_reason(item)?;
    Some(item_fault("as_path", place, None, reason))
}

/// The first item of the path that has a fault.
fn each_number(items: &[Value]) -> Option<Spot<'static>>
    ensures { option_map spot_shown result ≡ each_fault number_fault 1 (items_view items.now) }
{
    for (place, item) in items.iter().enumerate() {
        match number_fault(place + 1, item) {
            Some(spot) => return Some(spot),
            None => {}
        }
    }
    None
}

/// Whether a path may have so many numbers.
fn is_path(count: usize) -> bool
    ensures { result ≡ nat_le count 255 }
{
    count <= 255
}

/// What is wrong with the items of the path.
fn numbers_fault(items: &[Value]) -> Option<Spot<'static>>
    ensures { option_map spot_shown result ≡ numbers_fault (Some (items_view items.now)) }
{
    if is_path(items.len()) {
        each_number(items)
    } else {
        Some(own_fault(Unfit {
            key: "as_path",
            reason: KeyReason::Value,
        }))
    }
}

/// What is wrong with the path.
fn path_fault(table: &Table) -> Option<Spot<'static>>
    ensures { option_map spot_shown result ≡ path_fault (table_view table.now) }
{
    match array_at(table, "as_path") {
        Some(items) => numbers_fault(items),
        None => own_found(judged(table, "as_path", Kind::Array, false)),
    }
}

/// Whether the text of a rule is one.
fn has_text(alloc: Global, table: &Table) -> Result<bool, Memory>
    ensures { IfOk result (λ has.
        has ≡ is_some (written sent_of_text (get_member (codes "text") (table_view table.now)))) }
{
    match worded_at(alloc, table, "text") {
        Ok(_) => Ok(true),
        Err(ConfFault::Refused) => Ok(false),
        Err(ConfFault::Memory) => Err(Memory),
    }
}

/// Whether the octets of a rule are one of the family.
fn has_rule(alloc: Global, family: Option<Family>, table: &Table) -> Result<bool, Memory>
    ensures { IfOk result (λ has.
        has ≡ is_some (rule_in family (get_member (codes "nlri") (table_view table.now)))) }
{
    let Some(family) = family else {
        return Ok(false);
    };
    match read_rule_at(alloc, family, table, "nlri") {
        Ok(_) => Ok(true),
        Err(ConfFault::Refused) => Ok(false),
        Err(ConfFault::Memory) => Err(Memory),
    }
}

/// Whether the actions of a rule are some.
fn has_actions(alloc: Global, table: &Table) -> Result<bool, Memory>
    ensures { IfOk result (λ has.
        has ≡ is_some (actions_in (get_member (codes "actions") (table_view table.now)))) }
{
    match actions_at(alloc, table, "actions") {
        Ok(_) => Ok(true),
        Err(ConfFault::Refused) => Ok(false),
        Err(ConfFault::Memory) => Err(Memory),
    }
}

/// What is wrong at the keys of a rule in words.
fn text_unfit(alloc: Global, table: &Table) -> Result<Option<Unfit<'_>>, Memory>
    ensures { IfOk result (λ found. option_map unfit_shown found ≡ first_of text_checks (table_view table.now)) }
{
    let text = has_text(alloc, table)?;
    Ok(unknown(table, &TEXT_KEYS).or(judged(table, "text", Kind::Text, text)))
}

/// What is wrong at the keys of a rule that is told by its octets.
fn octets_unfit(alloc: Global, table: &Table) -> Result<Option<Unfit<'_>>, Memory>
    ensures { IfOk result (λ found. option_map unfit_shown found ≡ first_of octet_checks (table_view table.now)) }
{
    let family = family_at(table, "family");
    let rule = has_rule(alloc, family, table)?;
    let actions = has_actions(alloc, table)?;
    Ok(first_unfit(table, family.is_some(), rule, actions))
}

/// The first of these keys of a rule that isn't accepted, after one that it doesn't have.
fn first_unfit(table: &Table, family: bool, rule: bool, actions: bool) -> Option<Unfit<'_>>
    ensures { family ≡ is_some (written family_of (get_member (codes "family") (table_view table.now)))
        → rule ≡ is_some (rule_in (written family_of (get_member (codes "family") (table_view table.now)))
        (get_member (codes "nlri") (table_view table.now)))
        → actions ≡ is_some (actions_in (get_member (codes "actions") (table_view table.now)))
        → option_map unfit_shown result ≡ first_of octet_checks (table_view table.now) }
{
    unknown(table, &RULE_KEYS)
        .or(judged(table, "family", Kind::Text, family))
        .or(judged(table, "nlri", Kind::Text, rule))
        .or(judged(table, "actions", Kind::Text, actions))
}

/// What is wrong at the keys of a rule.
fn rule_unfit(alloc: Global, table: &Table) -> Result<Option<Unfit<'_>>, Memory>
    ensures { IfOk result (λ found. option_map unfit_shown found ≡ rule_check (table_view table.now)) }
{
    if value_at(table, "text").is_some() {
        text_unfit(alloc, table)
    } else {
        octets_unfit(alloc, table)
    }
}

/// What is wrong with the rule at this place.
fn rule_fault(alloc: Global, place: usize, value: &Value) -> Result<Option<Spot<'_>>, Memory>
    ensures { IfOk result (λ found. option_map spot_shown found ≡ rule_fault place (view value.now)) }
{
    match value.as_table() {
        Some(table) => Ok(item_found("rule", place, rule_unfit(alloc, table)?)),
        None => Ok(Some(item_fault("rule", place, None, KeyReason::Kind))),
    }
}

/// The first rule that has a fault by itself.
fn each_rule(alloc: Global, items: &[Value]) -> Result<Option<Spot<'_>>, Memory>
    ensures { IfOk result (λ found. option_map spot_shown found ≡ each_fault rule_fault 1 (items_view items.now)) }
{
    for (place, item) in items.iter().enumerate() {
        match rule_fault(alloc, place + 1, item)? {
            Some(spot) => return Ok(Some(spot)),
            None => {}
        }
    }
    Ok(None)
}

/// The place, counted from 1, of the first rule that is an earlier one too.
fn first_same(alloc: Global, rules: &[Sent]) -> Result<Option<usize>, Memory>
    ensures { IfOk result (λ found. found ≡ first_same (λ rule. false) 1 rules.now) }
{
    let mut seen = BTreeSet::new(alloc);
    for (place, sent) in rules.iter().enumerate() {
        if !see(&mut seen, sent)? {
            return Ok(Some(place + 1));
        }
    }
    Ok(None)
}

/// Whether a rule may be sent, under this path, for the peer.
fn may_go(
    alloc: Global,
    config: &Config,
    peer: &Peer,
    path: &Numbers,
    sent: &Sent,
) -> Result<bool, Memory>
    ensures { IfOk result (λ yes. yes ≡ may_go config.now peer.now path.now sent.now) }
{
    let copy = Sent {
        rule: sent.rule.copy()?,
        actions: sent.actions.copy()?,
    };
    let sending = Sending {
        id: 0,
        as_path: path.copy()?,
        rules: SentList::new(vec![in alloc; copy]?),
    };
    Ok(sending.may_be_sent(config, peer))
}

/// The place, counted from 1, of the first rule that may not be sent for the peer.
fn first_long(
    alloc: Global,
    config: &Config,
    peer: &Peer,
    path: &Numbers,
    rules: &[Sent],
) -> Result<Option<usize>, Memory>
    ensures { IfOk result (λ found. found ≡ first_but (may_go config.now peer.now path.now) 1 rules.now) }
{
    for (place, sent) in rules.iter().enumerate() {
        if !may_go(alloc, config, peer, path, sent)? {
            return Ok(Some(place + 1));
        }
    }
    Ok(None)
}

/// A fault of the whole rule at this place.
fn whole_fault(place: Option<usize>, reason: KeyReason) -> Option<Spot<'static>>
    ensures { option_map spot_shown result ≡ option_map (λ place. item_fault (codes "rule") place None reason) place }
{
    Some(item_fault("rule", place?, None, reason))
}

/// What is wrong where the rules are to be sent.
fn unsent(
    alloc: Global,
    config: &Config,
    path: &Numbers,
    rules: &[Sent],
) -> Result<Option<Spot<'static>>, Memory>
    ensures { IfOk result (λ found.
        option_map spot_shown found ≡ unsent config.now (sender_of config.now.peers) path.now rules.now) }
{
    match sender(config) {
        Some(peer) => {
            let place = first_long(alloc, config, peer, path, rules)?;
            Ok(whole_fault(place, KeyReason::Value))
        }
        None => Ok(Some(own_fault(Unfit {
            key: "peer",
            reason: KeyReason::Missing,
        }))),
    }
}

/// What is wrong with rules each of which is right by itself.
fn sents_fault(
    alloc: Global,
    config: &Config,
    path: &Numbers,
    rules: &[Sent],
) -> Result<Option<Spot<'static>>, Memory>
    ensures { IfOk result (λ found.
        option_map spot_shown found ≡ sents_fault config.now (Some path.now) (Some rules.now)) }
{
    let place = first_same(alloc, rules)?;
    match whole_fault(place, KeyReason::Repeated) {
        Some(spot) => Ok(Some(spot)),
        None => unsent(alloc, config, path, rules),
    }
}

/// What is wrong with rules each of which is right by itself, if they and the path are.
fn joint_fault(
    alloc: Global,
    config: &Config,
    table: &Table,
    items: &[Value],
) -> Result<Option<Spot<'static>>, Memory>
    ensures { IfOk result (λ found.
        option_map spot_shown found ≡ sents_fault config.now
        (as_path_in (get_member (codes "as_path") (table_view table.now)))
        (each_item sent_of_data (items_view items.now))) }
{
    let path = match as_path_at(alloc, table, "as_path") {
        Ok(path) => path,
        Err(ConfFault::Refused) => return Ok(None),
        Err(ConfFault::Memory) => return Err(Memory),
    };
    match each_item::<Sent>(alloc, items) {
        Ok(rules) => sents_fault(alloc, config, &path, &rules),
        Err(ConfFault::Refused) => Ok(None),
        Err(ConfFault::Memory) => Err(Memory),
    }
}

/// What is wrong with the items at `rule`.
fn listed_fault<'t>(
    alloc: Global,
    config: &Config,
    table: &Table,
    items: &'t [Value],
) -> Result<Option<Spot<'t>>, Memory>
    ensures { IfOk result (λ found.
        option_map spot_shown found ≡ listed_fault config.now
        (as_path_in (get_member (codes "as_path") (table_view table.now)))
        (Some (items_view items.entry.now))) }
{
    match each_rule(alloc, items)? {
        Some(spot) => Ok(Some(spot)),
        None => joint_fault(alloc, config, table, items),
    }
}

/// What stands at `rule`, where that is an array; nothing where the key is missing.
fn listed(table: &Table) -> Option<&[Value]>
    ensures { option_map (λ items. items_view items.now) result
        ≡ listed (get_member (codes "rule") (table_view table.now)) }
{
    match value_at(table, "rule") {
        Some(value) => match value.as_array() {
            Some(items) => Some(items.as_slice()),
            None => None,
        },
        None => Some(&[]),
    }
}

/// What is wrong with the rules.
fn list_fault<'t>(
    alloc: Global,
    config: &Config,
    table: &'t Table,
) -> Result<Option<Spot<'t>>, Memory>
    ensures { IfOk result (λ found. option_map spot_shown found ≡ list_fault config.now (table_view table.entry.now)) }
{
    match listed(table) {
        Some(items) => listed_fault(alloc, config, table, items),
        None => Ok(own_found(judged(table, "rule", Kind::Array, false))),
    }
}

/// What is wrong in front of the rules.
fn head_fault(table: &Table) -> Option<Spot<'_>>
    ensures { option_map spot_shown result
        ≡ option_or (option_map own_fault (first_of file_checks (table_view table.now)))
        (path_fault (table_view table.now)) }
{
    own_found(file_unfit(table)).or(path_fault(table))
}

/// The first fault of a document as a rules file.
fn rules_fault<'t>(
    alloc: Global,
    config: &Config,
    table: &'t Table,
) -> Result<Option<Spot<'t>>, Memory>
    ensures { IfOk result (λ found. option_map spot_shown found ≡ rules_fault config.now (table_view table.entry.now)) }
{
    match head_fault(table) {
        Some(spot) => Ok(Some(spot)),
        None => list_fault(alloc, config, table),
    }
}

/// The table of a rule, counted from 1.
fn rule_at(table: &Table, place: usize) -> Option<&Table>
    ensures { option_map (λ rule. table_view rule.now) result ≡ rule_at (table_view table.now) place }
{
    item_at(array_at(table, "rule")?, place.saturating_sub(1))?.as_table()
}

/// An item, counted from 0.
fn item_at(items: &[Value], place: usize) -> Option<&Value>
    ensures { option_map (λ value. view value.now) result ≡ item_at place (items_view items.now) }
{
    items.get(place)
}

/// Whether the fault is the value at this key of a rule.
fn is_value_at(spot: &Spot<'_>, key: &str) -> bool
    ensures { result ≡ (is_at key.now (spot_shown spot.now).inner && is_value spot.now.reason) }
{
    match spot.inner {
        Some(inner) => inner == key && spot.reason == KeyReason::Value,
        None => false,
    }
}

/// The rule whose value at this key is the fault.
fn judged_rule<'t>(table: &'t Table, spot: &Spot<'_>, key: &str) -> Option<&'t Table>
    ensures { option_map (λ rule. table_view rule.now) result
        ≡ judged_rule key.now (table_view table.entry.now) (spot_shown spot.now) }
{
    match spot.item {
        Some(place) if is_value_at(spot, key) => rule_at(table, place),
        _ => None,
    }
}

/// The string at `text` of the rule where that is the fault.
fn text_of_fault<'t>(table: &'t Table, spot: &Spot<'_>) -> Option<&'t str>
    ensures { option_copied result
        ≡ option_and_then (λ rule. option_and_then as_str (get_member (codes "text") rule))
        (judged_rule (codes "text") (table_view table.entry.now) (spot_shown spot.now)) }
{
    text_at(judged_rule(table, spot, "text")?, "text")
}

/// The place of a word of this text, counted from 1.
fn from_one(text: &str, word: usize) -> usize
    requires { word ≤ length text.now + 1 }
    ensures { result ≡ suc word }
{
    word + 1
}

/// The fault of a rule's text, where that is none.
fn text_told(
    alloc: Global,
    table: &Table,
    spot: &Spot<'_>,
    rule: usize,
) -> Result<Option<RulesFault>, Memory>
    requires { spot.now.item ≡ Some rule }
    ensures { IfOk result (SaysWord (table_view table.now) (spot_shown spot.now)) }
{
    let Some(text) = text_of_fault(table, spot) else {
        return Ok(None);
    };
    match text_fault(alloc, text)? {
        None => Ok(None),
        Some(TextFault::Bad { word }) => Ok(Some(RulesFault::Word {
            rule,
            word: from_one(text, word),
        })),
        Some(TextFault::TooLong) => Ok(Some(RulesFault::TooLong { rule })),
        Some(TextFault::Memory) => Err(Memory),
    }
}

/// The octets that a text at a key writes in hexadecimal.
fn octets_at(alloc: Global, table: &Table, key: &str) -> Result<Option<Vec<u8>>, Memory>
    ensures { IfOk result (λ found.
        option_map (λ octets. octets.items) found
        ≡ written octets_of (get_member key.now (table_view table.now))) }
{
    let Some(text) = text_at(table, key) else {
        return Ok(None);
    };
    match octets_of(alloc, text) {
        Ok(octets) => Ok(Some(octets)),
        Err(ConfFault::Refused) => Ok(None),
        Err(ConfFault::Memory) => Err(Memory),
    }
}

/// The family and the octets of a rule.
fn nlri_at(alloc: Global, rule: &Table) -> Result<Option<(Family, Vec<u8>)>, Memory>
    ensures { IfOk result (λ found.
        option_map (λ given. (given.0, given.1.items)) found ≡ nlri_at (table_view rule.now)) }
{
    let Some(family) = family_at(rule, "family") else {
        return Ok(None);
    };
    match octets_at(alloc, rule, "nlri")? {
        Some(octets) => Ok(Some((family, octets))),
        None => Ok(None),
    }
}

/// The family and the octets of the rule where those are the fault.
fn nlri_of_fault(
    alloc: Global,
    table: &Table,
    spot: &Spot<'_>,
) -> Result<Option<(Family, Vec<u8>)>, Memory>
    ensures { IfOk result (λ found.
        option_map (λ given. (given.0, given.1.items)) found
        ≡ bad_nlri (table_view table.now) (spot_shown spot.now)) }
{
    match judged_rule(table, spot, "nlri") {
        Some(rule) => nlri_at(alloc, rule),
        None => Ok(None),
    }
}

/// Why octets begin with no frame, and where; nothing where they begin with one.
fn frame_fault(
    alloc: Global,
    family: Family,
    octets: &[u8],
) -> Result<Option<(Reason, usize)>, Memory>
    ensures { IfOk result (SaysFrame family octets.now) }
{
    match decode(alloc, family, octets) {
        Ok(_) => Ok(None),
        Err(NlriFault::Bad { reason, place }) => Ok(Some((reason, place))),
        Err(NlriFault::Memory) => Err(Memory),
    }
}

/// The fault of a rule's octets, where they begin with no frame.
fn nlri_told(
    alloc: Global,
    table: &Table,
    spot: &Spot<'_>,
    rule: usize,
) -> Result<Option<RulesFault>, Memory>
    requires { spot.now.item ≡ Some rule }
    ensures { IfOk result (SaysOctet (table_view table.now) (spot_shown spot.now)) }
{
    let Some((family, octets)) = nlri_of_fault(alloc, table, spot)? else {
        return Ok(None);
    };
    match frame_fault(alloc, family, &octets)? {
        Some((reason, place)) => Ok(Some(RulesFault::Nlri {
            rule,
            reason,
            place,
        })),
        None => Ok(None),
    }
}

/// What is told of the value of a rule that is a text or octets.
fn value_told(
    alloc: Global,
    table: &Table,
    spot: &Spot<'_>,
    rule: usize,
) -> Result<Option<RulesFault>, Memory>
    requires { spot.now.item ≡ Some rule }
    ensures { IfOk result (SaysValue (table_view table.now) (spot_shown spot.now)) }
{
    match text_told(alloc, table, spot, rule)? {
        Some(told) => Ok(Some(told)),
        None => nlri_told(alloc, table, spot, rule),
    }
}

/// What is told of the value where it is one of a rule.
fn of_rule(alloc: Global, table: &Table, spot: &Spot<'_>) -> Result<Option<RulesFault>, Memory>
    ensures { IfOk result (SaysValue (table_view table.now) (spot_shown spot.now)) }
{
    match spot.item {
        Some(rule) => value_told(alloc, table, spot, rule),
        None => Ok(None),
    }
}

/// What is told of a fault.
fn told(alloc: Global, table: &Table, spot: &Spot<'_>) -> Result<RulesFault, Memory>
    ensures { IfOk result (IsTold (table_view table.now) (spot_shown spot.now)) }
{
    match of_rule(alloc, table, spot)? {
        Some(told) => Ok(told),
        None => Ok(RulesFault::Key {
            place: place_text(alloc, spot)?,
            reason: spot.reason,
        }),
    }
}

/// The first fault of a document that is no rules file.
fn refused_for(alloc: Global, config: &Config, table: &Table) -> Result<RulesFault, Memory>
    requires { sending_of_document config.now (table_view table.now) ≡ None }
    ensures { IfOk result (IsOfDocument config.now (table_view table.now)) }
{
    names_the_rules_fault();
    match rules_fault(alloc, config, table)? {
        Some(spot) => told(alloc, table, &spot),
        None => unreachable!(),
    }
}

/// The rules that a document says are to be sent, or its first fault.
fn judge_table(alloc: Global, table: &Table, config: &Config) -> Result<Sending, RulesFault>
    ensures ok { IfOk result (λ sending. sending_of_document config.now (table_view table.now) ≡ Some sending) }
    ensures fault { IfErr result (IsOfDocument config.now (table_view table.now)) }
{
    match sending_from(alloc, table, config) {
        Ok(sending) => Ok(sending),
        Err(ConfFault::Refused) => Err(refused_for(alloc, config, table)?),
        Err(ConfFault::Memory) => Err(RulesFault::Memory),
    }
}

/// Reads a rules file as [`read_rules`](crate::read_rules) does, and tells its first fault.
///
/// # Errors
///
/// `Text` where the octets are no document of TOML in UTF-8. Else of the first fault, in the order in which they are
/// judged: a key that the document doesn't have, by the order of octets, then `id` and `as_path`; each rule in turn, by
/// its keys likewise (with `text` it is one in words, without it one in octets); a rule that is an earlier one too; no
/// peer to send them for; a rule whose UPDATE doesn't fit a message. `Word` and `TooLong` tell of a text, `Nlri` of
/// octets that begin with no frame, `Key` of all others. `Memory` where the machine refused memory.
pub fn judge_rules(alloc: Global, octets: &[u8], config: &Config) -> Result<Sending, RulesFault>
    ensures ok { IfOk result (λ sending. rules_of config.now octets.now ≡ Some sending) }
    ensures fault { IfErr result (IsFirstRulesFault config.now octets.now) }
{
    let table = read_table(alloc, octets)?;
    judge_table(alloc, &table, config)
}
