//! The first fault of a configuration file, found.

ghost use Rattle.std.specs.BTreeMap.{keys};
ghost use Rattle.std.specs.Prelude.{◌≡◌, ◌==◌, ◌≤◌, ◌<◌, ◌^◌, [], codes, find, map, nat_le, not, ◌&&◌, option_map, string_bytes, is_some, take};
ghost use Rattle.std.specs.Prelude.{length, Some, None, IfOk, IfErr};
ghost use Rattle.std.specs.{List.{list_all, list_any}, Option.{option_copied}};
ghost use Rattle.toml.specs.{Data.{get_member}, View.{items_view, table_view, view}};
ghost use Rattle.fs_conf.specs.{Address.{address_of}, Config.{config_of, config_of_document, written}, Document.{document_of}, Fields.{is_named}};
ghost use Rattle.fs_conf.specs.declared.fault.{ConfigFault.TheVariants.{Memory as NoMemory}, Unread.TheVariants.{At}};
ghost use Rattle.fs_conf.specs.Fault.{IsFirstFault, IsUnread, config_fault, document_checks, each_fault, first_again, advance, first_of, first_other};
ghost use Rattle.fs_conf.specs.Fault.{is_bare, is_bare_octet, is_inner, is_kind, is_plain_octet, item_fault, items_fault, key_text, number_of_peer};
ghost use Rattle.fs_conf.specs.Fault.{numbers_of_peers, own_fault, peer_checks, peer_fault, peers_fault, place_text, position_of, reason_at};
ghost use Rattle.fs_conf.specs.Fault.{repeated, spot_shown, unfit, unfit_shown, unknown};

use crate::address::read_address;
use crate::config::{
    CONFIG_KEYS, ConfFault, PEER_KEYS, PEER_LIMIT, config_from, hold_time_at, identifier_at,
    limit_at,
};
use crate::fault::{ConfigFault, KeyReason, Unread};
use crate::fields::{array_at, flag_at, number_at, text_at, value_at};
use crate::laws::names_the_fault;
use fs_base::{Config, Memory};
use std::alloc::Global;
use std::str;
use toml::{Table, Value};

/// Of what kind the value at a key has to be.
#[derive(Clone, Copy, Debug, PartialEq, Eq, Drop)]
pub(crate) enum Kind {
    Integer,
    Boolean,
    Text,
    Array,
}

/// A key of a table, and what is wrong with it.
#[derive(Clone, Copy, Drop)]
pub(crate) struct Unfit<'t> {
    pub(crate) key: &'t str,
    pub(crate) reason: KeyReason,
}

/// Where a fault stands: at a key of the document, at an item of the array there, counted from 1, or at a key of this
/// item.
#[derive(Clone, Copy, Drop)]
pub(crate) struct Spot<'t> {
    pub(crate) key: &'t str,
    pub(crate) item: Option<usize>,
    pub(crate) inner: Option<&'t str>,
    pub(crate) reason: KeyReason,
}

/// Whether an octet is inside a character of UTF-8 (RFC 3629 section 3).
fn is_inner(octet: u8) -> bool
    ensures { result ≡ is_inner octet }
{
    128 <= octet && octet < 192
}

/// The place behind one more octet: the line, and the character in it, both counted from 1.
fn advance(at: (usize, usize), octet: u8) -> (usize, usize)
    requires { (at.0 < 2 ^ 63) × (at.1 < 2 ^ 63) }
    ensures { result ≡ advance at octet }
{
    if octet == b'\n' {
        return (at.0 + 1, 1);
    }
    if is_inner(octet) {
        return at;
    }
    (at.0, at.1 + 1)
}

/// The line, and the character in it, of the place behind these octets, both counted from 1.
fn position_of(before: &[u8]) -> (usize, usize)
    ensures { result ≡ position_of before.now }
{
    let mut at = (1, 1);
    for octet in before {
        at = advance(at, *octet);
    }
    at
}

/// The fault of octets that are no document, where reading ended behind so many of them.
fn broken_at(octets: &[u8], place: usize) -> Unread
    requires { place ≤ length octets.now }
    ensures within { place ≤ length octets.now }
    ensures fault { result ≡ At (position_of (take place octets.now)).0 (position_of (take place octets.now)).1 }
{
    let (line, column) = position_of(&octets[..place]);
    Unread::At { line, column }
}

/// The table of a document in UTF-8.
pub(crate) fn read_table(alloc: Global, octets: &[u8]) -> Result<Table, Unread>
    ensures ok { IfOk result (λ table. document_of octets.now ≡ Some (table_view table)) }
    ensures unread { IfErr result (IsUnread octets.now) }
{
    let text = match str::from_utf8(octets) {
        Ok(text) => text,
        Err(error) => return Err(broken_at(octets, error.valid_up_to())),
    };
    match toml::table_from_str(alloc, text) {
        Ok(table) => Ok(table),
        Err(error) => match error.span() {
            Some(span) => Err(broken_at(octets, span.start)),
            None => Err(Unread::Memory),
        },
    }
}

/// Whether a value is of this kind.
fn is_kind(kind: Kind, value: &Value) -> bool
    ensures { result ≡ is_kind kind (view value.now) }
{
    match kind {
        Kind::Integer => value.is_integer(),
        Kind::Boolean => value.is_bool(),
        Kind::Text => value.is_str(),
        Kind::Array => value.is_array(),
    }
}

/// Why what stands at a key isn't accepted.
pub(crate) fn reason_at(kind: Kind, accepted: bool, found: Option<&Value>) -> Option<KeyReason>
    ensures { result ≡ reason_at kind accepted (option_map (λ value. view value.now) found.entry) }
{
    if accepted {
        return None;
    }
    match found {
        None => Some(KeyReason::Missing),
        Some(value) if is_kind(kind, value) => Some(KeyReason::Value),
        Some(_) => Some(KeyReason::Kind),
    }
}

/// What is wrong at a key, where what stands there isn't accepted.
pub(crate) fn judged<'k>(
    table: &Table,
    key: &'k str,
    kind: Kind,
    accepted: bool,
) -> Option<Unfit<'k>>
    ensures { option_map unfit_shown result
        ≡ option_map (unfit key.now) (reason_at kind accepted (get_member key.now (table_view table.now))) }
{
    let reason = reason_at(kind, accepted, value_at(table, key))?;
    Some(Unfit { key, reason })
}

/// The first key of the table, by the order of octets, that is none of these, as the map has it.
fn other_key<'t>(table: &'t Table, names: &[&str]) -> Option<&'t String>
    ensures { option_copied result ≡ find (λ key. not (is_named names.now (string_bytes key))) (keys table.now) }
{
    table.keys().find(|key| !names.contains(&key.as_str()))
}

/// The first key of the table, by the order of octets, that is none of these.
fn first_other<'t>(table: &'t Table, names: &[&str]) -> Option<&'t str>
    ensures { option_copied result ≡ first_other (map (λ name. name.now) names.now) (table_view table.now) }
{
    match other_key(table, names) {
        Some(key) => Some(key.as_str()),
        None => None,
    }
}

/// What is wrong where the table has another key than these.
pub(crate) fn unknown<'t>(table: &'t Table, names: &[&str]) -> Option<Unfit<'t>>
    ensures { option_map unfit_shown result ≡ unknown (map (λ name. name.now) names.now) (table_view table.now) }
{
    let key = first_other(table, names)?;
    Some(Unfit {
        key,
        reason: KeyReason::Unknown,
    })
}

/// The first of the document's keys, without `peer`, at which something is wrong.
fn document_unfit(table: &Table) -> Option<Unfit<'_>>
    ensures { option_map unfit_shown result ≡ first_of document_checks (table_view table.now) }
{
    let asn = number_at(table, "local_as", 1, u32::MAX).is_some();
    let id = identifier_at(table, "local_id").is_some();
    let allows = flag_at(table, "allow_no_destination", false).is_some();
    let valid = flag_at(table, "empty_path_valid", true).is_some();
    let hold_time = hold_time_at(table, "hold_time").is_some();
    unknown(table, &CONFIG_KEYS)
        .or(judged(table, "local_as", Kind::Integer, asn))
        .or(judged(table, "local_id", Kind::Text, id))
        .or(judged(table, "allow_no_destination", Kind::Boolean, allows))
        .or(judged(table, "empty_path_valid", Kind::Boolean, valid))
        .or(judged(table, "hold_time", Kind::Integer, hold_time))
}

/// The address of a peer is one.
fn has_address(table: &Table) -> bool
    ensures { result ≡ is_some (written address_of (get_member (codes "address") (table_view table.now))) }
{
    match text_at(table, "address") {
        Some(text) => read_address(text).is_some(),
        None => false,
    }
}

/// The first of a peer's keys at which something is wrong.
fn peer_unfit(table: &Table) -> Option<Unfit<'_>>
    ensures { option_map unfit_shown result ≡ first_of peer_checks (table_view table.now) }
{
    let number = number_at(table, "number", 1, 65535).is_some();
    let address = has_address(table);
    let asn = number_at(table, "as", 1, u32::MAX).is_some();
    let limit = limit_at(table, "max_routes").is_some();
    unknown(table, &PEER_KEYS)
        .or(judged(table, "number", Kind::Integer, number))
        .or(judged(table, "address", Kind::Text, address))
        .or(judged(table, "as", Kind::Integer, asn))
        .or(judged(table, "max_routes", Kind::Integer, limit))
}

/// A fault at a key of the document.
pub(crate) fn own_fault(found: Unfit<'_>) -> Spot<'_>
    ensures { spot_shown result ≡ own_fault (unfit_shown found.entry) }
{
    Spot {
        key: found.key,
        item: None,
        inner: None,
        reason: found.reason,
    }
}

/// A fault at a key of the document, where there is one.
pub(crate) fn own_found(found: Option<Unfit<'_>>) -> Option<Spot<'_>>
    ensures { option_map spot_shown result ≡ option_map own_fault (option_map unfit_shown found.entry) }
{
    Some(own_fault(found?))
}

/// A fault of the item at this place of the array at a key, or at a key of the item.
pub(crate) fn item_fault<'t>(
    key: &'t str,
    place: usize,
    inner: Option<&'t str>,
    reason: KeyReason,
) -> Spot<'t>
    ensures { spot_shown result ≡ item_fault key.entry.now place (option_map (λ key. key.now) inner.entry) reason }
{
    Spot {
        key,
        item: Some(place),
        inner,
        reason,
    }
}

/// A fault of the item at this place, at the key of it where it is.
pub(crate) fn item_found<'t>(
    key: &'t str,
    place: usize,
    found: Option<Unfit<'t>>,
) -> Option<Spot<'t>>
    ensures { option_map spot_shown result
        ≡ option_map (λ found. item_fault key.entry.now place (Some found.key) found.reason)
        (option_map unfit_shown found.entry) }
{
    let found = found?;
    Some(item_fault(key, place, Some(found.key), found.reason))
}

/// What is wrong with the peer at this place.
fn peer_fault(place: usize, value: &Value) -> Option<Spot<'_>>
    ensures { option_map spot_shown result ≡ peer_fault place (view value.now) }
{
    match value.as_table() {
        Some(table) => item_found("peer", place, peer_unfit(table)),
        None => Some(item_fault("peer", place, None, KeyReason::Kind)),
    }
}

/// The first peer that has a fault.
fn each_peer(items: &[Value]) -> Option<Spot<'_>>
    ensures { option_map spot_shown result ≡ each_fault peer_fault 1 (items_view items.now) }
{
    for (place, item) in items.iter().enumerate() {
        match peer_fault(place + 1, item) {
            Some(spot) => return Some(spot),
            None => {}
        }
    }
    None
}

/// The number of a peer, 0 where it has none.
fn number_of_peer(value: &Value) -> u32
    ensures { result ≡ number_of_peer (view value.now) }
{
    match value.as_table() {
        Some(table) => number_at(table, "number", 1, 65535).unwrap_or(0),
        None => 0,
    }
}

/// Whether one of the peers has this number.
fn is_among(number: u32, items: &[Value]) -> bool
    ensures { result ≡ list_any (λ item. number == number_of_peer (view item)) items.now }
{
    items.iter().any(|item| number == number_of_peer(item))
}

/// The place, counted from 1, of the first peer that has the number of an earlier one.
fn first_again(items: &[Value]) -> Option<usize>
    ensures { result ≡ first_again [] (numbers_of_peers (items_view items.now)) }
{
    for (place, item) in items.iter().enumerate() {
        if is_among(number_of_peer(item), &items[..place]) {
            return Some(place + 1);
        }
    }
    None
}

/// The first peer that has the number of an earlier one.
fn repeated(items: &[Value]) -> Option<Spot<'static>>
    ensures { option_map spot_shown result ≡ repeated (items_view items.now) }
{
    let place = first_again(items)?;
    Some(item_fault("peer", place, Some("number"), KeyReason::Repeated))
}

/// Whether a configuration may have so many peers.
fn is_count(count: usize) -> bool
    ensures { result ≡ (nat_le 1 count && nat_le count 1024) }
{
    1 <= count && count <= PEER_LIMIT
}

/// What is wrong with the peers of an array.
fn items_fault(items: &[Value]) -> Option<Spot<'_>>
    ensures { option_map spot_shown result ≡ items_fault (items_view items.now) }
{
    if is_count(items.len()) {
        each_peer(items).or(repeated(items))
    } else {
        Some(own_fault(Unfit {
            key: "peer",
            reason: KeyReason::Value,
        }))
    }
}

/// What is wrong with the peers.
fn peers_fault(table: &Table) -> Option<Spot<'_>>
    ensures { option_map spot_shown result ≡ peers_fault (table_view table.now) }
{
    match array_at(table, "peer") {
        Some(items) => items_fault(items),
        None => own_found(judged(table, "peer", Kind::Array, false)),
    }
}

/// The first fault of a document as a configuration.
fn config_fault(table: &Table) -> Option<Spot<'_>>
    ensures { option_map spot_shown result ≡ config_fault (table_view table.now) }
{
    match document_unfit(table) {
        Some(found) => Some(own_fault(found)),
        None => peers_fault(table),
    }
}

/// Whether each octet of a key may stand without quotes.
fn has_bare_octets(key: &str) -> bool
    ensures { result ≡ list_all is_bare_octet key.now }
{
    key.as_bytes().iter().all(|octet| is_bare_octet(*octet))
}

/// Whether a key is written without quotes.
fn is_bare(key: &str) -> bool
    ensures { result ≡ is_bare key.now }
{
    has_bare_octets(key) && key.len() != 0
}

fn is_bare_octet(octet: u8) -> bool
    ensures { result ≡ is_bare_octet octet }
{
    (97 <= octet && octet <= 122)
        || (65 <= octet && octet <= 90)
        || (48 <= octet && octet <= 57)
        || octet == 45
        || octet == 95
}

/// Whether a key can stand between quotes without escapes.
fn is_plain(key: &str) -> bool
    ensures { result ≡ list_all is_plain_octet key.now }
{
    key.as_bytes().iter().all(|octet| is_plain_octet(*octet))
}

fn is_plain_octet(octet: u8) -> bool
    ensures { result ≡ is_plain_octet octet }
{
    32 <= octet && octet != 34 && octet != 92 && octet != 127
}

/// A key as it is written.
fn key_text(alloc: Global, key: &str) -> Result<String, Memory>
    ensures { IfOk result (λ text. string_bytes text ≡ key_text key.now) }
{
    if is_bare(key) {
        return Ok(format!(in alloc; "{key}")?);
    }
    if is_plain(key) {
        return Ok(format!(in alloc; "\"{key}\"")?);
    }
    let octets = hex::encode(alloc, key)?;
    Ok(format!(in alloc; "0x{octets}")?)
}

/// The place of a fault as a user writes it.
pub(crate) fn place_text(alloc: Global, spot: &Spot<'_>) -> Result<String, Memory>
    ensures { IfOk result (λ text. string_bytes text ≡ place_text (spot_shown spot.now)) }
{
    let mut text = key_text(alloc, spot.key)?;
    if let Some(place) = spot.item {
        write!(text, " {place}")?;
    }
    if let Some(key) = spot.inner {
        let inner = key_text(alloc, key)?;
        write!(text, " {inner}")?;
    }
    Ok(text)
}

/// The configuration that a document without a fault is.
fn accepted(alloc: Global, table: &Table) -> Result<Config, ConfigFault>
    requires { config_fault (table_view table.now) ≡ None }
    ensures ok { IfOk result (λ config. config_of_document (table_view table.now) ≡ Some config) }
    ensures memory { IfErr result (λ fault. fault ≡ NoMemory) }
{
    names_the_fault();
    match config_from(alloc, table) {
        Ok(config) => Ok(config),
        Err(ConfFault::Memory) => Err(ConfigFault::Memory),
        Err(ConfFault::Refused) => unreachable!(),
    }
}

/// Reads a configuration file as [`read_config`](crate::read_config) does, and tells its first fault.
///
/// # Errors
///
/// `Text` where the octets are no document of TOML in UTF-8. `Key` at the first key, in the order in which they are
/// judged, that isn't accepted: one that the document doesn't have, by the order of octets, then `local_as`, `local_id`,
/// `allow_no_destination`, `empty_path_valid`, `hold_time` and `peer`; of the peers how many there are, each in turn by
/// its keys likewise, and then whether one has the number of an earlier one. `Memory` where the machine refused memory.
pub fn judge_config(alloc: Global, octets: &[u8]) -> Result<Config, ConfigFault>
    ensures ok { IfOk result (λ config. config_of octets.now ≡ Some config) }
    ensures fault { IfErr result (IsFirstFault octets.now) }
{
    let table = read_table(alloc, octets)?;
    match config_fault(&table) {
        Some(spot) => Err(ConfigFault::Key {
            place: place_text(alloc, &spot)?,
            reason: spot.reason,
        }),
        None => accepted(alloc, &table),
    }
}
