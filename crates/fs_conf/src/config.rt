//! The configuration file.

ghost use Rattle.std.specs.{Prelude.{◌≡◌, ◌==◌, Some, None, IfOk, IsErrOf}, List.{list_any}};
ghost use Rattle.toml.specs.{Data.{get_member}, View.{view, table_view}};
ghost use Rattle.fs_conf.specs.Config.{hold_time_in, limit_in, peer_of_data, peers_in, are_distinct, identifier, config_of, config_of_document};

use crate::address::{read_address, read_ipv4};
use crate::array::{OfItem, each_item};
use crate::document::read_document;
use crate::fields::{array_at, flag_at, has_only, number_at, number_or, text_at, value_at};
use fs_base::{Config, Memory, Peer, Peers};
use std::alloc::Global;
use toml::{Table, Value};

/// Why a configuration file wasn't taken.
#[derive(Clone, Copy, Debug, PartialEq, Eq, Drop)]
pub enum ConfFault {
    /// The octets aren't such a file.
    Refused,
    /// The machine refused memory.
    Memory,
}

impl From<Memory> for ConfFault {
    ghost use Rattle.std.specs.Prelude.{◌≡◌};
    ghost use Rattle.fs_conf.specs.declared.config.ConfFault.TheVariants.{Memory as NoMemory};

    ghost from_gives = { λ e r. r ≡ NoMemory };

    fn from(_error: Memory) -> ConfFault {
        ConfFault::Memory
    }
}

pub(crate) const PEER_LIMIT: usize = 1024;

/// The keys of a configuration.
pub(crate) const CONFIG_KEYS: [&str; 6] = [
    "local_as",
    "local_id",
    "allow_no_destination",
    "empty_path_valid",
    "hold_time",
    "peer",
];

/// The keys of a peer.
pub(crate) const PEER_KEYS: [&str; 4] = ["number", "address", "as", "max_routes"];

// The peer of one item of `[[peer]]`.
fn read_peer(value: &Value) -> Option<Peer>
    ensures { result ≡ peer_of_data (view value.now) }
{
    let table = value.as_table()?;
    if !has_only(table, &PEER_KEYS) {
        return None;
    }
    let number = number_at(table, "number", 1, 65535)? as u16;
    let address = read_address(text_at(table, "address")?)?;
    let asn = number_at(table, "as", 1, u32::MAX)?;
    Some(Peer {
        number,
        address,
        asn,
        max_routes: limit_at(table, "max_routes")?,
    })
}

// How many routes a peer may hold at most, None inside where it isn't bounded.
pub(crate) fn limit_at(table: &Table, key: &str) -> Option<Option<u32>>
    ensures { result ≡ limit_in (get_member key.now (table_view table.now)) }
{
    match value_at(table, key) {
        None => Some(None),
        Some(_) => Some(Some(number_at(table, key, 1, u32::MAX)?)),
    }
}

impl OfItem for Peer {
    ghost use Rattle.fs_conf.specs.Config.{peer_of_data};

    ghost says = { peer_of_data };

    fn of_item(_alloc: Global, item: &Value) -> Result<Peer, ConfFault> {
        match read_peer(item) {
            Some(peer) => Ok(peer),
            None => Err(ConfFault::Refused),
        }
    }
}

// Whether a peer has this number.
fn is_numbered(peers: &[Peer], number: u16) -> bool
    ensures { result ≡ list_any (λ peer. peer.number == number) peers.now }
{
    peers.iter().any(|peer| peer.number == number)
}

// Whether no two peers have one number.
fn have_distinct_numbers(peers: &[Peer]) -> bool
    ensures { result ≡ are_distinct peers.now }
{
    let mut rest = peers;
    while let [first, others @ ..] = rest {
        if is_numbered(others, first.number) {
            return false;
        }
        rest = others;
    }
    true
}

// The local BGP identifier.
pub(crate) fn identifier_at(table: &Table, key: &str) -> Option<u32>
    ensures { result ≡ identifier (get_member (key.now) (table_view table.now)) }
{
    match read_ipv4(text_at(table, key)?) {
        Some(id) if id != 0 => Some(id),
        _ => None,
    }
}

// The hold time in seconds.
pub(crate) fn hold_time_at(table: &Table, key: &str) -> Option<u16>
    ensures { result ≡ hold_time_in (get_member key.now (table_view table.now)) }
{
    match number_or(table, key, 0, 0, 65535)? {
        seconds if seconds == 0 || 3 <= seconds => Some(seconds as u16),
        _ => None,
    }
}

// The peers of the array at a key.
fn peers_at(alloc: Global, table: &Table, key: &str) -> Result<Peers, ConfFault>
    ensures ok { IfOk result (λ peers. peers_in (get_member key.now (table_view table.now)) ≡ Some peers) }
    ensures refused { IsErrOf result ConfFault.Refused → peers_in (get_member key.now (table_view table.now)) ≡ None }
{
    let Some(items) = array_at(table, key) else {
        return Err(ConfFault::Refused);
    };
    let peers = each_item::<Peer>(alloc, items)?;
    if 1 <= peers.len() && peers.len() <= PEER_LIMIT && have_distinct_numbers(&peers) {
        Ok(Peers::new(peers))
    } else {
        Err(ConfFault::Refused)
    }
}

// The configuration that a document's table is.
pub(crate) fn config_from(alloc: Global, table: &Table) -> Result<Config, ConfFault>
    ensures ok { IfOk result (λ config. config_of_document (table_view table.now) ≡ Some config) }
    ensures refused { IsErrOf result ConfFault.Refused → config_of_document (table_view table.now) ≡ None }
{
    if !has_only(table, &CONFIG_KEYS) {
        return Err(ConfFault::Refused);
    }
    let refused = ConfFault::Refused;
    Ok(Config {
        local_as: number_at(table, "local_as", 1, u32::MAX).ok_or(refused)?,
        local_id: identifier_at(table, "local_id").ok_or(refused)?,
        allow_no_destination: flag_at(table, "allow_no_destination", false).ok_or(refused)?,
        empty_path_valid: flag_at(table, "empty_path_valid", true).ok_or(refused)?,
        hold_time: hold_time_at(table, "hold_time").ok_or(refused)?,
        peers: peers_at(alloc, table, "peer")?,
    })
}

/// Reads a configuration file: a TOML document with `local_as` (1 to 4294967295), `local_id` (dotted IPv4,
/// not 0.0.0.0), `allow_no_destination` (false where it is missing), `empty_path_valid` (true where it is
/// missing), `hold_time` in seconds (0, or 3 to 65535; 0 where it is missing) and 1 to 1024 tables `[[peer]]`,
/// each with `number` (1 to 65535, no two the same), `address` (dotted IPv4, or IPv6 in the forms 1 and 2 of
/// RFC 4291 section 2.2), `as` (1 to 4294967295) and `max_routes` (1 to 4294967295; not bounded where it is
/// missing). A file with any other key is refused.
pub fn read_config(alloc: Global, octets: &[u8]) -> Result<Config, ConfFault>
    ensures ok { IfOk result (λ config. config_of octets.now ≡ Some config) }
    ensures refused { IsErrOf result ConfFault.Refused → config_of octets.now ≡ None }
{
    let table = read_document(alloc, octets)?;
    config_from(alloc, &table)
}
