//! The configured peer of an address.
ghost use Rattle.std.specs.Prelude.{◌≡◌, None};
ghost use Rattle.fs_mrt.specs.Peers.{is_same, lesser, number_at};

use fs_base::{Address, Peer};

/// The lowest number of a peer of that address.
pub(crate) fn number_at(peers: &[Peer], address: Address) -> Option<u16>
    ensures { result ≡ number_at address peers.now }
{
    let mut found = None;
    for peer in peers {
        if is_same(peer.address, address) {
            found = Some(lesser(found, peer.number));
        }
    }
    found
}

pub(crate) fn is_same(one: Address, other: Address) -> bool
    ensures { result ≡ is_same one other }
{
    match (one, other) {
        (Address::V4(one), Address::V4(other)) => one == other,
        (Address::V6(one), Address::V6(other)) => one == other,
        _ => false,
    }
}

fn lesser(found: Option<u16>, number: u16) -> u16
    ensures { result ≡ lesser found number }
{
    match found {
        Some(other) => number.min(other),
        None => number,
    }
}
