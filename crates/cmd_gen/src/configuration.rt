//! The configuration that the tape is played under.

ghost use Rattle.std.specs.Prelude.{◌≡◌, IfOk};
ghost use Rattle.cmd_gen.specs.Configuration.{three_peers, peer_at};

use fs_base::{Address, Config, Memory, Peer, Peers};
use std::alloc::Global;

/// The configuration that the tape is played under: AS 65000, and three peers at 198.51.100.1, .2 and .3, of which the
/// third is internal.
pub fn three_peers(alloc: Global) -> Result<Config, Memory>
    ensures { IfOk result (λ config. config ≡ three_peers) }
{
    let mut peers = Vec::with_capacity(alloc, 3)?;
    peers.push_reserved(peer(1, 65001));
    peers.push_reserved(peer(2, 65002));
    peers.push_reserved(peer(3, 65000));
    Ok(Config {
        local_as: 65000,
        local_id: 0xc000_02fe,
        allow_no_destination: false,
        empty_path_valid: true,
        hold_time: 0,
        peers: Peers::new(peers),
    })
}

/// The peer of a number from 1 to 3, at 198.51.100.1, .2 or .3.
fn peer(number: u16, asn: u32) -> Peer
    ensures { result ≡ peer_at number asn }
{
    Peer {
        number,
        address: Address::V4(0xc633_6400 + u32::from(number)),
        asn,
        max_routes: None,
    }
}
