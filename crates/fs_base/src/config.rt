//! Who the program is and which peers it speaks to.

ghost use Rattle.std.specs.{Prelude.{◌≡◌, ◌==◌}, Option.{option_copied}};
ghost use Rattle.fs_base.specs.Config.{peer_of};

use crate::items::Items;
pub use fs_outside::Address;

/// A BGP speaker that the configuration names: its number, which tells it apart on a tape, its address,
/// its AS, and how many routes it may hold at most (prefixes and rules of both families together), where
/// that is bounded.
#[derive(Clone, Copy, Debug, PartialEq, Eq, Drop)]
pub struct Peer {
    pub number: u16,
    pub address: Address,
    pub asn: u32,
    pub max_routes: Option<u32>,
}

/// The peers in the order of the configuration.
pub type Peers = Items<Peer>;

/// The configuration. `local_id` is the local BGP identifier in host order. A peer is external where its
/// AS isn't `local_as`. `allow_no_destination` takes flow routes without a destination prefix (RFC 9117
/// section 4.1, rule a); `empty_path_valid` takes those that originate in the local AS (RFC 9117 section
/// 4.1, rule b.2). `hold_time` is the hold time that OPEN offers, in seconds: 0, or 3 and more (RFC 4271
/// section 4.2).
#[derive(Debug, PartialEq, Eq, Drop)]
pub struct Config {
    pub local_as: u32,
    pub local_id: u32,
    pub allow_no_destination: bool,
    pub empty_path_valid: bool,
    pub hold_time: u16,
    pub peers: Peers,
}

impl Config {
    /// The peer of that number, or None where the configuration names none.
    pub fn peer(&self, number: u16) -> Option<&Peer>
        ensures { option_copied result ≡ peer_of number self.now.peers }
    {
        self.peers
            .as_slice()
            .iter()
            .find(|peer| peer.number == number)
    }
}
