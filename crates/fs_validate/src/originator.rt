//! Who brought a route into the network.

ghost use Rattle.std.specs.Prelude.{◌≡◌, option_map};
ghost use Rattle.fs_validate.specs.Originator.{originator_of, same_originator, is_local};

use fs_base::{AS_CONFED_SEQUENCE, Address, Config, Path, Segment};

/// The originator of a route: its ORIGINATOR_ID, else the address of the peer that gave it. None where the
/// configuration doesn't name the peer.
pub(crate) fn originator(config: &Config, peer: u16, path: &Path) -> Option<Address>
    ensures { result ≡ originator_of config.now (peer, path.now) }
{
    match path.originator {
        Some(id) => Some(Address::V4(id)),
        None => config.peer(peer).map(|peer| peer.address),
    }
}

/// Whether both are there and the same. An identifier is the IPv4 address with its 32 bits.
pub(crate) fn is_same_originator(a: Option<Address>, b: Option<Address>) -> bool
    ensures { result ≡ same_originator a b }
{
    match (a, b) {
        (Some(a), Some(b)) => a == b,
        _ => false,
    }
}

/// Whether an AS_PATH is empty or has only AS_CONFED_SEQUENCEs: the route began in the local AS.
pub(crate) fn is_local(segments: &[Segment]) -> bool
    ensures { result ≡ is_local segments.now }
{
    segments
        .iter()
        .all(|segment| segment.form == AS_CONFED_SEQUENCE)
}
