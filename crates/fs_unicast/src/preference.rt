//! Which of the routes of one key is preferred.

ghost use Rattle.std.specs.Prelude.{◌≡◌, ◌+◌, ◌<◌, length};
ghost use Rattle.fs_unicast.specs.Preference.{segment_length, path_length, preference_cmp, preferred, peer_path};

use fs_base::{AS_SEQUENCE, AS_SET, Path, Segment};
use std::cmp::Ordering;

/// A held route of some key, as it is lent: the number of the peer that gave it, and its path.
#[derive(Clone, Copy, Debug, PartialEq, Eq, Drop)]
pub struct Held<'a> {
    pub peer: u16,
    pub path: &'a Path,
}

impl Held<'_> {
    /// Whether this route is preferred to the other: by the higher LOCAL_PREF, the shorter AS_PATH, the lower
    /// ORIGIN, an external peer before an internal one, and at last the lower peer number.
    pub fn is_preferred(&self, other: &Held<'_>) -> bool
        ensures { result ≡ preferred (peer_path self.now) (peer_path other.now) }
    {
        self.preference(other).is_lt()
    }

    fn preference(&self, other: &Held<'_>) -> Ordering
        ensures { result ≡ preference_cmp (peer_path self.now) (peer_path other.now) }
    {
        let length = path_length(self.path.segments.as_slice());
        let other_length = path_length(other.path.segments.as_slice());
        other
            .path
            .local_pref
            .cmp(&self.path.local_pref)
            .then(length.cmp(&other_length))
            .then(self.path.origin.cmp(&other.path.origin))
            .then(other.path.external.cmp(&self.path.external))
            .then(self.peer.cmp(&other.peer))
    }
}

/// The length of an AS_PATH: a sequence counts its numbers, a set 1, a confederation's segment 0.
fn path_length(segments: &[Segment]) -> u128
    ensures { result ≡ path_length segments.now }
{
    let mut total = 0u128;
    for segment in segments {
        total += segment_length(segment) as u128;
    }
    total
}

fn segment_length(segment: &Segment) -> usize
    ensures { result ≡ segment_length segment.now }
{
    match segment.form {
        AS_SEQUENCE => segment.numbers.as_slice().len(),
        AS_SET => 1,
        _ => 0,
    }
}
