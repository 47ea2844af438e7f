//! The octets that a tape begins with, which tell its version.

ghost use Rattle.std.specs.Prelude.{◌≡◌, ◌<◌, ◌≤◌, IfSome, length};
ghost use Rattle.fs_input.specs.Opening.{IsFrontWithin};
ghost use Rattle.fs_tape.specs.Magic.{first_difference, magic_field, version_by};

use crate::fault::TapeReason;
use fs_input::Head;

/// The version of a tape's format.
#[derive(Clone, Copy, Debug, PartialEq, Eq, Drop)]
pub enum Version {
    /// Records without a moment.
    One,
    /// Records with a moment.
    Two,
}

/// The octets of a magic.
pub(crate) const MAGIC_SIZE: usize = 8;

const MAGIC_ONE: [u8; MAGIC_SIZE] = *b"FSTAPE1\n";

const MAGIC_TWO: [u8; MAGIC_SIZE] = *b"FSTAPE2\n";

/// Reads the magic, of at most eight octets.
pub(crate) fn read_magic(front: &[u8]) -> Head<Version, TapeReason>
    ensures exact { result ≡ magic_field front.now }
    ensures within { IsFrontWithin 8 (length front.now) result }
{
    if front.len() < MAGIC_SIZE {
        return Head::Partial;
    }
    version_told(
        wrong_octet(&MAGIC_ONE, front),
        wrong_octet(&MAGIC_TWO, front),
    )
}

/// The version that the first places tell at which octets differ from each magic.
fn version_told(one: Option<u8>, two: Option<u8>) -> Head<Version, TapeReason>
    ensures { result ≡ version_by one two }
{
    let Some(one) = one else {
        return Head::Whole {
            said: Version::One,
            size: 0,
        };
    };
    let Some(two) = two else {
        return Head::Whole {
            said: Version::Two,
            size: 0,
        };
    };
    Head::Wrong {
        reason: TapeReason::Magic,
        offset: if one < two { two } else { one },
    }
}

/// The place of the first octet that isn't the magic's.
fn wrong_octet(magic: &[u8; MAGIC_SIZE], front: &[u8]) -> Option<u8>
    requires { 8 ≤ length front.now }
    ensures { result ≡ first_difference magic.now front.now }
{
    for (place, octet) in magic.iter().enumerate() {
        if front[place] != *octet {
            return Some(place as u8);
        }
    }
    None
}
