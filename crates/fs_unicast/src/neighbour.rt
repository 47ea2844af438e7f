//! The ASes that a path names first.

ghost use Rattle.std.specs.{Prelude.{◌≡◌}, Option.{option_copied}};
ghost use Rattle.fs_unicast.specs.{Neighbour.{is_confederation, leading, first_number, first_as, neighbour, neighbour_as}, Search.{is_other}};

use fs_base::{AS_CONFED_SEQUENCE, AS_CONFED_SET, AS_SEQUENCE, Path, Segment};

/// The leftmost AS of a path: the first number of its leading sequence, where confederation segments don't
/// count. None for a path that has no other segment or begins with a set.
pub fn first_as(segments: &[Segment]) -> Option<u32>
    ensures { result ≡ first_as segments.now }
{
    first_number(leading(segments)?)
}

/// The neighbouring AS of a path: its leftmost AS; `local_as` where only confederation segments stand in it;
/// 0 where a set comes first.
pub fn neighbour_as(segments: &[Segment], local_as: u32) -> u32
    ensures { result ≡ neighbour_as local_as segments.now }
{
    neighbour(segments).unwrap_or(local_as)
}

/// The neighbouring AS that a path names: its leftmost AS; 0 where a set comes first; None where only
/// confederation segments stand in it.
pub(crate) fn neighbour(segments: &[Segment]) -> Option<u32>
    ensures { result ≡ neighbour segments.now }
{
    let first = leading(segments)?;
    Some(first_number(first).unwrap_or(0))
}

/// Whether the path has another neighbouring AS than this; each path has, where there is none.
pub(crate) fn is_other(path: &Path, local_as: u32, asn: Option<u32>) -> bool
    ensures { result ≡ is_other local_as asn path.now }
{
    match asn {
        Some(asn) => neighbour_as(path.segments.as_slice(), local_as) != asn,
        None => true,
    }
}

/// The first segment that isn't a confederation's.
fn leading(segments: &[Segment]) -> Option<&Segment>
    ensures { option_copied result ≡ leading segments.now }
{
    segments.iter().find(|segment| !is_confederation(segment))
}

fn is_confederation(segment: &Segment) -> bool
    ensures { result ≡ is_confederation segment.now }
{
    segment.form == AS_CONFED_SEQUENCE || segment.form == AS_CONFED_SET
}

/// The first number of a sequence; a set has none.
fn first_number(segment: &Segment) -> Option<u32>
    ensures { result ≡ first_number segment.now }
{
    if segment.form == AS_SEQUENCE {
        segment.numbers.as_slice().first().copied()
    } else {
        None
    }
}
