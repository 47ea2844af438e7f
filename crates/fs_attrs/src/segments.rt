//! The segments of AS_PATH (RFC 4271, section 4.3; RFC 5065, section 3): reading, writing, and which are written.

ghost use Rattle.std.specs.Prelude.{◌≡◌, ◌^◌, ◌<◌, ◌≤◌, ◌++◌, nat_le, length, flat_map, option_map, All, IfOk, OnOk};
ghost use Rattle.fs_attrs.specs.Segments.{as_width, first_as, numbers_of, first_segment, segments_of, lent_segment, is_written_segment, as_text};
ghost use Rattle.fs_attrs.specs.Segments.{segment_text, segments_text, AreNumbers};

use crate::texts::{append_u16, append_u32};
use byteorder::{BigEndian, ByteOrder};
use fs_base::{
    AS_CONFED_SEQUENCE, AS_CONFED_SET, AS_SEQUENCE, AS_SET, Memory, Numbers, Segment, Segments,
};
use fs_message::as_in_two;
use std::alloc::Global;

/// A segment of AS_PATH: its form, and the octets of its AS numbers.
#[derive(Clone, Copy, Drop)]
pub(crate) struct LentSegment<'a> {
    pub(crate) form: u8,
    numbers: &'a [u8],
}

/// The segments of AS_PATH.
pub(crate) fn read_segments(alloc: Global, four: bool, octets: &[u8]) -> Result<Segments, Memory>
    ensures { IfOk result (λ segments. segments ≡ segments_of four octets.now) }
{
    let mut segments = Vec::new(alloc);
    let mut rest = octets;
    while let Some((segment, behind)) = next_segment(four, rest) {
        let numbers = read_numbers(alloc, four, segment.numbers)?;
        // most paths have one segment
        segments.reserve_exact(1)?;
        segments.push(Segment {
            form: segment.form,
            numbers,
        })?;
        rest = behind;
    }
    Ok(Segments::new(segments))
}

/// The AS numbers of a segment.
fn read_numbers(alloc: Global, four: bool, octets: &[u8]) -> Result<Numbers, Memory>
    ensures { IfOk result (λ numbers. numbers ≡ numbers_of four octets.now) }
{
    let mut numbers = Vec::with_capacity(alloc, octets.len() / octets_of_as(four))?;
    let mut rest = octets;
    while let Some((number, behind)) = next_as(four, rest) {
        numbers.push(number)?;
        rest = behind;
    }
    Ok(Numbers::new(numbers))
}

/// The segment at the front, and what follows it.
pub(crate) fn next_segment(four: bool, octets: &[u8]) -> Option<(LentSegment<'_>, &[u8])>
    ensures { option_map (λ found. (lent_segment four found.0, found.1.now)) result ≡ first_segment four octets.now }
{
    let [form, count, rest @ ..] = octets else {
        return None;
    };
    if *form < AS_SET || AS_CONFED_SET < *form || *count == 0 {
        return None;
    }
    let (numbers, behind) = rest.split_at_checked(usize::from(*count) * octets_of_as(four))?;
    Some((
        LentSegment {
            form: *form,
            numbers,
        },
        behind,
    ))
}

/// The AS number at the front, and what follows it.
fn next_as(four: bool, octets: &[u8]) -> Option<(u32, &[u8])>
    ensures { option_map (λ found. (found.0, found.1.now)) result ≡ first_as four octets.now }
{
    if octets.len() < octets_of_as(four) {
        return None;
    }
    if four {
        return Some((BigEndian::read_u32(octets), &octets[4..]));
    }
    Some((u32::from(BigEndian::read_u16(octets)), &octets[2..]))
}

fn octets_of_as(four: bool) -> usize
    ensures { result ≡ as_width four }
{
    if four { 4 } else { 2 }
}

/// Whether the form is one of a confederation.
pub(crate) fn is_of_confederation(form: u8) -> bool
    ensures { result ≡ nat_le 3 form }
{
    form >= AS_CONFED_SEQUENCE
}

/// Whether a segment is written: to an external peer none of a confederation.
pub(crate) fn is_written(segment: &Segment, external: bool) -> bool
    ensures { result ≡ is_written_segment external segment.now }
{
    let count = segment.numbers.as_slice().len();
    let highest = if external { AS_SEQUENCE } else { AS_CONFED_SET };
    1 <= count && count <= 255 && AS_SET <= segment.form && segment.form <= highest
}

/// Appends the segments of an AS_PATH.
pub(crate) fn append_segments(
    segments: &[Segment],
    four: bool,
    out: &mut Vec<u8>,
) -> Result<(), Memory>
    requires { All (λ segment. length segment.numbers ≤ 255) segments.now }
    ensures appended { OnOk result (out.new.items ≡ out.old.items ++ segments_text four segments.now) }
    ensures sound { OnOk result (All AreNumbers segments.now) }
{
    for segment in segments {
        append_segment(segment, four, out)?;
    }
    Ok(())
}

fn append_segment(segment: &Segment, four: bool, out: &mut Vec<u8>) -> Result<(), Memory>
    requires { length segment.now.numbers ≤ 255 }
    ensures appended { OnOk result (out.new.items ≡ out.old.items ++ segment_text four segment.now) }
    ensures sound { OnOk result (AreNumbers segment.now) }
{
    let numbers = segment.numbers.as_slice();
    out.extend_from_slice(&[segment.form, numbers.len() as u8])?;
    append_numbers(numbers, four, out)
}

fn append_numbers(numbers: &[u32], four: bool, out: &mut Vec<u8>) -> Result<(), Memory>
    ensures appended { OnOk result (out.new.items ≡ out.old.items ++ flat_map (as_text four) numbers.now) }
    ensures sound { OnOk result (All (λ asn. asn < 2 ^ 32) numbers.now) }
{
    for number in numbers {
        append_as(*number, four, out)?;
    }
    Ok(())
}

fn append_as(asn: u32, four: bool, out: &mut Vec<u8>) -> Result<(), Memory>
    ensures { OnOk result (out.new.items ≡ out.old.items ++ as_text four asn) }
{
    if four {
        return append_u32(asn, out);
    }
    append_u16(as_in_two(asn), out)
}
