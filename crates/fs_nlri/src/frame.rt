//! Frames: a length and a value (RFC 8955 section 4.1).

ghost use Rattle.std.specs.Prelude.{◌≡◌, ◌+◌, ◌<◌, ◌≤◌, ◌++◌, ℕ, List, length, take, IfOk, IfErr, IfSome, IfNone};
ghost use Rattle.fs_nlri.specs.{Parts.{Ruled}, Spelling.{IsLength, IsFrame}, Fault.{IsOpen, IsFrameFault, ReadsItsFrame}};

use crate::fault::{NlriFault, Reason, bad};
use crate::rule::Rule;
use crate::value::read_components;
use fs_base::Family;
use std::alloc::Global;

/// How many octets the length at the front has, and what it says; None where it isn't whole.
fn read_length(octets: &[u8]) -> Option<(usize, usize)>
    ensures room { IfSome result (λ read. read.0 ≤ length octets.now) }
    ensures small { IfSome result (λ read. (read.0 ≤ 2) × (read.1 < 4096)) }
    ensures found { IfSome result (λ read. IsLength (take read.0 octets.now) read.1) }
    ensures none { IfNone result (IsOpen octets.now) }
{
    match octets {
        [] => None,
        [first, ..] if *first < 240 => Some((1, usize::from(*first))),
        [_] => None,
        [first, second, ..] => Some((2, usize::from(*first - 240) * 256 + usize::from(*second))),
    }
}

/// Reads the frame at the front of the octets, and answers its rule and the count of its octets. What follows
/// the frame isn't looked at. Else answers the first fault: the place of `Reason::Length` is the count of the
/// octets in hand, the others count from the value's first octet.
pub fn decode(alloc: Global, family: Family, octets: &[u8]) -> Result<(Rule, usize), NlriFault>
    ensures taken { IfOk result (λ read. read.1 ≤ length octets.now) }
    ensures family { IfOk result (λ read. read.0.family ≡ family) }
    ensures found { IfOk result (λ read. IsFrame (take read.1 octets.now) read.0) }
    ensures fault { IfErr result (IsFrameFault family octets.now) }
    ensures only { ReadsItsFrame family octets.now result }
{
    read_frame(alloc, family, octets)
}

fn read_frame(alloc: Global, family: Family, octets: &[u8]) -> Result<(Rule, usize), NlriFault>
    ensures taken { IfOk result (λ read. read.1 ≤ length octets.now) }
    ensures family { IfOk result (λ read. read.0.family ≡ family) }
    ensures found { IfOk result (λ read. IsFrame (take read.1 octets.now) read.0) }
    ensures fault { IfErr result (IsFrameFault family octets.now) }
{
    let cut = bad(Reason::Length, octets.len());
    let Some((head, length)) = read_length(octets) else {
        return Err(cut);
    };
    let behind = &octets[head..];
    if behind.len() < length {
        return Err(cut);
    }
    let components = read_components(alloc, family, &behind[..length])?;
    Ok((Rule { family, components }, head + length))
}
