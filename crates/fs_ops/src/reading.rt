//! The reader of a list (RFC 8955 section 4.2.1).

ghost use Rattle.std.specs.Prelude.{◌≡◌, ◌∷◌, [], ◌≤◌, length, take, Err, IfOk, IfErr, IfSome};
ghost use Rattle.byteorder.specs.Endian.{big_number};
ghost use Rattle.fs_ops.specs.{OperatorList.{Spells}, Fault.{CanBeWide, IsFault, barred_at}};

use crate::fault::{Answer, OpsFault};
use crate::kind::Kind;
use crate::operator::{allows, clear_ignored, is_last, width_code_of, width_of};
use crate::pairs::PairList;
use byteorder::{BigEndian, ByteOrder};
use std::alloc::Global;

/// Reads the list at the front of the octets, and answers its pairs and how many octets it takes.
pub fn read(alloc: Global, kind: Kind, octets: &[u8], widths: &[u8]) -> Answer<(PairList, usize)>
    ensures taken { IfOk result (λ read. read.1 ≤ length octets.now) }
    ensures found { IfOk result (λ read. Spells kind widths.now (take read.1 octets.now) read.0) }
    ensures fault { CanBeWide widths.now → IfErr result (IsFault widths.now octets.now) }
    ensures barred { (CanBeWide widths.now → ⊥) → result ≡ Err (barred_at octets.now) }
{
    if let Some((pair, taken)) = read_single(kind, octets, widths) {
        return Ok((PairList::single(pair), taken));
    }
    let (pairs, taken) = read_pairs(alloc, kind, octets, widths)?;
    Ok((PairList::new(pairs), taken))
}

/// The number in the first octets of a value.
fn read_number(value: &[u8], len: usize) -> u64
    requires low { 1 ≤ len }
    requires high { len ≤ 8 }
    requires room { len ≤ length value.now }
    ensures { result ≡ big_number len value.now }
{
    match len {
        1 => value[0].into(),
        2 => BigEndian::read_u16(value).into(),
        _ => BigEndian::read_uint(value, len),
    }
}

/// Reads a list of one pair, as most are; None where none stands at the front.
fn read_single(kind: Kind, octets: &[u8], widths: &[u8]) -> Option<((u8, u64), usize)>
    ensures taken { IfSome result (λ read. read.1 ≤ length octets.now) }
    ensures found { IfSome result (λ read. Spells kind widths.now (take read.1 octets.now) (read.0 ∷ [])) }
    ensures wide { IfSome result (λ _. CanBeWide widths.now) }
{
    let [operator, tail @ ..] = octets else {
        return None;
    };
    if !is_last(*operator) || !allows(widths, width_code_of(*operator)) {
        return None;
    }
    let len = width_of(*operator);
    if tail.len() < len {
        return None;
    }
    let (value, next) = tail.split_at(len);
    let number = read_number(value, len);
    let operator = clear_ignored(kind, true, *operator);
    Some(((operator, number), octets.len() - next.len()))
}

/// How many pairs the list at the front of the octets has, or 0 where none of these widths stands there.
fn count_pairs(octets: &[u8], widths: &[u8]) -> usize
    ensures { (CanBeWide widths.now → ⊥) → result ≡ 0 }
{
    let mut count = 0;
    let mut rest = octets;
    while let [operator, tail @ ..] = rest {
        if !allows(widths, width_code_of(*operator)) {
            return 0;
        }
        count += 1;
        if is_last(*operator) {
            return count;
        }
        let Some(next) = tail.get(width_of(*operator)..) else {
            return 0;
        };
        rest = next;
    }
    0
}

/// Reads a list of any count of pairs.
fn read_pairs(
    alloc: Global,
    kind: Kind,
    octets: &[u8],
    widths: &[u8],
) -> Answer<(Vec<(u8, u64)>, usize)>
    ensures taken { IfOk result (λ read. read.1 ≤ length octets.now) }
    ensures found { IfOk result (λ read. Spells kind widths.now (take read.1 octets.now) read.0.items) }
    ensures fault { CanBeWide widths.now → IfErr result (IsFault widths.now octets.now) }
    ensures barred { (CanBeWide widths.now → ⊥) → result ≡ Err (barred_at octets.now) }
{
    let mut pairs = Vec::with_capacity(alloc, count_pairs(octets, widths))?;
    let mut rest = octets;
    while let [operator, tail @ ..] = rest {
        if !allows(widths, width_code_of(*operator)) {
            return Err(OpsFault::Width {
                place: octets.len() - rest.len(),
            });
        }
        let len = width_of(*operator);
        if tail.len() < len {
            return Err(OpsFault::Cut {
                place: octets.len(),
            });
        }
        let (value, next) = tail.split_at(len);
        let number = read_number(value, len);
        pairs.push((clear_ignored(kind, pairs.is_empty(), *operator), number))?;
        if is_last(*operator) {
            return Ok((pairs, octets.len() - next.len()));
        }
        rest = next;
    }
    Err(OpsFault::Cut {
        place: octets.len(),
    })
}
