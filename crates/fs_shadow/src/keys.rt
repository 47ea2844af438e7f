//! Rules by single numbers that they ask for, so that a rule is compared with those alone that ask for one of its own.
//!
//! The key of a rule is the greatest number that one of its components takes in alone. A rule whose packets it takes has
//! a component that lies in that one, so each of that component's numbers is the key. A rule without such a component
//! has the key 0, and is compared with all.

ghost use Rattle.std.specs.Prelude.{◌≡◌, ◌≤◌, ◌==◌, IfOk, length};
ghost use Rattle.fs_shadow.specs.Outlines.{IsFirst, IsIndexOf, IsStretch, entries_from, first_entry, is_asked, rank, takes_before};

use crate::outlines::Outline;
use fs_base::Memory;
use std::alloc::Global;

/// The key of each rule with its place, in order.
pub(crate) fn index_of(alloc: Global, outlines: &[Outline]) -> Result<Vec<(u64, usize)>, Memory>
    ensures { IfOk result (λ index. IsIndexOf outlines.now index.items) }
{
    let mut index = entries_of(alloc, outlines)?;
    index.sort_unstable_by_key(|entry| rank(entry.0, entry.1));
    Ok(index)
}

/// The same by their places.
fn entries_of(alloc: Global, outlines: &[Outline]) -> Result<Vec<(u64, usize)>, Memory>
    ensures { IfOk result (λ entries. entries.items ≡ entries_from 0 outlines.now) }
{
    let mut entries = Vec::with_capacity(alloc, outlines.len())?;
    for (place, outline) in outlines.iter().enumerate() {
        entries.push((outline.key(), place))?;
    }
    Ok(entries)
}

/// Where an entry stands among all.
fn rank(key: u64, place: usize) -> u128
    ensures { result ≡ rank key place }
{
    u128::from(key) * (1 << 64) + place as u128
}

/// The place of the first rule, from the start on and before the end, that takes all packets of the later one; or the
/// end.
pub(crate) fn first_by_keys(
    outlines: &[Outline],
    index: &[(u64, usize)],
    start: usize,
    end: usize,
    later: &Outline,
) -> usize
    requires { IsStretch outlines.now index.now start end }
    ensures { IsFirst outlines.now later.now (is_asked later.now.measures.items) start end result }
{
    let mut place = end;
    for measure in &later.measures {
        if let Some(key) = measure.held {
            place = first_of_key(outlines, index, key, start, place, later);
        }
    }
    first_of_key(outlines, index, 0, start, place, later)
}

/// The same of the rules of one key alone.
fn first_of_key(
    outlines: &[Outline],
    index: &[(u64, usize)],
    key: u64,
    start: usize,
    end: usize,
    later: &Outline,
) -> usize
    requires { IsStretch outlines.now index.now start end }
    ensures { IsFirst outlines.now later.now (λ other. other == key) start end result }
{
    let from = index.partition_point(|entry| rank(entry.0, entry.1) < rank(key, start));
    first_entry(outlines, &index[from..], key, end, later)
}

/// The place of the first of the entries of the key at which a rule takes all packets of the later one; or the end.
fn first_entry(
    outlines: &[Outline],
    entries: &[(u64, usize)],
    key: u64,
    end: usize,
    later: &Outline,
) -> usize
    requires { end ≤ length outlines.now }
    ensures { result ≡ first_entry outlines.now later.now key end entries.now }
{
    for &entry in entries {
        if rank(key, end) <= rank(entry.0, entry.1) {
            return end;
        }
        if takes_before(outlines, entry, key, end, later) {
            return entry.1;
        }
    }
    end
}

/// Whether the entry is one of the key, before the end, and its rule takes all packets of the later one.
fn takes_before(
    outlines: &[Outline],
    entry: (u64, usize),
    key: u64,
    end: usize,
    later: &Outline,
) -> bool
    requires { end ≤ length outlines.now }
    ensures { result ≡ takes_before outlines.now later.now key end entry }
{
    if entry.0 != key {
        return false;
    }
    if end <= entry.1 {
        return false;
    }
    outlines[entry.1].takes_all(later)
}
