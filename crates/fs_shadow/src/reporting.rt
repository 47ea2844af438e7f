//! The report of the rules that can never act.
//!
//! Rules come in the order of their destinations, of nested ones the longer first. So an earlier rule whose destination
//! covers that of a later one has the same destination, and all rules between them have it too. Only a rule without a
//! destination, or with one that isn't the first bits of an address, may lie in one of another destination: in that of
//! all addresses, which stands last.

ghost use Rattle.std.specs.Prelude.{◌≡◌, ◌≤◌, ◌<◌, ◌+◌, ◌-◌, ◌++◌, ◌^◌, IfOk, None, OnOk, if◌then◌else◌, drop, get_or, length, map, take};
ghost use Rattle.std.specs.List.{AllByRecursion};
ghost use Rattle.fs_buckets.specs.Destinations.{span_of, spans_of};
ghost use Rattle.fs_rules.specs.{Lent.{all_admitted, listed}, Table.{admitted}};
ghost use Rattle.fs_shadow.specs.Extents.{IsTold};
ghost use Rattle.fs_shadow.specs.Outlines.{AreInOrder, AreOutlinesOf, AreTold, IsIndexOf, IsStretch, begins_anew, first_taker, lie_apart};
ghost use Rattle.fs_shadow.specs.Reporting.{covered_by, report_of};

use crate::keys::{first_by_keys, index_of};
use crate::outlines::{Outline, outlines_of};
use fs_base::{Family, Memory};
use fs_nlri::Rule;
use fs_rules::{LentRule, Table};
use std::alloc::Global;

/// Of so many earlier rules each is tried.
const FEW_RULES: usize = 16;

/// The admitted rules of the family that can never act, by their numbers from 0, in order: those that an earlier rule
/// with a clear terminal bit contains, each with the first such rule.
///
/// # Errors
///
/// `Memory` where the machine refuses memory.
pub fn report(
    alloc: Global,
    table: &Table<'_>,
    family: Family,
) -> Result<Vec<(usize, usize)>, Memory>
    ensures { IfOk result (λ pairs. pairs.items ≡ report_of (map listed (admitted family table.now))) }
{
    let list = table.admitted(family)?;
    report_of(alloc, &list)
}

/// The report of these rules.
fn report_of(alloc: Global, list: &[LentRule<'_>]) -> Result<Vec<(usize, usize)>, Memory>
    requires { AreInOrder (all_admitted list.now) }
    ensures { IfOk result (λ pairs. pairs.items ≡ report_of (all_admitted list.now)) }
{
    let outlines = outlines_of(alloc, list)?;
    let index = index_of(alloc, &outlines)?;
    let mut pairs = Vec::new(alloc);
    append_report(list, &outlines, &index, &mut pairs)?;
    Ok(pairs)
}

/// Appends the report of these rules.
fn append_report(
    list: &[LentRule<'_>],
    outlines: &[Outline],
    index: &[(u64, usize)],
    pairs: &mut Vec<(usize, usize)>,
) -> Result<(), Memory>
    requires order { AreInOrder (all_admitted list.now) }
    requires outlines { AreOutlinesOf (all_admitted list.now) outlines.now }
    requires index { IsIndexOf outlines.now index.now }
    ensures { OnOk result (pairs.new.items ≡ pairs.old.items ++ report_of (all_admitted list.now)) }
{
    let mut start = 0;
    for (number, later) in outlines.iter().enumerate() {
        start = stretch_start(list, start, number);
        append_covered(outlines, index, start, number, later, pairs)?;
    }
    Ok(())
}

/// Appends the number of a rule and that of the first of the earlier ones, from the start on, that takes all of its
/// packets, if one does.
fn append_covered(
    outlines: &[Outline],
    index: &[(u64, usize)],
    start: usize,
    number: usize,
    later: &Outline,
    pairs: &mut Vec<(usize, usize)>,
) -> Result<(), Memory>
    requires told { AreTold outlines.now }
    requires later { AllByRecursion IsTold later.now.measures.items }
    requires stretch { IsStretch outlines.now index.now start number }
    ensures { OnOk result (pairs.new.items
        ≡ pairs.old.items
        ++ covered_by number (first_taker start (take (number - start) (drop start outlines.now)) later.now)) }
{
    match first_earlier(outlines, index, start, number, later) {
        Some(place) => {
            pairs.push((number, place))?;
            Ok(())
        }
        None => Ok(()),
    }
}

/// The number of the first of the rules, from the start on and before that of this number, that takes all packets of
/// the later one.
fn first_earlier(
    outlines: &[Outline],
    index: &[(u64, usize)],
    start: usize,
    number: usize,
    later: &Outline,
) -> Option<usize>
    requires told { AreTold outlines.now }
    requires later { AllByRecursion IsTold later.now.measures.items }
    requires stretch { IsStretch outlines.now index.now start number }
    ensures { result ≡ first_taker start (take (number - start) (drop start outlines.now)) later.now }
{
    if number - start <= FEW_RULES || !later.is_probed() {
        return first_taker(&outlines[start..number], start, later);
    }
    let place = first_by_keys(outlines, index, start, number, later);
    if place < number { Some(place) } else { None }
}

/// The number of the first of the earlier rules that takes all packets of the later one, where the first of them has
/// the number `start`.
fn first_taker(earlier: &[Outline], start: usize, later: &Outline) -> Option<usize>
    requires { start + length earlier.now < 2 ^ 64 }
    ensures { result ≡ first_taker start earlier.now later.now }
{
    for (place, outline) in earlier.iter().enumerate() {
        if outline.takes_all(later) {
            return Some(start + place);
        }
    }
    None
}

/// The first of the earlier rules that may contain the rule of this number or a later one, where no rule before `start`
/// does.
fn stretch_start(list: &[LentRule<'_>], start: usize, number: usize) -> usize
    requires inside { number < length list.now }
    requires before { start ≤ number }
    ensures within { result ≤ number }
    ensures start { result ≡ (if begins_anew (spans_of (all_admitted list.now)) number then number else start) }
{
    if begins_anew(list, number) {
        number
    } else {
        start
    }
}

/// Whether no rule before that of this number contains it or a later one, as the destinations tell.
fn begins_anew(list: &[LentRule<'_>], number: usize) -> bool
    requires { number < length list.now }
    ensures { result ≡ begins_anew (spans_of (all_admitted list.now)) number }
{
    number > 0 && lie_apart(span_of(list[number - 1].rule), span_of(list[number].rule))
}

/// The first and the last address of the rule's destination.
fn span_of(rule: &Rule) -> Option<(u128, u128)>
    ensures { result ≡ span_of rule.now }
{
    match rule.destination() {
        Some(prefix) => Some((prefix.bits, prefix.last())),
        None => None,
    }
}

/// Whether the destination of a rule differs from that of the rule before it. One of all addresses doesn't differ from
/// none.
fn lie_apart(before: Option<(u128, u128)>, span: Option<(u128, u128)>) -> bool
    ensures { result ≡ lie_apart before span }
{
    match (before, span) {
        (Some(before), Some(span)) => before.0 != span.0 || before.1 != span.1,
        (Some(before), None) => 0 < before.0,
        (None, Some(_)) => false,
        (None, None) => false,
    }
}
