//! The numbers that a list holds of, group by group.

ghost use Rattle.std.specs.{Prelude.{◌≡◌, ℕ, ◌^◌, ◌<◌, ◌++◌, ◌||◌, [], false, not, OnOk}, List.{All}};
ghost use Rattle.fs_ops.specs.{Evaluation.{compares, holds}, OperatorList.{first_joins}};
ghost use Rattle.fs_ranges.specs.{Groups.{EndsGroup, missed_above, missed_at, missed_below}, Spans.{IsRange, contains}};

use crate::gaps::{RangeList, append_gaps};
use fs_base::Memory;

/// The AND bit of an operator, and the bits of what it holds of (RFC 8955 section 4.2.1.1).
const AND: u8 = 0x40;

const LESS: u8 = 4;

const GREATER: u8 = 2;

const EQUAL: u8 = 1;

/// Appends the numbers of which some group of the pairs holds, as ranges in any order. `missed` comes to hold the
/// numbers that a group misses: those that one of its pairs misses.
pub(crate) fn append_groups(
    pairs: &[(u8, u64)],
    missed: &mut RangeList,
    held: &mut RangeList,
) -> Result<(), Memory>
    requires first { first_joins pairs.now ≡ false }
    requires missed { missed.old.items ≡ [] }
    requires held { held.old.items ≡ [] }
    ensures numbers { OnOk result ((n : ℕ)
        → n < 2 ^ 64
        → contains held.new.items n ≡ holds (compares n) pairs.now) }
    ensures ranges { OnOk result (All IsRange held.new.items) }
{
    missed.push((0, u64::MAX))?;
    for &(operator, value) in pairs {
        end_group(operator, missed, held)?;
        append_missed(operator, value, missed)?;
    }
    append_gaps(missed, held)
}

/// Ends the group in hand, unless the operator joins it.
fn end_group(operator: u8, missed: &mut RangeList, held: &mut RangeList) -> Result<(), Memory>
    requires { All IsRange missed.old.items }
    ensures numbers { OnOk result ((n : ℕ)
        → n < 2 ^ 64
        → EndsGroup operator n missed.old.items held.old.items missed.new.items held.new.items) }
    ensures missed { OnOk result (All IsRange missed.new.items) }
    ensures held { OnOk result (All IsRange held.old.items → All IsRange held.new.items) }
{
    if operator & AND == 0 {
        append_gaps(missed, held)?;
        missed.clear();
    }
    Ok(())
}

/// Appends the numbers that a pair misses, as ranges.
fn append_missed(operator: u8, value: u64, missed: &mut RangeList) -> Result<(), Memory>
    ensures numbers { OnOk result ((n : ℕ)
        → n < 2 ^ 64
        → contains missed.new.items n ≡ (contains missed.old.items n || not (compares n (operator, value)))) }
    ensures ranges { OnOk result (All IsRange missed.old.items → All IsRange missed.new.items) }
{
    append_below(operator, value, missed)?;
    append_at(operator, value, missed)?;
    append_above(operator, value, missed)
}

/// Appends the numbers below the value, if the operator misses these.
fn append_below(operator: u8, value: u64, missed: &mut RangeList) -> Result<(), Memory>
    ensures { OnOk result (missed.new.items ≡ missed.old.items ++ missed_below (operator, value)) }
{
    if operator & LESS == 0 && value != 0 {
        missed.push((0, value - 1))?;
    }
    Ok(())
}

/// Appends the value, if the operator misses it.
fn append_at(operator: u8, value: u64, missed: &mut RangeList) -> Result<(), Memory>
    ensures { OnOk result (missed.new.items ≡ missed.old.items ++ missed_at (operator, value)) }
{
    if operator & EQUAL == 0 {
        missed.push((value, value))?;
    }
    Ok(())
}

/// Appends the numbers above the value, if the operator misses these.
fn append_above(operator: u8, value: u64, missed: &mut RangeList) -> Result<(), Memory>
    ensures { OnOk result (missed.new.items ≡ missed.old.items ++ missed_above (operator, value)) }
{
    if operator & GREATER == 0 && value != u64::MAX {
        missed.push((value + 1, u64::MAX))?;
    }
    Ok(())
}
