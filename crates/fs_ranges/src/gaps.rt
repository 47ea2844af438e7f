//! What ranges of numbers leave out.

ghost use Rattle.std.specs.{Prelude.{◌≡◌, ℕ, ◌^◌, ◌<◌, ◌≤◌, ◌++◌, ◌||◌, [], not, OnOk}, List.{All}};
ghost use Rattle.fs_ranges.specs.{Gaps.{gap, gaps_from}, Spans.{AreApart, IsRange, contains}};

use fs_base::Memory;

/// Ranges of numbers, each by its first and its last.
pub(crate) type RangeList = Vec<(u64, u64)>;

/// One more than the greatest number that a list can be asked for.
const NUMBERS: u128 = 1 << 64;

/// Appends the numbers that are in none of the ranges, as ranges in order with a gap before each next. The ranges are
/// put in order.
pub(crate) fn append_gaps(ranges: &mut RangeList, gaps: &mut RangeList) -> Result<(), Memory>
    requires { All IsRange ranges.old.items }
    ensures numbers { OnOk result ((n : ℕ)
        → n < 2 ^ 64
        → contains gaps.new.items n ≡ (contains gaps.old.items n || not (contains ranges.old.items n))) }
    ensures ranges { OnOk result (All IsRange gaps.old.items → All IsRange gaps.new.items) }
    ensures apart { OnOk result (gaps.old.items ≡ [] → AreApart 0 gaps.new.items) }
{
    ranges.sort_unstable_by_key(|range| range.0);
    append_between(ranges, gaps)
}

/// Appends what stands before, between and behind the ranges, which begin one after the other.
fn append_between(ranges: &[(u64, u64)], gaps: &mut RangeList) -> Result<(), Memory>
    ensures { OnOk result (gaps.new.items ≡ gaps.old.items ++ gaps_from 0 ranges.now) }
{
    let mut from = 0;
    for &(first, last) in ranges {
        append_gap(from, u128::from(first), gaps)?;
        from = from.max(u128::from(last) + 1);
    }
    append_gap(from, NUMBERS, gaps)
}

/// Appends the numbers from the one on that are below the other, if there are any.
fn append_gap(from: u128, end: u128, gaps: &mut RangeList) -> Result<(), Memory>
    requires { end ≤ 2 ^ 64 }
    ensures { OnOk result (gaps.new.items ≡ gaps.old.items ++ gap from end) }
{
    if from < end {
        gaps.push((from as u64, (end - 1) as u64))?;
    }
    Ok(())
}
