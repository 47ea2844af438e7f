//! Lists of single numbers.

ghost use Rattle.std.specs.{Prelude.{◌≡◌, IfOk, map}, List.{All}};
ghost use Rattle.fs_ranges.specs.{Numbers.{are_singles, is_single, lone}, Spans.{IsRange}};

use crate::components::is_equality;
use fs_base::Memory;
use std::alloc::Global;

/// The AND bit of an operator (RFC 8955 section 4.2.1.1).
const AND: u8 = 0x40;

/// Whether the operator says that a number is equal to its value, in a group of its own.
fn is_single(operator: u8) -> bool
    ensures { result ≡ is_single operator }
{
    is_equality(operator) && operator & AND == 0
}

/// Whether the pairs are nothing but such numbers, which rise with a gap before each next.
pub(crate) fn are_singles(pairs: &[(u8, u64)]) -> bool
    ensures { result ≡ are_singles 0 pairs.now }
{
    let mut low = 0;
    for &(operator, value) in pairs {
        if !is_single(operator) {
            return false;
        }
        if u128::from(value) < low {
            return false;
        }
        low = u128::from(value) + 2;
    }
    true
}

fn lone_range(value: u64) -> (u64, u64)
    ensures value { result ≡ (value, value) }
    ensures range { IsRange result }
{
    (value, value)
}

/// Each of the numbers as a range.
pub(crate) fn lone_ranges(alloc: Global, pairs: &[(u8, u64)]) -> Result<Vec<(u64, u64)>, Memory>
    ensures items { IfOk result (λ ranges. ranges.items ≡ map lone pairs.now) }
    ensures ranges { IfOk result (λ ranges. All IsRange ranges.items) }
{
    let mut ranges = Vec::with_capacity(alloc, pairs.len())?;
    for &(_, value) in pairs {
        ranges.push(lone_range(value))?;
    }
    Ok(ranges)
}
