//! Lists of numbers compared at a few points. Where no value of a list stands between two numbers it says the same of
//! both, so what is so at the ends, at the values and beside these is so everywhere.

ghost use Rattle.std.specs.{Prelude.{◌≡◌, ◌-◌, ◌+◌, ◌^◌, min}, List.{list_all}};
ghost use Rattle.fs_shadow.specs.{Contains.{numbers_lie_in}, Points.{are_implied, implied_around, implied_at}};

use fs_ops::NumList;

/// Whether each number that the inner list holds of is one that the outer list holds of.
pub(crate) fn numbers_lie_in(inner: &NumList, outer: &NumList) -> bool
    ensures { result ≡ numbers_lie_in inner.now outer.now }
{
    are_implied(inner, outer, inner.pairs(), outer.pairs())
}

/// Whether it is so at the ends, and around the values of the pairs.
fn are_implied(inner: &NumList, outer: &NumList, pairs: &[(u8, u64)], others: &[(u8, u64)]) -> bool
    ensures { result ≡ are_implied inner.now outer.now pairs.now others.now }
{
    implied_at(inner, outer, 0)
        && implied_at(inner, outer, u64::MAX)
        && implied_around_all(inner, outer, pairs)
        && implied_around_all(inner, outer, others)
}

/// Whether the outer list holds of the number if the inner one does.
fn implied_at(inner: &NumList, outer: &NumList, number: u64) -> bool
    ensures { result ≡ implied_at inner.now outer.now number }
{
    !inner.eval(number) || outer.eval(number)
}

/// Whether it is so at a value and at its neighbours.
fn implied_around(inner: &NumList, outer: &NumList, value: u64) -> bool
    ensures { result ≡ implied_around inner.now outer.now value }
{
    implied_at(inner, outer, value)
        && implied_at(inner, outer, value.saturating_sub(1))
        && implied_at(inner, outer, value.saturating_add(1))
}

/// Whether it is so around the value of each pair.
fn implied_around_all(inner: &NumList, outer: &NumList, pairs: &[(u8, u64)]) -> bool
    ensures { result ≡ list_all (λ pair. implied_around inner.now outer.now pair.1) pairs.now }
{
    for &(_, value) in pairs {
        if !implied_around(inner, outer, value) {
            return false;
        }
    }
    true
}
