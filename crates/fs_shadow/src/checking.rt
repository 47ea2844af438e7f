//! The check of one pair of rules, component by component and without any memory.

ghost use Rattle.std.specs.{Prelude.{◌≡◌}, List.{list_all, list_any}};
ghost use Rattle.fs_nlri.specs.{Component.{part_of, parts_of}, Sound.{AreSound, IsSoundBody}};
ghost use Rattle.fs_shadow.specs.{Contains.{contains, may_lie_in, part_lies_in}, Tested.{IsSound, tested_lies_in}};

use crate::ends::prefix_lies_in;
use crate::points::numbers_lie_in;
use crate::tested::{Tested, test_of};
use fs_nlri::{Component, Rule};

/// Whether rule `a` contains rule `b`, so that each packet that `b` matches is one that `a` matches: both are of one
/// family, and each component of `a` has one of `b` that lies in it. Takes no memory.
pub fn confirm(a: &Rule, b: &Rule) -> bool
    ensures { result ≡ contains a.now b.now }
{
    a.family() == b.family() && each_has_one(a.components(), b.components())
}

/// Whether each of the components has one of the others that lies in it.
fn each_has_one(components: &[Component], others: &[Component]) -> bool
    requires components { AreSound (parts_of components.now) }
    requires others { AreSound (parts_of others.now) }
    ensures { result ≡ list_all
        (λ outer. list_any (λ inner. part_lies_in inner outer) (parts_of others.now))
        (parts_of components.now) }
{
    for component in components {
        if !has_one(component, others) {
            return false;
        }
    }
    true
}

/// Whether one of the others lies in the component.
fn has_one(component: &Component, others: &[Component]) -> bool
    requires component { IsSoundBody (part_of component.now).body }
    requires others { AreSound (parts_of others.now) }
    ensures { result ≡ list_any (λ inner. part_lies_in inner (part_of component.now)) (parts_of others.now) }
{
    for other in others {
        if lies_in(other, component) {
            return true;
        }
    }
    false
}

/// Whether the inner component lies in the outer one.
fn lies_in(inner: &Component, outer: &Component) -> bool
    requires inner { IsSoundBody (part_of inner.now).body }
    requires outer { IsSoundBody (part_of outer.now).body }
    ensures { result ≡ part_lies_in (part_of inner.now) (part_of outer.now) }
{
    may_lie_in(inner.kind(), outer.kind()) && tested_lies_in(test_of(inner), test_of(outer))
}

/// Whether what the one tests lies in what the other does.
fn tested_lies_in(inner: Tested<'_>, outer: Tested<'_>) -> bool
    requires inner { IsSound inner }
    requires outer { IsSound outer }
    ensures { result ≡ tested_lies_in inner.entry outer.entry }
{
    match (inner, outer) {
        (Tested::Prefix(inner), Tested::Prefix(outer)) => prefix_lies_in(inner, outer),
        (Tested::Number(inner), Tested::Number(outer)) => numbers_lie_in(inner, outer),
        (Tested::Bits(inner), Tested::Bits(outer)) => inner.pairs() == outer.pairs(),
        (Tested::Prefix(_), Tested::Number(_) | Tested::Bits(_)) => false,
        (Tested::Number(_), Tested::Prefix(_) | Tested::Bits(_)) => false,
        (Tested::Bits(_), Tested::Prefix(_) | Tested::Number(_)) => false,
    }
}

/// Whether a component of the one type may lie in one of the other.
fn may_lie_in(inner: u8, outer: u8) -> bool
    ensures { result ≡ may_lie_in inner outer }
{
    inner == outer || outer == 4 && (inner == 5 || inner == 6)
}
