//! Which of two rules is applied first.

ghost use Rattle.std.specs.{Prelude.{◌≡◌, ◌↔◌, IsTrue}, Ordering.{is_lt}};
ghost use Rattle.fs_nlri.specs.{Component.{parts_of}, Rule.{IsRule}, Sound.{AreSound}};
ghost use Rattle.fs_order.specs.Comparison.{Before, parts_cmp, rule_cmp};

use crate::component::compare_component;
use fs_nlri::{Component, Rule};
use std::cmp::Ordering;

/// Whether rule `a` is applied before rule `b`. Rules of IPv4 stand before those of IPv6. Within a family
/// components are compared pair by pair: the lower type first, where the end of a rule counts as a type above all
/// others; of IPv6 prefixes the lower offset first; of nested prefixes the more specific first, else the lower
/// address; of lists the lower octets first, and where one's are the front of the other's, the longer.
pub fn precedes(a: &Rule, b: &Rule) -> bool
    ensures value { result ≡ is_lt (rule_cmp a.now b.now) }
    ensures before { IsTrue result ↔ Before a.now b.now }
{
    compare(a, b).is_lt()
}

/// How two rules are ordered: the lesser is applied first.
pub fn compare(a: &Rule, b: &Rule) -> Ordering
    ensures value { result ≡ rule_cmp a.now b.now }
    ensures rules { IsRule a.now × IsRule b.now }
{
    let components = a.components();
    let others = b.components();
    match a.family().afi().cmp(&b.family().afi()) {
        Ordering::Equal => compare_components(components, others),
        order => order,
    }
}

fn compare_components(a: &[Component], b: &[Component]) -> Ordering
    requires a { AreSound (parts_of a.now) }
    requires b { AreSound (parts_of b.now) }
    ensures { result ≡ parts_cmp (parts_of a.now) (parts_of b.now) }
{
    let mut rest = b;
    for component in a {
        let Some((other, others)) = rest.split_first() else {
            return Ordering::Less;
        };
        match compare_component(component, other) {
            Ordering::Equal => rest = others,
            order => return order,
        }
    }
    if rest.is_empty() {
        Ordering::Equal
    } else {
        Ordering::Greater
    }
}
