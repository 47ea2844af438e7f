//! The components of a rule, made ready to be compared with those of many others.

ghost use Rattle.std.specs.Prelude.{◌≡◌, ◌^◌, ◌<◌, ℕ, IfOk, Some, false, true};
ghost use Rattle.fs_ops.specs.Evaluation.{compares, holds};
ghost use Rattle.fs_ranges.specs.Spans.{contains};
ghost use Rattle.fs_nlri.specs.{Component.{body_of, part_of}, Parts.{ListBody, part}, Sound.{IsSoundBody}};
ghost use Rattle.fs_shadow.specs.{Contains.{may_lie_in, tests_bits}, Extents.{IsMeasureOf, bits_lie_in, extent_lies_in, is_probed, key_in, measure_lies_in}};

use crate::prefixes::Known;
use fs_base::{Family, Memory, Prefix};
use fs_nlri::{Component, PrefixForm};
use fs_ops::{MaskList, NumList};
use fs_ranges::Spans;
use std::alloc::Global;

/// What a component takes in.
#[derive(Drop)]
pub(crate) enum Extent {
    /// A prefix of IPv4.
    V4(Prefix),
    V6(Known),
    /// The numbers that its list holds of.
    Numbers(Spans),
    /// A list that tests bits.
    Bits(MaskList),
}

/// A component, by its type and what it takes in.
#[derive(Drop)]
pub(crate) struct Measure {
    kind: u8,
    /// Whether it takes in no more than one number.
    single: bool,
    extent: Extent,
    /// One of the numbers that it takes in.
    pub(crate) held: Option<u64>,
}

impl Measure {
    pub(crate) fn of(alloc: Global, component: &Component) -> Result<Measure, Memory>
        requires { IsSoundBody (part_of component.now).body }
        ensures { IfOk result (IsMeasureOf (part_of component.now)) }
    {
        match component {
            Component::Destination(form) => Ok(of_prefix(1, form)),
            Component::Source(form) => Ok(of_prefix(2, form)),
            Component::Protocol(list) => of_numbers(alloc, 3, list),
            Component::Port(list) => of_numbers(alloc, 4, list),
            Component::DestinationPort(list) => of_numbers(alloc, 5, list),
            Component::SourcePort(list) => of_numbers(alloc, 6, list),
            Component::IcmpType(list) => of_numbers(alloc, 7, list),
            Component::IcmpCode(list) => of_numbers(alloc, 8, list),
            Component::TcpFlags(list) => of_bits(9, list),
            Component::PacketLength(list) => of_numbers(alloc, 10, list),
            Component::Dscp(list) => of_numbers(alloc, 11, list),
            Component::Fragment(list) => of_bits(12, list),
            Component::FlowLabel(list) => of_numbers(alloc, 13, list),
        }
    }

    /// Whether this component lies in the other.
    pub(crate) fn lies_in(&self, outer: &Measure) -> bool
        ensures { result ≡ measure_lies_in self.now outer.now }
    {
        may_be_in(self.kind, outer.kind) && extent_lies_in(&self.extent, &outer.extent)
    }

    /// The one number that it takes in, where it is known; else 0.
    pub(crate) fn key(&self) -> u64
        ensures { result ≡ key_in self.now }
    {
        match self.held {
            Some(number) if self.single => number,
            _ => 0,
        }
    }

    /// Whether one of its numbers is known, if it takes in numbers.
    pub(crate) fn is_probed(&self) -> bool
        ensures { result ≡ is_probed self.now }
    {
        match self.extent {
            Extent::Numbers(_) => self.held.is_some(),
            Extent::V4(_) | Extent::V6(_) | Extent::Bits(_) => true,
        }
    }
}

fn of_prefix(kind: u8, form: &PrefixForm) -> Measure
    requires { IsSoundBody (body_of form.now) }
    ensures { IsMeasureOf (part kind (body_of form.now)) result }
{
    let extent = match *form {
        PrefixForm::V4(prefix) => Extent::V4(prefix),
        PrefixForm::V6 {
            length,
            offset,
            pattern,
        } => Extent::V6(Known {
            length,
            offset,
            pattern,
        }),
    };
    Measure {
        kind,
        extent,
        single: false,
        held: None,
    }
}

fn of_numbers(alloc: Global, kind: u8, list: &NumList) -> Result<Measure, Memory>
    requires { tests_bits kind ≡ false }
    ensures { IfOk result (IsMeasureOf (part kind (ListBody list.now))) }
{
    let spans = Spans::of(alloc, list)?;
    Ok(Measure {
        kind,
        single: is_single(list.pairs()),
        held: held_of(list.pairs(), &spans),
        extent: Extent::Numbers(spans),
    })
}

/// Whether the pairs are one alone, which holds of no number but its value.
fn is_single(pairs: &[(u8, u64)]) -> bool
    ensures { result ≡ true
        → (n k : ℕ)
        → holds (compares n) pairs.now ≡ true
        → holds (compares k) pairs.now ≡ true
        → n ≡ k }
{
    match pairs {
        [(operator, _)] => is_equality(*operator),
        _ => false,
    }
}

/// Whether the operator says of no number but its value that it holds (RFC 8955 section 4.2.1.1).
fn is_equality(operator: u8) -> bool
    ensures { result ≡ true → (n value : ℕ) → compares n (operator, value) ≡ true → n ≡ value }
{
    operator & 4 == 0 && operator & 2 == 0
}

/// A number of these ranges, if one stands at the first value of the pairs that they are of, or beside it.
fn held_of(pairs: &[(u8, u64)], spans: &Spans) -> Option<u64>
    ensures held { (n : ℕ) → result ≡ Some n → contains spans.now n ≡ true }
    ensures small { (n : ℕ) → result ≡ Some n → n < 2 ^ 64 }
{
    match pairs {
        [(_, value), ..] => held_at(spans, *value),
        [] => None,
    }
}

fn held_at(spans: &Spans, value: u64) -> Option<u64>
    ensures held { (n : ℕ) → result ≡ Some n → contains spans.now n ≡ true }
    ensures small { (n : ℕ) → result ≡ Some n → n < 2 ^ 64 }
{
    let above = value.saturating_add(1);
    let below = value.saturating_sub(1);
    if spans.contains(value) {
        Some(value)
    } else if spans.contains(above) {
        Some(above)
    } else if spans.contains(below) {
        Some(below)
    } else {
        None
    }
}

fn of_bits(kind: u8, list: &MaskList) -> Result<Measure, Memory>
    requires { tests_bits kind ≡ true }
    ensures { IfOk result (IsMeasureOf (part kind (ListBody list.now))) }
{
    Ok(Measure {
        kind,
        extent: Extent::Bits(list.copy()?),
        single: false,
        held: None,
    })
}

/// Whether a component of the one type can lie in one of the other: of its own, or a port's in that of either port.
fn may_be_in(inner: u8, outer: u8) -> bool
    ensures { result ≡ may_lie_in inner outer }
{
    if outer == 4 {
        inner == 4 || inner == 5 || inner == 6
    } else {
        inner == outer
    }
}

/// Whether all that the inner one takes in is taken in by the outer one.
fn extent_lies_in(inner: &Extent, outer: &Extent) -> bool
    ensures { result ≡ extent_lies_in inner.now outer.now }
{
    match (inner, outer) {
        (Extent::V4(inner), Extent::V4(outer)) => outer.covers(inner),
        (Extent::V6(inner), Extent::V6(outer)) => bits_lie_in(*inner, *outer),
        (Extent::Numbers(inner), Extent::Numbers(outer)) => inner.within(outer),
        (Extent::Bits(inner), Extent::Bits(outer)) => inner.pairs() == outer.pairs(),
        (Extent::V4(_), Extent::V6(_) | Extent::Numbers(_) | Extent::Bits(_)) => false,
        (Extent::V6(_), Extent::V4(_) | Extent::Numbers(_) | Extent::Bits(_)) => false,
        (Extent::Numbers(_), Extent::V4(_) | Extent::V6(_) | Extent::Bits(_)) => false,
        (Extent::Bits(_), Extent::V4(_) | Extent::V6(_) | Extent::Numbers(_)) => false,
    }
}

/// Whether each bit that the outer prefix knows is known by the inner one too, and is the same.
fn bits_lie_in(inner: Known, outer: Known) -> bool
    ensures { result ≡ bits_lie_in inner outer }
{
    if outer.length == 0 {
        return true;
    }
    if outer.offset < inner.offset || inner.length < outer.length {
        return false;
    }
    let bits = inner.pattern << (outer.offset - inner.offset);
    Prefix::of_bits(Family::V6, bits, outer.length - outer.offset).bits == outer.pattern
}
