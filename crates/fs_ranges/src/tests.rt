//! The test of one component.

ghost use Rattle.std.specs.Prelude.{◌≡◌, true, IfSome};
ghost use Rattle.fs_ranges.specs.{Limits.{allows, allows_port}, Facts.{Facts, front_of, number_of}, Ranges.{range_holds}};
ghost use Rattle.fs_ranges.specs.Tests.{flags_pass, is_under, passes, test_range};

use crate::facts::{Facts, top};
use crate::field::Field;
use crate::limits::Limit;
use crate::pattern::Pattern;
use crate::ranges::{Range, is_in_range};
use crate::spans::Spans;
use fs_base::Address;
use fs_ops::MaskList;

/// What a component asks of a packet's fields.
#[derive(Drop)]
pub(crate) enum Test {
    /// A field lies in the range; prefixes of IPv4 are ranges too.
    Within(Range),
    /// The field is one of the numbers.
    OneOf(Field, Spans),
    /// The source port or the destination port lies in the range.
    PortWithin(u32, u32),
    /// The source port or the destination port is one of the numbers.
    Ports(Spans),
    TcpFlags(MaskList),
    Fragment(MaskList),
    /// Bits of an IPv6 address.
    Destination(Pattern),
    Source(Pattern),
}

impl Test {
    #[inline(always)]
    pub(crate) fn passes(&self, facts: &Facts<'_>) -> bool
        ensures { result ≡ passes facts.now self.now }
    {
        match self {
            Test::Within(range) => range.holds(facts),
            Test::OneOf(field, numbers) => numbers.contains_field(facts.number(*field)),
            Test::PortWithin(low, high) => {
                is_in_range(Field::SourcePort, *low, *high, facts)
                    || is_in_range(Field::DestinationPort, *low, *high, facts)
            }
            Test::Ports(numbers) => {
                numbers.contains_field(facts.number(Field::SourcePort))
                    || numbers.contains_field(facts.number(Field::DestinationPort))
            }
            Test::TcpFlags(list) => flags_pass(list, facts.view.tcp_octets()),
            Test::Fragment(list) => list.eval(facts.view.fragment().into()),
            Test::Destination(pattern) => is_under(pattern, facts.view.destination()),
            Test::Source(pattern) => is_under(pattern, facts.view.source()),
        }
    }

    /// Within which numbers the field is of each packet that passes the test, if the test is of the field.
    pub(crate) fn limit(&self, field: Field) -> Option<Limit<'_>>
        ensures { (facts : Facts)
            → passes facts self.now ≡ true
            → IfSome result (λ limit. allows limit (number_of facts field) ≡ true) }
    {
        match self {
            Test::Within(range) if range.field.kind() == field.kind() => {
                Some(Limit::Range(range.low.into(), range.high.into()))
            }
            Test::OneOf(of, numbers) if of.kind() == field.kind() => {
                Some(Limit::Ranges(numbers.ranges()))
            }
            _ => None,
        }
    }

    /// Within which numbers the front of the source is of each packet that passes the test, if the test is of it.
    pub(crate) fn front_limit(&self) -> Option<Limit<'_>>
        ensures { (facts : Facts)
            → passes facts self.now ≡ true
            → IfSome result (λ limit. allows limit (front_of facts.view.source) ≡ true) }
    {
        match self {
            Test::Source(pattern) if pattern.offset == 0 => {
                Some(Limit::Range(top(pattern.low), top(pattern.high)))
            }
            _ => None,
        }
    }

    /// Within which numbers either port is of each packet that passes the test, if the test is of these.
    pub(crate) fn ports_limit(&self) -> Option<Limit<'_>>
        ensures { (facts : Facts)
            → passes facts self.now ≡ true
            → IfSome result (λ limit. allows_port limit facts ≡ true) }
    {
        match self {
            Test::PortWithin(low, high) => Some(Limit::Range((*low).into(), (*high).into())),
            _ => None,
        }
    }

    /// A range in which the field of each packet is that passes the test, where the test is of several ranges of one.
    pub(crate) fn hull(&self) -> Option<Range>
        ensures { (facts : Facts)
            → passes facts self.now ≡ true
            → IfSome result (λ range. range_holds facts range ≡ true) }
    {
        match self {
            Test::OneOf(field, numbers) => {
                let (low, high) = numbers.hull();
                Some(Range {
                    field: *field,
                    low,
                    high,
                })
            }
            _ => None,
        }
    }

    /// The range, where the test is one.
    pub(crate) fn range(&self) -> Option<Range>
        ensures { result ≡ test_range self.now }
    {
        match self {
            Test::Within(range) => Some(*range),
            Test::OneOf(_, _) => None,
            Test::PortWithin(_, _) => None,
            Test::Ports(_) => None,
            Test::TcpFlags(_) => None,
            Test::Fragment(_) => None,
            Test::Destination(_) => None,
            Test::Source(_) => None,
        }
    }
}

/// Whether the list holds of the TCP flags. A value of one octet has no bits above the flags' octet, so one number
/// serves values of either width.
#[inline(always)]
fn flags_pass(list: &MaskList, octets: Option<u16>) -> bool
    ensures { result ≡ flags_pass list.now octets }
{
    match octets {
        Some(octets) => list.eval((octets & 0x0fff).into()),
        None => false,
    }
}

#[inline(always)]
fn is_under(pattern: &Pattern, address: Address) -> bool
    ensures { result ≡ is_under pattern.now address }
{
    match address {
        Address::V4(_) => false,
        Address::V6(address) => {
            let bits = address << pattern.offset;
            pattern.low <= bits && bits <= pattern.high
        }
    }
}
