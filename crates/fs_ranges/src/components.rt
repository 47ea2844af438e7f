//! The tests of a rule's components.

ghost use Rattle.std.specs.Prelude.{◌≡◌, true, ◌<◌, ◌^◌, ◌⊎◌, IfOk, IfSome};
ghost use Rattle.fs_base.specs.Prefix.{last_address};
ghost use Rattle.fs_nlri.specs.{Component.{body_of, part_of}, Parts.{ListBody, V4Body, V6Body, part}, Sound.{IsSoundBody}};
ghost use Rattle.fs_ranges.specs.{Flags.{is_match, is_syn}, Ranges.{range}};
ghost use Rattle.fs_ranges.specs.Numbers.{IsOnlyRange, is_equality, is_joined_most, is_least};
ghost use Rattle.fs_ranges.specs.{Facts.{kind_of}, Tests.{IsPatternOf, IsTestOf, asks_one}};
ghost use Rattle.fs_ranges.specs.declared.field.Field.TheVariants.{DestinationAddress, SourceAddress};

use crate::facts::{ABSENT, SYN};
use crate::field::Field;
use crate::pattern::Pattern;
use crate::ranges::Range;
use crate::spans::Spans;
use crate::tests::Test;
use fs_base::{Family, Memory, Prefix};
use fs_nlri::{Component, PrefixForm};
use fs_ops::{MaskList, NumList};
use std::alloc::Global;

/// The test that packets pass which the component matches.
pub(crate) fn test_of(alloc: Global, component: &Component) -> Result<Test, Memory>
    requires { IsSoundBody (part_of component.now).body }
    ensures { IfOk result (IsTestOf (part_of component.now)) }
{
    match component {
        Component::Destination(form) => Ok(prefix_test(Field::DestinationAddress, form)),
        Component::Source(form) => Ok(prefix_test(Field::SourceAddress, form)),
        Component::Protocol(list) => field_test(alloc, Field::Protocol, list),
        Component::Port(list) => ports_test(alloc, list),
        Component::DestinationPort(list) => field_test(alloc, Field::DestinationPort, list),
        Component::SourcePort(list) => field_test(alloc, Field::SourcePort, list),
        Component::IcmpType(list) => field_test(alloc, Field::IcmpType, list),
        Component::IcmpCode(list) => field_test(alloc, Field::IcmpCode, list),
        Component::TcpFlags(list) => flags_test(list),
        Component::PacketLength(list) => field_test(alloc, Field::Length, list),
        Component::Dscp(list) => field_test(alloc, Field::Dscp, list),
        Component::Fragment(list) => Ok(Test::Fragment(list.copy()?)),
        Component::FlowLabel(list) => field_test(alloc, Field::FlowLabel, list),
    }
}

/// The test of a prefix of the destination or of the source.
fn prefix_test(field: Field, form: &PrefixForm) -> Test
    requires field { (field ≡ DestinationAddress) ⊎ (field ≡ SourceAddress) }
    requires sound { IsSoundBody (body_of form.now) }
    ensures { IsTestOf (part (kind_of field) (body_of form.now)) result }
{
    match form {
        PrefixForm::V4(prefix) => Test::Within(prefix_range(field, prefix)),
        PrefixForm::V6 {
            length,
            offset,
            pattern,
        } => {
            let under = pattern_of(*length, *offset, *pattern);
            match field {
                Field::SourceAddress => Test::Source(under),
                _ => Test::Destination(under),
            }
        }
    }
}

/// The addresses under a prefix of IPv4.
fn prefix_range(field: Field, prefix: &Prefix) -> Range
    requires { IsSoundBody (V4Body prefix.now.family prefix.now.length prefix.now.bits) }
    ensures { result ≡ range field prefix.now.bits (last_address prefix.now) }
{
    Range {
        field,
        low: prefix.bits as u32,
        high: prefix.last() as u32,
    }
}

fn pattern_of(length: u8, offset: u8, pattern: u128) -> Pattern
    requires { IsSoundBody (V6Body length offset pattern) }
    ensures { IsPatternOf length offset pattern result }
{
    let prefix = Prefix::of_bits(Family::V6, pattern, length - offset);
    Pattern {
        low: prefix.bits,
        high: prefix.last(),
        offset,
    }
}

/// The test of TCP flags: a range, where the list says that SYN is set and no more.
fn flags_test(list: &MaskList) -> Result<Test, Memory>
    requires { IsSoundBody (ListBody list.now) }
    ensures { IfOk result (IsTestOf (part 9 (ListBody list.now))) }
{
    if is_syn(list.pairs()) {
        return Ok(Test::Within(Range {
            field: Field::Syn,
            low: SYN as u32,
            high: SYN as u32,
        }));
    }
    Ok(Test::TcpFlags(list.copy()?))
}

fn is_syn(pairs: &[(u8, u64)]) -> bool
    ensures { result ≡ is_syn pairs.now }
{
    match pairs {
        [(operator, value)] => is_match(*operator) && *value == SYN as u64,
        _ => false,
    }
}

/// Whether the operator says that all bits of its value are set, and no more (RFC 8955 section 4.2.1.2).
fn is_match(operator: u8) -> bool
    ensures { result ≡ is_match operator }
{
    operator & 2 == 0 && operator & 1 != 0
}

/// The test of a list by the field: a range, where the numbers are one.
fn field_test(alloc: Global, field: Field, list: &NumList) -> Result<Test, Memory>
    requires { asks_one field ≡ true }
    ensures { IfOk result (IsTestOf (part (kind_of field) (ListBody list.now))) }
{
    match only_range(list.pairs()) {
        Some((low, high)) => Ok(Test::Within(Range { field, low, high })),
        None => numbers_test(alloc, field, list),
    }
}

/// The first and the last number that the list holds of, where it says nothing but that a field is a number, or that
/// it isn't below one and not above another.
fn only_range(pairs: &[(u8, u64)]) -> Option<(u32, u32)>
    ensures numbers { IfSome result (IsOnlyRange pairs.now) }
    ensures small { IfSome result (λ range. range.1 < 2 ^ 32) }
{
    match pairs {
        [(operator, value)] if is_equality(*operator) && *value < ABSENT => {
            Some((*value as u32, *value as u32))
        }
        [(least, low), (most, high)]
            if is_least(*least) && is_joined_most(*most) && *low < ABSENT && *high < ABSENT => {
            Some((*low as u32, *high as u32))
        }
        _ => None,
    }
}

/// Whether the operator says that a number is equal to its value, and no more (RFC 8955 section 4.2.1.1).
pub(crate) fn is_equality(operator: u8) -> bool
    ensures { result ≡ is_equality operator }
{
    operator & 4 == 0 && operator & 2 == 0 && operator & 1 != 0
}

/// Whether the operator says that a number isn't below its value.
fn is_least(operator: u8) -> bool
    ensures { result ≡ is_least operator }
{
    operator & 4 == 0 && operator & 2 != 0 && operator & 1 != 0
}

/// Whether the operator says, with the one before it, that a number isn't above its value.
fn is_joined_most(operator: u8) -> bool
    ensures { result ≡ is_joined_most operator }
{
    operator & 64 != 0 && operator & 4 != 0 && operator & 2 == 0 && operator & 1 != 0
}

fn numbers_test(alloc: Global, field: Field, list: &NumList) -> Result<Test, Memory>
    requires { asks_one field ≡ true }
    ensures { IfOk result (IsTestOf (part (kind_of field) (ListBody list.now))) }
{
    let numbers = Spans::of(alloc, list)?;
    match numbers.range() {
        Some((low, high)) => Ok(Test::Within(Range { field, low, high })),
        None => Ok(Test::OneOf(field, numbers)),
    }
}

fn ports_test(alloc: Global, list: &NumList) -> Result<Test, Memory>
    ensures { IfOk result (IsTestOf (part 4 (ListBody list.now))) }
{
    let numbers = Spans::of(alloc, list)?;
    match numbers.range() {
        Some((low, high)) => Ok(Test::PortWithin(low, high)),
        None => Ok(Test::Ports(numbers)),
    }
}
