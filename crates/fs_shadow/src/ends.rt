//! Prefixes compared by their ends: where the lowest and the highest address that match one match another, all do that
//! match the one.

ghost use Rattle.std.specs.Prelude.{◌≡◌, ◌-◌, ◌/◌, ◌^◌, ◌≤◌, ◌==◌, ◌&&◌};
ghost use Rattle.fs_base.specs.Bits.{cleared, width_of};
ghost use Rattle.fs_nlri.specs.{Component.{body_of}, Parts.{V6Body}, Sound.{IsSoundBody}};
ghost use Rattle.fs_shadow.specs.{Contains.{body_lies_in}, Ends.{highest_with}};

use fs_base::{Family, Prefix};
use fs_nlri::PrefixForm;

/// Whether every address that matches the inner prefix matches the outer one.
pub(crate) fn prefix_lies_in(inner: PrefixForm, outer: PrefixForm) -> bool
    requires inner { IsSoundBody (body_of inner) }
    requires outer { IsSoundBody (body_of outer) }
    ensures { result ≡ body_lies_in 1 (body_of inner) (body_of outer) }
{
    match (inner, outer) {
        (PrefixForm::V4(inner), PrefixForm::V4(outer)) => {
            begin_with(
                Family::V4,
                inner.bits,
                inner.last(),
                outer.length,
                outer.bits,
            )
        }
        (
            PrefixForm::V6 {
                length,
                offset,
                pattern,
            },
            PrefixForm::V6 {
                length: outer_length,
                offset: outer_offset,
                pattern: outer_pattern,
            },
        ) => {
            let lowest = pattern >> offset;
            let highest = highest_address(length, offset, pattern);
            begin_with(
                Family::V6,
                lowest << outer_offset,
                highest << outer_offset,
                outer_length - outer_offset,
                outer_pattern,
            )
        }
        (PrefixForm::V4(_), PrefixForm::V6 { .. }) => false,
        (PrefixForm::V6 { .. }, PrefixForm::V4(_)) => false,
    }
}

/// The highest IPv6 address whose bits from the offset up to the length are those of the pattern.
fn highest_address(length: u8, offset: u8, pattern: u128) -> u128
    requires { IsSoundBody (V6Body length offset pattern) }
    ensures { result
        ≡ highest_with offset (length - offset) (128 - length) (pattern / 2 ^ (128 - (length - offset))) }
{
    let known = Prefix::of_bits(Family::V6, pattern, length - offset);
    known.last() >> offset | !(u128::MAX >> offset)
}

/// Whether the first `length` bits of both addresses are those of `bits`, and the others of `bits` are 0.
fn begin_with(family: Family, one: u128, other: u128, length: u8, bits: u128) -> bool
    requires { length ≤ width_of family }
    ensures { result
        ≡ ((cleared (width_of family) length one == bits) && (cleared (width_of family) length other == bits)) }
{
    Prefix::of_bits(family, one, length).bits == bits
        && Prefix::of_bits(family, other, length).bits == bits
}
