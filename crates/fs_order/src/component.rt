//! The order of components.

ghost use Rattle.std.specs.Prelude.{◌≡◌, ◌-◌};
ghost use Rattle.fs_base.specs.{declared.prefix.Family.TheVariants.{V6}, Prefix.{IsPrefixOf, prefix_cmp}};
ghost use Rattle.fs_nlri.specs.{Component.{body_of, content_body, part_of}, Spelling.{IsRange}, Sound.{IsSoundBody}};
ghost use Rattle.fs_order.specs.Component.{body_cmp, part_cmp};

use fs_base::{Family, Prefix};
use fs_nlri::{Component, Content, PrefixForm};
use std::cmp::Ordering;

/// How two components are ordered.
pub(crate) fn compare_component(a: &Component, b: &Component) -> Ordering
    requires a { IsSoundBody (part_of a.now).body }
    requires b { IsSoundBody (part_of b.now).body }
    ensures { result ≡ part_cmp (part_of a.now) (part_of b.now) }
{
    match a.kind().cmp(&b.kind()) {
        Ordering::Equal => compare_content(a.content(), b.content()),
        order => order,
    }
}

/// The octets of two lists compare as their pairs do: the last of each list, and it alone, has the end bit, and equal
/// operators have values of one width.
fn compare_content(a: Content<'_>, b: Content<'_>) -> Ordering
    requires a { IsSoundBody (content_body a) }
    requires b { IsSoundBody (content_body b) }
    ensures { result ≡ body_cmp (content_body a.entry) (content_body b.entry) }
{
    match (a, b) {
        (Content::Prefix(form), Content::Prefix(other)) => compare_prefix(form, other),
        (Content::Numbers(list), Content::Numbers(other)) => list.pairs().cmp(other.pairs()),
        (Content::Numbers(list), Content::Masks(other)) => list.pairs().cmp(other.pairs()),
        (Content::Masks(list), Content::Numbers(other)) => list.pairs().cmp(other.pairs()),
        (Content::Masks(list), Content::Masks(other)) => list.pairs().cmp(other.pairs()),
        (Content::Prefix(_), Content::Numbers(_) | Content::Masks(_)) => Ordering::Less,
        (Content::Numbers(_) | Content::Masks(_), Content::Prefix(_)) => Ordering::Greater,
    }
}

/// The lower offset first; of nested prefixes the longer, else the lower address.
fn compare_prefix(a: PrefixForm, b: PrefixForm) -> Ordering
    requires a { IsSoundBody (body_of a) }
    requires b { IsSoundBody (body_of b) }
    ensures { result ≡ body_cmp (body_of a) (body_of b) }
{
    match (a, b) {
        (PrefixForm::V4(prefix), PrefixForm::V4(other)) => compare_v4(prefix, other),
        (
            PrefixForm::V6 {
                length,
                offset,
                pattern,
            },
            PrefixForm::V6 {
                length: other_length,
                offset: other_offset,
                pattern: other_pattern,
            },
        ) => match offset.cmp(&other_offset) {
            Ordering::Equal => pattern_prefix(length, offset, pattern).cmp(&pattern_prefix(
                other_length,
                other_offset,
                other_pattern,
            )),
            order => order,
        },
        (PrefixForm::V4(_), PrefixForm::V6 { .. }) => Ordering::Less,
        (PrefixForm::V6 { .. }, PrefixForm::V4(_)) => Ordering::Greater,
    }
}

/// Most prefixes that are compared are equal, since rules of one destination stand together: that is seen without their
/// last addresses.
fn compare_v4(a: Prefix, b: Prefix) -> Ordering
    ensures { result ≡ prefix_cmp a b }
{
    if a == b {
        return Ordering::Equal;
    }
    a.cmp(&b)
}

/// The bits of a pattern as a prefix.
fn pattern_prefix(length: u8, offset: u8, pattern: u128) -> Prefix
    requires { IsRange length offset }
    ensures { IsPrefixOf V6 pattern (length - offset) result }
{
    Prefix::of_bits(Family::V6, pattern, length - offset)
}
