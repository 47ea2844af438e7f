//! The words of prefixes, read loosely (RFC 8955 section 4.2.2.1, RFC 8956 section 3.1).

ghost use Rattle.std.specs.{Prelude.{◌≡◌, ◌-◌, ◌/◌, ◌%◌, ◌<◌, ◌≤◌, ◌^◌, ◌∷◌, [], ℕ, List, map, decimal, Some, IfNone, IfSome}, Option.{option_map}};
ghost use Rattle.fs_base.specs.{Bits.{cleared}, declared.prefix.Family.TheVariants.{V4 as Four}};
ghost use Rattle.fs_nlri.specs.{Component.{body_of}, Forms.{prefix_form}, Parts.{Body, V4Body, V6Body}, Rule.{IsNormalBody}, Spelling.{IsRange}};
ghost use Rattle.fs_words.specs.{Figures.{hexadecimal}, Values.{body_text}};
ghost use Rattle.fs_text.specs.Pieces.{Delimiter, Part, Run, parts_of};
ghost use Rattle.fs_text.specs.PrefixParts.{GivesV4, GivesV6, address_parts, half_parts, range_parts, wide_parts};
ghost use Rattle.fs_text.specs.Parts.{as_part};

use crate::figures::{loose_address, loose_decimal, loose_group, loose_octet};
use crate::parts::Piece;
use fs_base::{Family, Prefix};
use fs_nlri::PrefixForm;

fn v4_form(address: u64, length: u8) -> Option<PrefixForm>
    ensures { length ≤ 32 → address ≡ cleared 32 length address
        → option_map body_of result ≡ Some (V4Body Four length address) }
{
    let prefix = Prefix::new(Family::V4, u128::from(address), length)?;
    Some(PrefixForm::V4(prefix))
}

/// The address and the number of these parts.
pub(crate) fn loose_dotted(parts: &[Piece<'_>]) -> Option<(u64, u64)>
    ensures { (mark address number : ℕ) → address < 2 ^ 32 → number < 2 ^ 64
        → map as_part parts.now ≡ address_parts mark address number → result ≡ Some (address, number) }
{
    match parts {
        [
            Piece::Run(a),
            Piece::Delimiter(_),
            Piece::Run(b),
            Piece::Delimiter(_),
            Piece::Run(c),
            Piece::Delimiter(_),
            Piece::Run(d),
            Piece::Delimiter(_),
            Piece::Run(number),
        ] => Some((loose_address(a, b, c, d)?.into(), loose_decimal(number)?)),
        _ => None,
    }
}

/// The IPv4 prefix of these parts.
fn loose_v4(parts: &[Piece<'_>]) -> Option<PrefixForm>
    ensures { GivesV4 (map as_part parts.now) (option_map body_of result) }
{
    let (address, length) = loose_dotted(parts)?;
    v4_form(address, u8::try_from(length).ok()?)
}

/// The number of four groups of sixteen bits.
fn joined(a: u16, b: u16, c: u16, d: u16) -> u64
    ensures { (n : ℕ) → a ≡ n / 2 ^ 48 % 2 ^ 16 → b ≡ n / 2 ^ 32 % 2 ^ 16 → c ≡ n / 2 ^ 16 % 2 ^ 16
        → d ≡ n % 2 ^ 16 → result ≡ n % 2 ^ 64 }
{
    ((u64::from(a) * 0x1_0000 + u64::from(b)) * 0x1_0000 + u64::from(c)) * 0x1_0000 + u64::from(d)
}

/// The number of four groups in hexadecimal.
fn loose_groups(a: &[u8], b: &[u8], c: &[u8], d: &[u8]) -> Option<u64>
    ensures { (n : ℕ)
        → a.now ≡ hexadecimal (n / 2 ^ 48 % 2 ^ 16) → b.now ≡ hexadecimal (n / 2 ^ 32 % 2 ^ 16)
        → c.now ≡ hexadecimal (n / 2 ^ 16 % 2 ^ 16) → d.now ≡ hexadecimal (n % 2 ^ 16)
        → result ≡ Some (n % 2 ^ 64) }
{
    let high = loose_group(a)?;
    let second = loose_group(b)?;
    let third = loose_group(c)?;
    Some(joined(high, second, third, loose_group(d)?))
}

/// A length and an offset, by the number of their parts.
fn loose_ends(parts: &[Piece<'_>]) -> Option<(u8, u8)>
    ensures whole { (len : ℕ) → len < 256 → map as_part parts.now ≡ Delimiter 47 ∷ Run (decimal len) ∷ []
        → result ≡ Some (len, 0) }
    ensures part { (len offset : ℕ) → len < 256 → offset < 256
        → map as_part parts.now ≡ Delimiter 47 ∷ Run (decimal len) ∷ Delimiter 45 ∷ Run (decimal offset) ∷ []
        → result ≡ Some (len, offset) }
{
    match parts {
        [_, Piece::Run(length)] => match loose_octet(length) {
            Some(length) => Some((length, 0)),
            None => None,
        },
        [_, Piece::Run(length), _, Piece::Run(offset)] => {
            match (loose_octet(length), loose_octet(offset)) {
                (Some(length), Some(offset)) => Some((length, offset)),
                _ => None,
            }
        }
        _ => None,
    }
}

/// A length, and an offset, which may be left out where it is 0.
fn loose_range(parts: &[Piece<'_>]) -> Option<(u8, u8)>
    ensures { (len offset : ℕ) → len < 256 → offset < 256 → map as_part parts.now ≡ range_parts len offset
        → result ≡ Some (len, offset) }
{
    loose_ends(parts)
}

/// The pattern that an address has from the offset on.
fn v6_form(address: u128, length: u8, offset: u8) -> Option<PrefixForm>
    ensures { (pattern : ℕ) → IsRange length offset → pattern ≡ cleared 128 (length - offset) pattern
        → address ≡ pattern / 2 ^ offset → option_map body_of result ≡ Some (V6Body length offset pattern) }
{
    if offset < 128 {
        Some(PrefixForm::V6 {
            length,
            offset,
            pattern: address << offset,
        })
    } else {
        None
    }
}

/// An address of two halves.
fn whole(high: u64, low: u64) -> u128
    ensures { (n : ℕ) → n < 2 ^ 128 → high ≡ n / 2 ^ 64 % 2 ^ 64 → low ≡ n % 2 ^ 64 → result ≡ n }
{
    u128::from(high) * 0x1_0000_0000_0000_0000 + u128::from(low)
}

/// The number of the first four groups, and the parts behind them.
fn loose_half<'a>(parts: &'a [Piece<'a>]) -> Option<(u64, &'a [Piece<'a>])>
    ensures some { IfSome result (λ read. (n : ℕ) → (rest : List Part) → map as_part parts.now ≡ half_parts n rest
        → (read.0 ≡ n % 2 ^ 64) × (map as_part read.1.now ≡ rest)) }
    ensures none { IfNone result ((n : ℕ) → (rest : List Part) → map as_part parts.now ≡ half_parts n rest → ⊥) }
{
    match parts {
        [
            Piece::Run(a),
            Piece::Delimiter(b':'),
            Piece::Run(b),
            Piece::Delimiter(b':'),
            Piece::Run(c),
            Piece::Delimiter(b':'),
            Piece::Run(d),
            rest @ ..,
        ] => match loose_groups(a, b, c, d) {
            Some(half) => Some((half, rest)),
            None => None,
        },
        _ => None,
    }
}

/// The low half of an address, a length and an offset.
fn loose_behind(parts: &[Piece<'_>]) -> Option<(u64, (u8, u8))>
    ensures { (n len offset : ℕ) → len < 256 → offset < 256
        → map as_part parts.now ≡ half_parts n (range_parts len offset)
        → result ≡ Some (n % 2 ^ 64, (len, offset)) }
{
    let (low, rest) = loose_half(parts)?;
    Some((low, loose_range(rest)?))
}

/// The same behind a colon.
fn loose_low(parts: &[Piece<'_>]) -> Option<(u64, (u8, u8))>
    ensures { (n len offset : ℕ) → len < 256 → offset < 256
        → map as_part parts.now ≡ Delimiter 58 ∷ half_parts n (range_parts len offset)
        → result ≡ Some (n % 2 ^ 64, (len, offset)) }
{
    match parts {
        [Piece::Delimiter(b':'), rest @ ..] => loose_behind(rest),
        _ => None,
    }
}

/// An address, a length and an offset.
fn loose_wide(parts: &[Piece<'_>]) -> Option<(u128, (u8, u8))>
    ensures { (n len offset : ℕ) → n < 2 ^ 128 → len < 256 → offset < 256
        → map as_part parts.now ≡ wide_parts n (range_parts len offset) → result ≡ Some (n, (len, offset)) }
{
    match loose_half(parts) {
        Some((high, rest)) => match loose_low(rest) {
            Some((low, range)) => Some((whole(high, low), range)),
            None => None,
        },
        None => None,
    }
}

/// The IPv6 prefix of these parts.
fn loose_v6(parts: &[Piece<'_>]) -> Option<PrefixForm>
    ensures { GivesV6 (map as_part parts.now) (option_map body_of result) }
{
    match loose_wide(parts) {
        Some((address, (length, offset))) => v6_form(address, length, offset),
        None => None,
    }
}

/// The prefix of the family that has these parts.
pub(crate) fn loose_prefix(family: Family, parts: &[Piece<'_>]) -> Option<PrefixForm>
    ensures { (body : Body) → IsNormalBody (prefix_form family) body
        → map as_part parts.now ≡ parts_of (body_text 1 body) → option_map body_of result ≡ Some body }
{
    match family {
        Family::V4 => loose_v4(parts),
        Family::V6 => loose_v6(parts),
    }
}
