//! The words of actions, read (RFC 8955 section 7).

ghost use Rattle.std.specs.Prelude.{◌≡◌, ◌/◌, ◌%◌, ◌<◌, ◌^◌, ◌++◌, ◌∷◌, [], ℕ, List, map, codes, decimal, Some, IfOk, IfSome, IfNone};
ghost use Rattle.byteorder.specs.Endian.{big_bytes};
ghost use Rattle.hex.specs.Hex.{encode_lower};
ghost use Rattle.fs_base.specs.Language.{IsOctets};
ghost use Rattle.fs_actions.specs.Community.{IsAction};
ghost use Rattle.fs_words.specs.Actions.{action_name, action_text};
ghost use Rattle.fs_text.specs.ActionParts.{Gives, GivesPlain, form_parts, ip4_parts, long_octets, pair_parts, plain_parts, rate_parts, short_octets};
ghost use Rattle.fs_text.specs.{ActionWord.{Compared, IsNamed}, Pieces.{Delimiter, Part, Run, parts_of}, Reading.{Reads}, Parts.{as_part}};

use crate::figures::{loose_decimal, loose_figure};
use crate::parts::{Piece, parts_of};
use crate::prefixes::loose_dotted;
use byteorder::{BigEndian, ByteOrder};
use fs_actions::Action;
use fs_base::Memory;
use fs_words::{action_name, print_action};
use std::alloc::Global;

/// A number of sixteen bits in decimal.
fn loose_short(word: &[u8]) -> Option<u16>
    ensures { (n : ℕ) → n < 2 ^ 16 → word.now ≡ decimal n → result ≡ Some n }
{
    u16::try_from(loose_decimal(word)?).ok()
}

/// The octets of a community: its type, sixteen bits, and thirty-two.
fn octets_of(kind: u16, first: u16, last: u32) -> [u8; 8]
    ensures { result ≡ big_bytes 2 kind ++ (big_bytes 2 first ++ big_bytes 4 last) }
{
    let mut octets = [0u8; 8];
    BigEndian::write_u16(&mut octets, kind);
    BigEndian::write_u16(&mut octets[2..], first);
    BigEndian::write_u32(&mut octets[4..], last);
    octets
}

/// The octets of a traffic-rate of this type.
fn loose_rate(kind: u16, parts: &[Piece<'_>]) -> Option<[u8; 8]>
    ensures { (id figure : ℕ) → id < 2 ^ 16 → figure < 2 ^ 32
        → map as_part parts.now ≡ Run (decimal id) ∷ Delimiter 58 ∷ Run (encode_lower (big_bytes 4 figure)) ∷ []
        → result ≡ Some (big_bytes 2 kind ++ (big_bytes 2 id ++ big_bytes 4 figure)) }
{
    match parts {
        [Piece::Run(id), Piece::Delimiter(b':'), Piece::Run(figure)] => {
            Some(octets_of(kind, loose_short(id)?, loose_figure(figure)?))
        }
        _ => None,
    }
}

/// The octets of a traffic-action or a traffic-marking.
fn loose_plain(kind: u16, parts: &[Piece<'_>]) -> Option<[u8; 8]>
    ensures { (last : ℕ) → last < 256 → map as_part parts.now ≡ Run (decimal last) ∷ []
        → result ≡ Some (big_bytes 2 kind ++ (big_bytes 2 0 ++ big_bytes 4 last)) }
{
    match parts {
        [Piece::Run(last)] => Some(octets_of(kind, 0, u32::from(loose_short(last)?))),
        _ => None,
    }
}

/// The octets of a community: its type, thirty-two bits, and sixteen.
fn octets_with(kind: u16, first: u32, last: u16) -> [u8; 8]
    ensures { result ≡ big_bytes 2 kind ++ (big_bytes 4 first ++ big_bytes 2 last) }
{
    let mut octets = [0u8; 8];
    BigEndian::write_u16(&mut octets, kind);
    BigEndian::write_u32(&mut octets[2..], first);
    BigEndian::write_u16(&mut octets[6..], last);
    octets
}

/// The two numbers of these parts.
fn loose_two(parts: &[Piece<'_>]) -> Option<(u64, u64)>
    ensures { (first last : ℕ) → first < 2 ^ 64 → last < 2 ^ 64 → map as_part parts.now ≡ pair_parts first last
        → result ≡ Some (first, last) }
{
    match parts {
        [Piece::Run(first), _, Piece::Run(last)] => {
            Some((loose_decimal(first)?, loose_decimal(last)?))
        }
        _ => None,
    }
}

/// The octets of an rt-redirect with a two-octet AS number.
fn loose_as2(parts: &[Piece<'_>]) -> Option<[u8; 8]>
    ensures { Gives (2 ^ 16) (2 ^ 32) pair_parts (short_octets 0x8008) (map as_part parts.now) result }
{
    let (asn, number) = loose_two(parts)?;
    let asn = u16::try_from(asn).ok()?;
    Some(octets_of(0x8008, asn, u32::try_from(number).ok()?))
}

/// The octets of an rt-redirect of this type with a number of four octets and one of two.
fn loose_long(kind: u16, numbers: Option<(u64, u64)>) -> Option<[u8; 8]>
    ensures { (first last : ℕ) → first < 2 ^ 32 → last < 2 ^ 16 → numbers ≡ Some (first, last)
        → result ≡ Some (long_octets kind first last) }
{
    let (first, last) = numbers?;
    Some(octets_with(kind, u32::try_from(first).ok()?, u16::try_from(last).ok()?))
}

/// The octets of an rt-redirect of this form.
fn loose_form(form: &[u8], parts: &[Piece<'_>]) -> Option<[u8; 8]>
    ensures as2 { form.now ≡ codes "as2"
        → Gives (2 ^ 16) (2 ^ 32) pair_parts (short_octets 0x8008) (map as_part parts.now) result }
    ensures ip4 { form.now ≡ codes "ip4"
        → Gives (2 ^ 32) (2 ^ 16) ip4_parts (long_octets 0x8108) (map as_part parts.now) result }
    ensures as4 { form.now ≡ codes "as4"
        → Gives (2 ^ 32) (2 ^ 16) pair_parts (long_octets 0x8208) (map as_part parts.now) result }
{
    match form {
        b"as2" => loose_as2(parts),
        b"ip4" => loose_long(0x8108, loose_dotted(parts)),
        b"as4" => loose_long(0x8208, loose_two(parts)),
        _ => None,
    }
}

/// The octets of an rt-redirect.
fn loose_target(parts: &[Piece<'_>]) -> Option<[u8; 8]>
    ensures as2 { (rest : List Part) → map as_part parts.now ≡ form_parts (codes "as2") rest
        → Gives (2 ^ 16) (2 ^ 32) pair_parts (short_octets 0x8008) rest result }
    ensures ip4 { (rest : List Part) → map as_part parts.now ≡ form_parts (codes "ip4") rest
        → Gives (2 ^ 32) (2 ^ 16) ip4_parts (long_octets 0x8108) rest result }
    ensures as4 { (rest : List Part) → map as_part parts.now ≡ form_parts (codes "as4") rest
        → Gives (2 ^ 32) (2 ^ 16) pair_parts (long_octets 0x8208) rest result }
{
    match parts {
        [Piece::Run(form), Piece::Delimiter(b':'), rest @ ..] => loose_form(form, rest),
        _ => None,
    }
}

/// The octets of the action of this name whose word has these parts, by the forms of words.
fn loose_octets(name: &str, parts: &[Piece<'_>]) -> Option<[u8; 8]>
    ensures bytes { name.now ≡ codes "bytes"
        → Gives (2 ^ 16) (2 ^ 32) rate_parts (short_octets 0x8006) (map as_part parts.now) result }
    ensures packets { name.now ≡ codes "packets"
        → Gives (2 ^ 16) (2 ^ 32) rate_parts (short_octets 0x800c) (map as_part parts.now) result }
    ensures control { name.now ≡ codes "control" → GivesPlain 0x8007 (map as_part parts.now) result }
    ensures mark { name.now ≡ codes "mark" → GivesPlain 0x8009 (map as_part parts.now) result }
    ensures as2 { name.now ≡ codes "redirect"
        → (rest : List Part) → map as_part parts.now ≡ form_parts (codes "as2") rest
        → Gives (2 ^ 16) (2 ^ 32) pair_parts (short_octets 0x8008) rest result }
    ensures ip4 { name.now ≡ codes "redirect"
        → (rest : List Part) → map as_part parts.now ≡ form_parts (codes "ip4") rest
        → Gives (2 ^ 32) (2 ^ 16) ip4_parts (long_octets 0x8108) rest result }
    ensures as4 { name.now ≡ codes "redirect"
        → (rest : List Part) → map as_part parts.now ≡ form_parts (codes "as4") rest
        → Gives (2 ^ 32) (2 ^ 16) pair_parts (long_octets 0x8208) rest result }
{
    match name {
        "bytes" => loose_rate(0x8006, parts),
        "packets" => loose_rate(0x800c, parts),
        "control" => loose_plain(0x8007, parts),
        "mark" => loose_plain(0x8009, parts),
        "redirect" => loose_target(parts),
        _ => None,
    }
}

/// The octets of the action of this name whose word has these parts.
fn loose_action(name: &str, parts: &[Piece<'_>]) -> Option<[u8; 8]>
    ensures { (action : List ℕ) → IsNamed name.now action → map as_part parts.now ≡ parts_of (action_text action)
        → result ≡ Some action }
{
    loose_octets(name, parts)
}

/// The action of these octets, if they are one in normal form.
fn action_of(octets: &[u8; 8]) -> Option<Action>
    ensures some { IfSome result (λ action. (action ≡ octets.now) × IsAction action × IsOctets action) }
    ensures none { IfNone result (IsAction octets.now → ⊥) }
{
    match Action::of(octets) {
        Some(action) if action.octets() == octets.as_slice() => Some(action),
        _ => None,
    }
}

/// The action of these octets, if this is its name and its word.
fn compared(
    alloc: Global,
    name: &str,
    word: &str,
    octets: &[u8; 8],
) -> Result<Option<Action>, Memory>
    ensures { IfOk result (Compared name.now word.now octets.now) }
{
    let Some(action) = action_of(octets) else {
        return Ok(None);
    };
    let mut text = String::new(alloc);
    print_action(&action, &mut text)?;
    if action_name(&action) == name && text.as_str() == word {
        Ok(Some(action))
    } else {
        Ok(None)
    }
}

/// The one action of this name whose word this is; None where no action has them.
pub fn read_action(alloc: Global, name: &str, word: &str) -> Result<Option<Action>, Memory>
    ensures { IfOk result (Reads (IsNamed name.now) action_text word.now) }
{
    let parts = parts_of(alloc, word.as_bytes())?;
    match loose_action(name, &parts) {
        Some(octets) => compared(alloc, name, word, &octets),
        None => Ok(None),
    }
}
