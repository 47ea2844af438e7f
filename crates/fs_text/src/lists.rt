//! The words of lists of operators and values, read loosely (RFC 8955 section 4.2.1).

ghost use Rattle.std.specs.Prelude.{◌≡◌, ◌<◌, ◌≤◌, ◌^◌, ◌++◌, ◌==◌, true, if◌then◌else◌, ℕ, List, codes, decimal, length, Some, IfOk, IfSome};
ghost use Rattle.std.specs.{List.{prefix_len, AllByRecursion}, Option.{option_map}};
ghost use Rattle.fs_ops.specs.{Operator.{width_code, width_of}, OperatorList.{IsNormal}, declared.kind.Kind.TheVariants.{Numeric, Bitmask}};
ghost use Rattle.fs_words.specs.{Figures.{octets_text}, Operators.{list_text, mask_sign, number_sign, operand_text, pair_text, sign, width_text, width_word}};
ghost use Rattle.fs_text.specs.{ListWord.{code_at, is_sign, is_within, plain_of, relation_of}, Pieces.{Ends, is_plain}};

use crate::figures::loose_decimal;
use crate::parts::{is_plain, run_len};
use byteorder::{BigEndian, ByteOrder};
use fs_base::Memory;
use fs_ops::Kind;
use fs_words::least_code;
use std::alloc::Global;

/// How many octets stand before the first & or comma.
fn pair_len(text: &[u8]) -> usize
    ensures value { result ≡ prefix_len is_within text.now }
    ensures within { result ≤ length text.now }
{
    let mut place = 0;
    while place < text.len() && !(text[place] == b'&' || text[place] == b',') {
        place += 1;
    }
    place
}

/// How many octets stand before the first letter or digit.
fn sign_len(text: &[u8]) -> usize
    ensures value { result ≡ prefix_len is_sign text.now }
    ensures within { result ≤ length text.now }
{
    let mut place = 0;
    while place < text.len() && !is_plain(text[place]) {
        place += 1;
    }
    place
}

/// The bits of a sign of a comparison.
fn loose_comparison(text: &[u8]) -> Option<u8>
    ensures small { IfSome result (λ relation. relation < 8) }
    ensures loose { (relation : ℕ) → relation < 8 → text.now ≡ number_sign relation → result ≡ Some relation }
{
    match text {
        b"!" => Some(0),
        b"=" => Some(1),
        b">" => Some(2),
        b">=" => Some(3),
        b"<" => Some(4),
        b"<=" => Some(5),
        b"!=" => Some(6),
        b"*" => Some(7),
        _ => None,
    }
}

/// The bits of a sign of a test of bits.
fn loose_test(text: &[u8]) -> Option<u8>
    ensures small { IfSome result (λ relation. relation < 8) }
    ensures loose { (relation : ℕ) → relation < 4 → text.now ≡ mask_sign relation → result ≡ Some relation }
{
    match text {
        b"~" => Some(0),
        b"=" => Some(1),
        b"!~" => Some(2),
        b"!=" => Some(3),
        _ => None,
    }
}

/// The bits of a sign.
fn loose_sign(kind: Kind, text: &[u8]) -> Option<u8>
    ensures small { IfSome result (λ relation. relation < 8) }
    ensures loose { (operator : ℕ) → text.now ≡ sign kind operator → result ≡ Some (relation_of kind operator) }
{
    match kind {
        Kind::Numeric => loose_comparison(text),
        Kind::Bitmask => loose_test(text),
    }
}

/// The code of a width that is written behind this value, or of its least one.
fn loose_width(value: u64, text: &[u8]) -> Option<u8>
    ensures small { IfSome result (λ code. code < 4) }
    ensures loose { (code : ℕ) → code < 4 → text.now ≡ width_word value code → result ≡ Some code }
{
    match text {
        b"" => Some(least_code(value)),
        b":1" => Some(0),
        b":2" => Some(1),
        b":4" => Some(2),
        b":8" => Some(3),
        _ => None,
    }
}

/// The code of the width of a number, and the number.
fn loose_number(digits: &[u8], behind: &[u8]) -> Option<(u8, u64)>
    ensures small { IfSome result (λ pair. pair.0 < 4) }
    ensures loose { (code value : ℕ) → code < 4 → value < 2 ^ 64 → digits.now ≡ decimal value
        → behind.now ≡ width_word value code → result ≡ Some (code, value) }
{
    let value = loose_decimal(digits)?;
    let code = loose_width(value, behind)?;
    Some((code, value))
}

/// The number of so many octets in hexadecimal.
fn loose_octets(width: usize, digits: &[u8]) -> Option<u64>
    requires low { 1 ≤ width }
    requires high { width ≤ 8 }
    ensures { (n : ℕ) → n < 256 ^ width → digits.now ≡ octets_text width n → result ≡ Some n }
{
    let mut octets = [0u8; 8];
    match hex::decode_to_slice(digits, &mut octets[..width]) {
        Ok(()) => Some(BigEndian::read_uint(&octets[..width], width)),
        Err(_) => None,
    }
}

/// The number of octets of the width with this code, and the code.
fn loose_coded(code: u8, digits: &[u8]) -> Option<(u8, u64)>
    requires { code < 4 }
    ensures small { IfSome result (λ pair. pair.0 < 4) }
    ensures loose { (n : ℕ) → n < 256 ^ (2 ^ code) → digits.now ≡ octets_text (2 ^ code) n → result ≡ Some (code, n) }
{
    let number = loose_octets(1 << code, digits)?;
    Some((code, number))
}

/// The code of the width whose octets have so many digits.
fn code_at(len: usize) -> u8
    ensures value { result ≡ code_at len }
    ensures small { result < 4 }
{
    match len {
        2 => 0,
        4 => 1,
        8 => 2,
        _ => 3,
    }
}

/// The code of the width of bits, and the bits.
fn loose_bits(digits: &[u8]) -> Option<(u8, u64)>
    ensures small { IfSome result (λ pair. pair.0 < 4) }
    ensures loose { (code value : ℕ) → code < 4 → value < 256 ^ (2 ^ code) → digits.now ≡ octets_text (2 ^ code) value
        → result ≡ Some (code, value) }
{
    loose_coded(code_at(digits.len()), digits)
}

/// The sign of a pair, its digits, and what stands behind them.
fn cut(text: &[u8]) -> (&[u8], &[u8], &[u8])
    ensures { (front digits behind : List ℕ) → AllByRecursion (λ o. is_sign o ≡ true) front → 0 < length digits
        → AllByRecursion (λ o. is_plain o ≡ true) digits → Ends is_plain behind → text.now ≡ front ++ (digits ++ behind)
        → (result.0.now ≡ front) × (result.1.now ≡ digits) × (result.2.now ≡ behind) }
{
    let (front, rest) = text.split_at(sign_len(text));
    let (digits, behind) = rest.split_at(run_len(rest));
    (front, digits, behind)
}

/// The code of the width of a pair's value, and the value.
fn loose_operand(kind: Kind, digits: &[u8], behind: &[u8]) -> Option<(u8, u64)>
    ensures small { IfSome result (λ pair. pair.0 < 4) }
    ensures numbers { kind ≡ Numeric → (code value : ℕ) → code < 4 → value < 2 ^ 64 → digits.now ≡ decimal value
        → behind.now ≡ width_word value code → result ≡ Some (code, value) }
    ensures bits { kind ≡ Bitmask → (code value : ℕ) → code < 4 → value < 256 ^ (2 ^ code)
        → digits.now ≡ octets_text (2 ^ code) value → result ≡ Some (code, value) }
{
    match kind {
        Kind::Numeric => loose_number(digits, behind),
        Kind::Bitmask => loose_bits(digits),
    }
}

/// The bits of a pair's operator that its own text tells, and its value.
fn loose_pair(kind: Kind, text: &[u8]) -> Option<(u8, u64)>
    ensures small { IfSome result (λ pair. pair.0 < 64) }
    ensures loose { (operator value : ℕ) → value < 256 ^ width_of operator → text.now ≡ pair_text kind (operator, value)
        → result ≡ Some (plain_of kind operator, value) }
{
    let (front, digits, behind) = cut(text);
    match (loose_sign(kind, front), loose_operand(kind, digits, behind)) {
        (Some(relation), Some((code, value))) => Some((16 * code + relation, value)),
        _ => None,
    }
}

/// The AND bit of an operator behind this delimiter.
fn and_bit(delimiter: u8) -> u8
    ensures value { result ≡ (if delimiter == 38 then 64 else 0) }
    ensures small { result ≤ 64 }
{
    if delimiter == b'&' { 64 } else { 0 }
}

/// The text of a pair, and what stands behind it.
fn first_pair(text: &[u8]) -> (&[u8], &[u8])
    ensures within { length result.1.now ≤ length text.now }
    ensures parts { (front behind : List ℕ) → AllByRecursion (λ o. is_within o ≡ true) front → Ends is_within behind
        → text.now ≡ front ++ behind → (result.0.now ≡ front) × (result.1.now ≡ behind) }
{
    text.split_at(pair_len(text))
}

/// The pairs of a list.
pub(crate) fn loose_pairs(
    alloc: Global,
    kind: Kind,
    word: &[u8],
) -> Result<Option<Vec<(u8, u64)>>, Memory>
    ensures { IfOk result (λ read. (pairs : List (ℕ × ℕ)) → IsNormal kind pairs → word.now ≡ list_text kind pairs
        → option_map (λ list. list.items) read ≡ Some pairs) }
{
    let mut pairs = Vec::new(alloc);
    let mut joined = 0;
    let mut rest = word;
    loop {
        let (text, behind) = first_pair(rest);
        let Some((plain, value)) = loose_pair(kind, text) else {
            return Ok(None);
        };
        match behind.split_first() {
            None => {
                pairs.push((plain + joined + 128, value))?;
                return Ok(Some(pairs));
            }
            Some((delimiter, others)) => {
                pairs.push((plain + joined, value))?;
                joined = and_bit(*delimiter);
                rest = others;
            }
        }
    }
}
