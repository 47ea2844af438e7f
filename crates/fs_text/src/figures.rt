//! Numbers in decimal and in hexadecimal, read loosely: of a word that is no number's text anything may come.

ghost use Rattle.std.specs.Prelude.{◌≡◌, ◌<◌, ◌/◌, ◌%◌, ◌^◌, ℕ, Some, decimal};
ghost use Rattle.byteorder.specs.Endian.{big_bytes};
ghost use Rattle.hex.specs.Hex.{encode_lower};
ghost use Rattle.fs_words.specs.Figures.{hexadecimal};

use byteorder::{BigEndian, ByteOrder};
use std::str;

/// The number whose decimal the word is.
pub(crate) fn loose_decimal(word: &[u8]) -> Option<u64>
    ensures { (n : ℕ) → n < 2 ^ 64 → word.now ≡ decimal n → result ≡ Some n }
{
    match str::from_utf8(word) {
        Ok(text) => text.parse::<u64>().ok(),
        Err(_) => None,
    }
}

/// The number of thirty-two bits whose octets in hexadecimal the word is.
pub(crate) fn loose_figure(word: &[u8]) -> Option<u32>
    ensures { (n : ℕ) → n < 2 ^ 32 → word.now ≡ encode_lower (big_bytes 4 n) → result ≡ Some n }
{
    let mut octets = [0u8; 4];
    match hex::decode_to_slice(word, &mut octets) {
        Ok(()) => Some(BigEndian::read_u32(&octets)),
        Err(_) => None,
    }
}

/// An octet in decimal.
pub(crate) fn loose_octet(word: &[u8]) -> Option<u8>
    ensures { (n : ℕ) → n < 256 → word.now ≡ decimal n → result ≡ Some n }
{
    u8::try_from(loose_decimal(word)?).ok()
}

/// The address of four octets in decimal.
pub(crate) fn loose_address(a: &[u8], b: &[u8], c: &[u8], d: &[u8]) -> Option<u32>
    ensures { (n : ℕ) → n < 2 ^ 32
        → a.now ≡ decimal (n / 2 ^ 24 % 256) → b.now ≡ decimal (n / 2 ^ 16 % 256)
        → c.now ≡ decimal (n / 2 ^ 8 % 256) → d.now ≡ decimal (n % 256) → result ≡ Some n }
{
    let octets = [
        loose_octet(a)?,
        loose_octet(b)?,
        loose_octet(c)?,
        loose_octet(d)?,
    ];
    Some(u32::from_be_bytes(octets))
}

/// The number of sixteen bits that the word is in hexadecimal without leading zeros.
pub(crate) fn loose_group(word: &[u8]) -> Option<u16>
    ensures { (n : ℕ) → n < 2 ^ 16 → word.now ≡ hexadecimal n → result ≡ Some n }
{
    match str::from_utf8(word) {
        Ok(text) => u16::from_str_radix(text, 16).ok(),
        Err(_) => None,
    }
}
