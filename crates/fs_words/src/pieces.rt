//! Numbers and octets as pieces of a word.

ghost use Rattle.std.specs.{Prelude.{◌≡◌, ◌++◌, ◌<◌, ◌≤◌, ◌^◌, OnOk}, String.{string_bytes}};
ghost use Rattle.hex.specs.Hex.{encode_lower};
ghost use Rattle.fs_words.specs.Figures.{hexadecimal, octets_text};

use byteorder::{BigEndian, ByteOrder};
use fs_base::Memory;
use itoa::{Buffer, Integer};
use std::fmt::Write;

/// Appends a number in decimal.
pub(crate) fn print_decimal<N: Integer>(number: N, out: &mut String) -> Result<(), Memory>
    ensures { OnOk result (string_bytes out.new ≡ string_bytes out.old ++ N.text number) }
{
    let mut buffer = Buffer::new();
    out.push_str(buffer.format(number))?;
    Ok(())
}

/// Appends a number in hexadecimal without leading zeros.
pub(crate) fn print_hexadecimal(number: u16, out: &mut String) -> Result<(), Memory>
    ensures { OnOk result (string_bytes out.new ≡ string_bytes out.old ++ hexadecimal number) }
{
    match write!(out, "{number:x}") {
        Ok(()) => Ok(()),
        Err(_) => Err(Memory),
    }
}

/// Appends octets in hexadecimal, two digits for each.
pub(crate) fn print_octets(octets: &[u8], out: &mut String) -> Result<(), Memory>
    ensures { OnOk result (string_bytes out.new ≡ string_bytes out.old ++ encode_lower octets.now) }
{
    let digits = hex::encode(*out.allocator(), octets)?;
    out.push_str(&digits)?;
    Ok(())
}

/// Appends the octets of a number, so many of them, in hexadecimal.
pub(crate) fn print_wide(width: usize, number: u64, out: &mut String) -> Result<(), Memory>
    requires low { 1 ≤ width }
    requires high { width ≤ 8 }
    requires fits { number < 256 ^ width }
    ensures { OnOk result (string_bytes out.new ≡ string_bytes out.old ++ octets_text width number) }
{
    let mut octets = [0u8; 8];
    BigEndian::write_uint(&mut octets[..width], number, width);
    print_octets(&octets[..width], out)
}
