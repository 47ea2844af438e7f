//! Numbers, hexadecimal and families, as pieces of a text in memory.

ghost use Rattle.std.specs.Prelude.{◌≡◌, ◌++◌, OnOk, OnErr};
ghost use Rattle.hex.specs.Hex.{encode_lower};
ghost use Rattle.fs_line.specs.Pieces.{family_name};

use fs_base::{Family, Memory};
use itoa::{Buffer, Integer};
use std::alloc::Global;

/// Appends a piece. After `Memory` `text` is as before.
pub fn append(piece: &[u8], text: &mut Vec<u8>) -> Result<(), Memory>
    ensures ok { OnOk result (text.new.items ≡ text.old.items ++ piece.now) }
    ensures err { OnErr result (text.new.items ≡ text.old.items) }
{
    text.extend_from_slice(piece)?;
    Ok(())
}

/// Appends a number in decimal. After `Memory` `text` is as before.
pub fn append_decimal<N: Integer>(number: N, text: &mut Vec<u8>) -> Result<(), Memory>
    ensures ok { OnOk result (text.new.items ≡ text.old.items ++ N.text number) }
    ensures err { OnErr result (text.new.items ≡ text.old.items) }
{
    let mut buffer = Buffer::new();
    append(buffer.format(number).as_bytes(), text)
}

/// Appends a word, and a number directly after it. After `Memory` `text` is as before.
pub fn append_numbered<N: Integer>(word: &[u8], number: N, text: &mut Vec<u8>) -> Result<(), Memory>
    ensures ok { OnOk result (text.new.items ≡ text.old.items ++ (word.now ++ N.text number)) }
    ensures err { OnErr result (text.new.items ≡ text.old.items) }
{
    let start = text.len();
    append(word, text)?;
    let appended = append_decimal(number, text);
    if appended.is_err() {
        text.truncate(start);
    }
    appended
}

/// Appends octets in hexadecimal, in lower case. After `Memory` `text` is as before.
pub fn append_hex(alloc: Global, octets: &[u8], text: &mut Vec<u8>) -> Result<(), Memory>
    ensures ok { OnOk result (text.new.items ≡ text.old.items ++ encode_lower octets.now) }
    ensures err { OnErr result (text.new.items ≡ text.old.items) }
{
    let digits = hex::encode(alloc, octets)?;
    append(digits.as_bytes(), text)
}

/// The printed name of a family.
pub fn family_name(family: Family) -> &'static [u8]
    ensures { result.now ≡ family_name family }
{
    match family {
        Family::V4 => b"v4",
        Family::V6 => b"v6",
    }
}
