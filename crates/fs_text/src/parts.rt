//! A word as runs of letters and digits, and single octets of other kinds between them.

ghost use Rattle.std.specs.{Prelude.{◌≡◌, ◌<◌, ◌≤◌, ◌∷◌, length, map, IfOk}, List.{prefix_len}};
ghost use Rattle.fs_text.specs.{Pieces.{is_plain, parts_of}, Parts.{as_part}};

use fs_base::Memory;
use std::alloc::Global;

/// A part of a word.
#[derive(Clone, Copy)]
pub(crate) enum Piece<'a> {
    /// Letters and digits.
    Run(&'a [u8]),
    /// An octet of another kind.
    Delimiter(u8),
}

/// Whether an octet is a letter or a digit.
pub(crate) fn is_plain(octet: u8) -> bool
    ensures { result ≡ is_plain octet }
{
    char::from(octet).is_digit(36)
}

/// How many letters and digits stand at the front.
pub(crate) fn run_len(text: &[u8]) -> usize
    ensures value { result ≡ prefix_len is_plain text.now }
    ensures within { result ≤ length text.now }
{
    let mut place = 0;
    while place < text.len() && is_plain(text[place]) {
        place += 1;
    }
    place
}

/// The first part, and what stands behind it.
fn first_part(text: &[u8]) -> (Piece<'_>, &[u8])
    requires { 0 < length text.now }
    ensures shorter { length result.1.now < length text.now }
    ensures first { parts_of text.now ≡ as_part result.0 ∷ parts_of result.1.now }
{
    let len = run_len(text);
    if len == 0 {
        (Piece::Delimiter(text[0]), &text[1..])
    } else {
        (Piece::Run(&text[..len]), &text[len..])
    }
}

/// The parts of a word.
pub(crate) fn parts_of(alloc: Global, word: &[u8]) -> Result<Vec<Piece<'_>>, Memory>
    ensures { IfOk result (λ parts. map as_part parts.items ≡ parts_of word.now) }
{
    let mut parts = Vec::new(alloc);
    let mut rest = word;
    while !rest.is_empty() {
        let (part, behind) = first_part(rest);
        parts.push(part)?;
        rest = behind;
    }
    Ok(parts)
}
