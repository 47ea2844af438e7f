//! The lines of a case file, and their fields.

use crate::fault::Fault;

/// The first word of a line and what stands behind the space after it; None for an empty line and for one that begins
/// with `#`, which is a comment.
pub fn parts(line: &str) -> Option<(&str, &str)> {
    if line.is_empty() || line.as_bytes()[0] == b'#' {
        return None;
    }
    Some(halves(line))
}

/// The first word, and what stands behind the space after it, if anything.
pub fn halves(text: &str) -> (&str, &str) {
    match text.split_once(' ') {
        Some((word, rest)) => (word, rest),
        None => (text, ""),
    }
}

/// The first word, and what stands behind the space after it.
pub fn word_of(rest: &str) -> Result<(&str, &str), Fault> {
    rest.split_once(' ').ok_or(Fault::NoField)
}

/// The field before the first `|`, without the spaces around it, and what stands behind.
pub fn field_of(fields: &str) -> Result<(&str, &str), Fault> {
    match fields.split_once('|') {
        Some((field, others)) => Ok((field.trim(), others)),
        None => Err(Fault::NoField),
    }
}

/// A number in decimal digits.
pub fn number(digits: &str) -> Result<u64, Fault> {
    match digits.parse::<u64>() {
        Ok(number) => Ok(number),
        Err(_) => Err(Fault::NoNumber),
    }
}

/// A status.
pub fn status(digits: &str) -> Result<u8, Fault> {
    match u8::try_from(number(digits)?) {
        Ok(status) => Ok(status),
        Err(_) => Err(Fault::TooLarge),
    }
}

/// A count of octets; the greatest that there is for one that is too large.
pub fn size(count: u64) -> usize {
    usize::try_from(count).unwrap_or(usize::MAX)
}
