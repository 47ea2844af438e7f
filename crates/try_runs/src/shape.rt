//! Lines that many cases have in common, with places that each case fills.

use crate::fault::Fault;
use crate::octets::Octets;

/// The text with a number in place of each `#`.
pub fn fill_number(text: &str, number: u64, made: &mut Octets) {
    let mut begun = false;
    for part in text.split('#') {
        if begun {
            made.show(&number);
        }
        begun = true;
        made.word(part);
    }
}

/// The text with the fields of the row in place of `%1` to `%9`. Fields have `;` between them, and the spaces around one
/// don't count.
pub fn fill(text: &str, row: &str, made: &mut Octets) {
    let mut begun = false;
    for part in text.split('%') {
        if begun {
            append_filled(part, row, made);
        } else {
            made.word(part);
        }
        begun = true;
    }
}

/// Appends the field whose digit a part begins with, and the rest of the part.
fn append_filled(part: &str, row: &str, made: &mut Octets) {
    let (digit, rest) = part.as_bytes().split_first().unwrap_or((&0, &[]));
    match row.split(';').nth(usize::from(digit.wrapping_sub(b'1'))) {
        Some(field) => made.word(field.trim()),
        None => made.fail(Fault::NoField),
    }
    made.append(rest);
}
