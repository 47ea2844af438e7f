//! What is wrong with a case file, or with the outside.

use std::alloc::{AllocError, AllocFailed};
use std::io;

/// Why a line of a case file can't be followed.
#[derive(Clone, Copy, Debug, Drop)]
pub enum Fault {
    /// The machine refused memory.
    Memory,
    /// Reading or printing failed.
    Outside,
    /// Digits that aren't hexadecimal, or an odd count of them.
    NoHexadecimal,
    /// Text that isn't a number below 2^64 in decimal digits.
    NoNumber,
    /// A number, or a count of octets, that doesn't fit its place.
    TooLarge,
    /// Octets that aren't text.
    NoText,
    /// A field that isn't there.
    NoField,
    /// A name that no file has.
    NoName,
    /// A word that says nothing.
    NoWord,
}

impl From<AllocError> for Fault {
    fn from(_error: AllocError) -> Fault {
        Fault::Memory
    }
}

impl<T: Drop> From<AllocFailed<T>> for Fault {
    fn from(_error: AllocFailed<T>) -> Fault {
        Fault::Memory
    }
}

impl From<io::Error> for Fault {
    fn from(_error: io::Error) -> Fault {
        Fault::Outside
    }
}
