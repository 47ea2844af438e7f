//! Why a text is none of a rule and its actions.

ghost use Rattle.std.specs.Prelude.{◌≡◌};
ghost use Rattle.fs_text.specs.declared.fault.TextFault.TheVariants.{Memory as NoMemory};

use fs_base::Memory;

/// Why a text is none of a rule and its actions.
#[derive(Clone, Copy, Debug, PartialEq, Eq, Drop)]
pub enum TextFault {
    /// The words up to this one, counted from 0, begin no text, whatever the length of the rule's value, and those
    /// before it begin one. The count of all words where they all begin a text and are none.
    Bad { word: usize },
    /// The text of a rule in all but that its value has more than the 4095 octets of a frame (RFC 8955 section 4.1).
    TooLong,
    /// The machine refused memory.
    Memory,
}

impl<E: Into<Memory> + Drop> From<E> for TextFault {
    ghost from_gives = { λ e r. r ≡ NoMemory };

    fn from(_error: E) -> TextFault {
        TextFault::Memory
    }
}
