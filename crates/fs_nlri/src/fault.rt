//! Why octets spell no rule, and why components make none.

ghost use Rattle.std.specs.Prelude.{◌≡◌};
ghost use Rattle.fs_nlri.specs.declared.fault.{NlriFault.TheVariants.{Bad, Memory as NoMemory}, RuleFault.TheVariants.{Memory as NoRuleMemory}};
ghost use Rattle.fs_nlri.specs.Fault.{list_fault};

use fs_base::Memory;
use fs_ops::OpsFault;
use std::alloc::{AllocError, AllocFailed};

/// Why octets spell no rule.
#[derive(Clone, Copy, Debug, PartialEq, Eq)]
pub enum Reason {
    /// The value ends within a component.
    Cut,
    /// An octet in the place of a type that the family doesn't have.
    NoType,
    /// A type of the family that isn't above the one before it.
    Order,
    /// A prefix length above 32 or 128.
    PrefixLength,
    /// An IPv6 offset that isn't below the length, or isn't 0 at length 0.
    Offset,
    /// An operator octet with a value width that the type doesn't allow.
    Width,
    /// The frame passes the end of the octets in hand.
    Length,
}

/// The first fault of a frame, or want of memory. A place counts the octets of the value from 0, and at
/// `Reason::Length` the octets of the frame that are in hand.
#[derive(Clone, Copy, Debug, PartialEq, Eq)]
pub enum NlriFault {
    Bad { reason: Reason, place: usize },
    Memory,
}

/// The fault of octets of this reason, at this place.
pub(crate) fn bad(reason: Reason, place: usize) -> NlriFault
    ensures { result ≡ Bad reason place }
{
    NlriFault::Bad { reason, place }
}

/// Why components make no rule: the first that holds, in this order.
#[derive(Clone, Copy, Debug, PartialEq, Eq)]
pub enum RuleFault {
    /// A component whose type, form or value widths the family doesn't have.
    NotOfFamily,
    /// The types don't rise strictly.
    Order,
    /// The value has more than 4095 octets.
    TooLong,
    Memory,
}

impl From<Memory> for NlriFault {
    ghost from_gives = { λ e r. r ≡ NoMemory };

    fn from(_error: Memory) -> NlriFault {
        NlriFault::Memory
    }
}

impl From<AllocError> for NlriFault {
    ghost from_gives = { λ e r. r ≡ NoMemory };

    fn from(_error: AllocError) -> NlriFault {
        NlriFault::Memory
    }
}

impl<T: Drop> From<AllocFailed<T>> for NlriFault {
    ghost from_gives = { λ e r. r ≡ NoMemory };

    fn from(_error: AllocFailed<T>) -> NlriFault {
        NlriFault::Memory
    }
}

impl From<OpsFault> for NlriFault {
    ghost from_gives = { λ e r. r ≡ list_fault e };

    fn from(fault: OpsFault) -> NlriFault {
        match fault {
            OpsFault::Cut { place } => bad(Reason::Cut, place),
            OpsFault::Width { place } => bad(Reason::Width, place),
            OpsFault::Memory => NlriFault::Memory,
        }
    }
}

impl<E: Into<Memory> + Drop> From<E> for RuleFault {
    ghost from_gives = { λ e r. r ≡ NoRuleMemory };

    fn from(_error: E) -> RuleFault {
        RuleFault::Memory
    }
}
