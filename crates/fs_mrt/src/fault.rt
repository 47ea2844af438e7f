//! What is wrong with a dump.

use fs_input::Fault;
use std::fmt;

/// What is wrong with a dump.
#[derive(Clone, Copy, Debug, PartialEq, Eq, Drop)]
pub enum DumpReason {
    /// The dump ends within a record.
    Cut,
    /// The length of a record that is read is below what its fields need, or above 65536.
    Length,
    /// The address family of a record that is read is neither 1 nor 2.
    Family,
    /// A message has fewer than 19 octets, or another length than its own length field tells.
    Message,
}

impl fmt::Display for DumpReason {
    ghost use Rattle.std.specs.Prelude.{Some};
    ghost use Rattle.fs_mrt.specs.Fault.{reason_name};

    ghost output = { λ reason. Some (reason_name reason) };

    fn fmt<W: fmt::Write>(&self, f: &mut fmt::Formatter<W>) -> fmt::Result {
        match self {
            DumpReason::Cut => f.write_str("Cut"),
            DumpReason::Length => f.write_str("Length"),
            DumpReason::Family => f.write_str("Family"),
            DumpReason::Message => f.write_str("Message"),
        }
    }
}

/// Why a dump gives no further record. The place of a wrong field is that of its first octet in the dump, from 0:
/// `Length` 8 behind the record's first octet, `Message` that of the message; for `Cut` the dump's length.
pub type DumpFault = Fault<DumpReason>;
