//! What is wrong with a capture.

use fs_input::Fault;
use std::fmt;

/// What is wrong with a capture.
#[derive(Clone, Copy, Debug, PartialEq, Eq, Drop)]
pub enum NgReason {
    /// The first block is no section header, or a section's byte-order magic is none.
    Magic,
    /// A section's major version isn't 1.
    Version,
    /// A total length is below what the block needs, no multiple of four, or repeated otherwise; or an option overruns
    /// its block.
    Length,
    /// A packet is of an interface that its section doesn't describe.
    Interface,
    /// A packet's captured length is above 262144.
    RecordTooLong,
    /// A section describes a 257th interface.
    TooMany,
    /// The capture ends within a block.
    Cut,
}

impl fmt::Display for NgReason {
    ghost use Rattle.std.specs.Prelude.{Some};
    ghost use Rattle.fs_pcapng.specs.Fault.{reason_name};

    ghost output = { λ reason. Some (reason_name reason) };

    fn fmt<W: fmt::Write>(&self, f: &mut fmt::Formatter<W>) -> fmt::Result {
        match self {
            NgReason::Magic => f.write_str("Magic"),
            NgReason::Version => f.write_str("Version"),
            NgReason::Length => f.write_str("Length"),
            NgReason::Interface => f.write_str("Interface"),
            NgReason::RecordTooLong => f.write_str("RecordTooLong"),
            NgReason::TooMany => f.write_str("TooMany"),
            NgReason::Cut => f.write_str("Cut"),
        }
    }
}

/// Why a capture gives no further packet. The place of a wrong field is that of its first octet in the capture, from
/// 0; for `TooMany`, and for `Interface` of a simple packet, that of the block; for an option that overruns its block
/// that of the option; for `Cut` the capture's length.
pub type NgFault = Fault<NgReason>;

/// What a call that takes the fields of a capture answers.
pub(crate) type Got<T> = Result<T, NgFault>;
