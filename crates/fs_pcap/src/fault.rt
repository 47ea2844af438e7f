//! What is wrong with a capture.

use fs_input::Fault;
use std::fmt;

/// What is wrong with a capture.
#[derive(Clone, Copy, Debug, PartialEq, Eq, Drop)]
pub enum CaptureReason {
    /// Its first four octets are no magic.
    Magic,
    /// Its version isn't 2.4.
    Version,
    /// Its link type isn't one of the six that are read.
    Link,
    /// A record's captured length is above 262144.
    RecordTooLong,
    /// The capture ends within its header or a record.
    Cut,
}

impl fmt::Display for CaptureReason {
    ghost use Rattle.std.specs.Prelude.{Some};
    ghost use Rattle.fs_pcap.specs.Fault.{reason_name};

    ghost output = { λ reason. Some (reason_name reason) };

    fn fmt<W: fmt::Write>(&self, f: &mut fmt::Formatter<W>) -> fmt::Result {
        match self {
            CaptureReason::Magic => f.write_str("Magic"),
            CaptureReason::Version => f.write_str("Version"),
            CaptureReason::Link => f.write_str("Link"),
            CaptureReason::RecordTooLong => f.write_str("RecordTooLong"),
            CaptureReason::Cut => f.write_str("Cut"),
        }
    }
}

/// Why a capture gives no further record. The place of a wrong field is that of its first octet in the capture, from
/// 0: `Magic` 0, `Version` 4, `Link` 20, `RecordTooLong` 8 behind the record's first octet; for `Cut` the capture's
/// length.
pub type CaptureFault = Fault<CaptureReason>;
