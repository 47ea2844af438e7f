//! What is wrong with a capture.

use fs_input::Fault;
use fs_pcap::CaptureReason as PcapReason;
use fs_pcapng::NgReason;
use std::fmt;

/// What is wrong with a capture, as its format has it.
#[derive(Clone, Copy, Debug, PartialEq, Eq, Drop)]
pub enum CaptureReason {
    /// With one of the libpcap format.
    Pcap(PcapReason),
    /// With one of the pcapng format.
    Pcapng(NgReason),
}

impl fmt::Display for CaptureReason {
    ghost use Rattle.std.specs.Prelude.{Some};
    ghost use Rattle.cmd_enforce.specs.Survey.{reason_name};

    ghost output = { λ reason. Some (reason_name reason) };

    fn fmt<W: fmt::Write>(&self, f: &mut fmt::Formatter<W>) -> fmt::Result {
        match self {
            CaptureReason::Pcap(reason) => write!(f, "{reason}"),
            CaptureReason::Pcapng(reason) => write!(f, "{reason}"),
        }
    }
}

/// Why a capture gives no further packet. The place of a wrong field is as its format has it.
pub type CaptureFault = Fault<CaptureReason>;

/// What a call answers that reads a capture.
pub(crate) type Answer<T> = Result<T, CaptureFault>;
