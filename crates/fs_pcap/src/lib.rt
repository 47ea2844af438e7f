//! Captures of the libpcap file format, version 2.4.
#![tactic(auto)]

mod capture;
mod fault;
mod head;
mod header;
mod laws;
mod order;

pub use capture::{Capture, Caught};
pub use fault::{CaptureFault, CaptureReason};
pub use fs_base::Link;
pub use head::LONGEST_RECORD;
pub use header::Heading;
pub use laws::reads_back;
pub use order::{Endian, Unit};
