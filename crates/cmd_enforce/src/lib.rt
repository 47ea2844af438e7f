//! The command `enforce`: the packets of a capture, of the libpcap or the pcapng format, under the rules that a tape
//! holds at their moments; and what `check` says of a capture.
#![tactic(auto)]

mod answer;
mod capture;
mod caught;
mod command;
mod fault;
mod following;
mod judge;
mod laws;
mod lines;
mod packets;
mod reader;
mod survey;
mod survey_text;
mod tally;
mod walk;

pub use capture::Capture;
pub use caught::Caught;
pub use command::{InputNames, enforce};
pub use fault::{CaptureFault, CaptureReason};
pub use laws::same_lines;
pub use survey::survey_capture;
pub use walk::drops;
