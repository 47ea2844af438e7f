//! Captures of the pcapng format.
#![tactic(auto)]

mod block;
mod blocks;
mod capture;
mod caught;
mod fault;
mod fields;
mod header;
mod laws;
mod options;
mod packets;
mod section;
mod time;

pub use block::SECTION_HEADER;
pub use capture::Ng;
pub use caught::NgCaught;
pub use fault::{NgFault, NgReason};
pub use laws::reads_back;
