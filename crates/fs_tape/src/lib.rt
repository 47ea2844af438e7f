//! Tapes: what peers sent, and when they came and went, as records behind a magic.
#![tactic(auto)]

mod fault;
mod header;
mod item;
mod laws;
mod magic;
mod tape;

pub use fault::{TapeFault, TapeReason};
pub use header::LONGEST_PAYLOAD;
pub use item::TapeItem;
pub use laws::{front_reads, moments_rise, reads_back};
pub use magic::Version;
pub use tape::Tape;
