//! MRT dumps (RFC 6396): the BGP messages and the changes of state that a router or a collector wrote down.
#![tactic(auto)]

mod dump;
mod fault;
mod fields;
mod heard;
mod laws;
mod notes;
mod peers;
mod record;
mod records;
mod shape;

pub use dump::Dump;
pub use fault::{DumpFault, DumpReason};
pub use heard::{Heard, What};
pub use laws::{heard_fits, reads_back};
pub use notes::{Note, NotedDump};
