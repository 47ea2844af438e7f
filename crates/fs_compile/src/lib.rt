//! The admitted rules of a table compiled for packets: in buckets of one destination, so that a packet is tried against
//! those alone whose destination holds it, and, of many rules of one destination, against those alone whose numbers it
//! may have.
#![tactic(auto)]

mod columns;
mod compiled;
mod filters;
mod index;
mod matches;
mod search;
mod tested;

pub use compiled::{Compiled, walks_by_next};
pub use fs_ranges::{Fast, Spans};
pub use matches::Matches;
