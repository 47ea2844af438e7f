//! Buckets of rules with one destination, in the order of the destinations, and which of them hold an address: each names
//! the next that may hold what it holds, so that a search climbs from one to the next.
#![tactic(auto)]

mod addresses;
mod buckets;
mod marks;
mod mending;
mod nodes;
mod runs;

pub use addresses::Addresses;
pub use buckets::{Buckets, buckets_of, put_between};
pub use marks::Marks;
pub use mending::mended;
pub use nodes::{Node, Nodes};
