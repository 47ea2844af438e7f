//! Rules that can never act: those of which an earlier rule takes all packets.
#![tactic(auto)]

mod checking;
mod ends;
mod extents;
mod keys;
mod laws;
mod outlines;
mod points;
mod prefixes;
mod reporting;
mod tested;
mod text;

pub use checking::confirm;
pub use laws::{confirmed_never_walks, contained_matches, covered_never_walks, packets_are_small};
pub use reporting::report;
pub use text::shadow_text;
