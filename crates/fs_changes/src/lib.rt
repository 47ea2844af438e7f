//! What changes of the admitted rules as a table changes, as lines: each tells one rule that acts no longer or from now
//! on, with its place, so that who applies them holds the admitted rules in order.
#![tactic(auto)]

mod acting;
mod difference;
mod laws;
mod lines;
mod noted;
mod places;
mod putting;

pub use acting::Acting;
pub use laws::{follows, leads, says_nothing};
