//! The order in which rules are applied (RFC 8955 section 5.1, RFC 8956 section 4).
#![tactic(auto)]

mod comparison;
mod component;
mod laws;
mod ranked;

pub use comparison::{compare, precedes};
pub use laws::{destinations_first, equal_only_itself, precedence};
pub use ranked::Ranked;
