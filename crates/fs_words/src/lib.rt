//! Rules and actions in words: the name and the value of each component and of each action, and the one text of a rule
//! and its actions.
#![tactic(auto)]

mod actions;
mod operators;
mod pieces;
mod prefixes;
mod printing;
mod values;

pub use actions::{action_name, print_action};
pub use operators::least_code;
pub use printing::print;
pub use values::{component_name, list_kind, print_value};
