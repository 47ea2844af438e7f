//! The text of a rule and its actions, read: each component and each action has one name and one word, and what is read is the
//! component or the action of these.
//!
//! A reader cuts the word into parts, makes a value of them loosely, prints it, and compares: so it takes nothing but
//! the one word of a value.
#![tactic(auto)]

mod actions;
mod fault;
mod figures;
mod laws;
mod lists;
mod parts;
mod prefixes;
mod steps;
mod text;
mod values;

pub use actions::read_action;
pub use fault::TextFault;
pub use fs_words::{action_name, component_name, print, print_action, print_value};
pub use laws::each_text_has_one_pair;
pub use text::read;
pub use values::{component_type, read_component};
