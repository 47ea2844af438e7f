//! The configuration file and the rules file, read from their octets.
#![tactic(auto)]

mod address;
mod array;
mod config;
mod document;
mod fault;
mod faults;
mod fields;
mod laws;
mod rule_faults;
mod rules;
mod sent;
mod worded;

pub use config::{ConfFault, read_config};
pub use fault::{ConfigFault, KeyReason, RulesFault};
pub use faults::judge_config;
pub use laws::{accepts_numbers, accepts_rules, names_the_fault, names_the_rules_fault};
pub use rule_faults::judge_rules;
pub use rules::read_rules;
pub use worded::says_its_own;
