//! The bodies of UPDATE messages (RFC 4271, RFC 4760, RFC 7606, RFC 8955, RFC 8956).
#![tactic(auto)]

mod attributes;
mod laws;
mod lists;
mod paths;
mod prefixes;
mod routes;
mod segments;
mod texts;
mod update;
mod writable;
mod write;

pub use laws::{equal_where_same, rules_are_the_outcome};
pub use lists::{PrefixList, RuleList};
pub use update::{Routes, Terms, Update, UpdateFault, WriteFault, read_update};
pub use write::write_update;
