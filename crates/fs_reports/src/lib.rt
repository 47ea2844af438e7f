//! The texts that commands write: what is said of NLRI in hexadecimal and of a rule in words, the listing of the peers and
//! the rules, the line of a tape's fault, and the admitted rules in words.
#![tactic(auto)]

mod listing;
mod peers;
mod report;
mod rules;
mod tape_fault;
mod text;
mod worded;

pub use listing::desk_text;
pub use peers::{append_codes, peer_numbers};
pub use report::{Report, report_on};
pub use tape_fault::{tape_fault_text, tape_reason_name};
pub use text::report_on_text;
pub use worded::desk_words;
