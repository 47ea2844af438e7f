//! The command `convert`: an MRT dump is read record by record, and written as a tape of the second version; and
//! what `check` says of a dump.
#![tactic(auto)]

mod command;
mod counts;
mod greeting;
mod laws;
mod lives;
mod making;
mod records;
mod survey;
mod survey_text;

pub use command::{DumpNames, convert};
pub use laws::{keeps_lives, reads_back_converted};
pub use survey::survey_dump;
