//! The commands of the program.
#![tactic(auto)]

mod changes;
mod command;
mod file_check;
mod laws;
mod live;
mod program;
mod rules_check;
mod survey;
mod tallies;
mod tape_check;

pub use cmd_enforce::same_lines;
pub use cmd_stages::status;
pub use fs_changes::{follows, leads, says_nothing};
pub use fs_desk::{Desk, same_routes};
pub use fs_speaker::Standing;
pub use laws::same_changes;
pub use live::{run_live, run_live_within};
pub use program::{run, run_within};
