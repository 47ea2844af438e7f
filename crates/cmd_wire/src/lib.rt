//! The commands `announce`, `listen` and `pair`, which speak over a wire, and `record` and `keep`, which speak through a gate.
#![tactic(auto)]

mod announcing;
mod closing;
mod judged;
mod keeping;
mod laws;
mod lines;
mod listed;
mod listening;
mod news;
mod pairing;
mod recording;
mod shelf;
mod tell;

pub use announcing::{Announcement, announce};
pub use keeping::{Upkeep, keep_rules};
pub use laws::{accepted_rules_arrive, kept_rules_are_exact};
pub use listening::{Reception, listen};
pub use pairing::{Pairing, pair};
pub use recording::{Recording, record_sessions};
