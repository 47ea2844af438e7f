//! Captured packets: their fields as flow specifications name them, and whether a rule matches
//! (RFC 8955 section 4.2, RFC 8956 section 3).
#![tactic(auto)]

mod chain;
mod fields;
mod matching;
mod reading;
mod told;

pub use fields::{Unread, View};
pub use fs_base::Link;
pub use matching::matches;
pub use reading::view;
