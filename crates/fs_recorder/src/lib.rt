//! Sessions with many peers at once, recorded onto a tape as they happen.
#![tactic(auto)]

mod books;
mod door;
mod laws;
mod recorder;
mod scribe;
mod seats;
mod stop;

pub use laws::{alternates, reads_back_recorded, replays};
pub use recorder::Recorder;
pub use scribe::HEAD_SIZE;
pub use stop::Stop;
