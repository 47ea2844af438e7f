//! The command `gen`: numbers drawn from a seed, the tape and the packets that they make, which come piece by piece, so
//! that neither is ever held whole; the tape is played, and the packets are judged and counted.
#![tactic(auto)]

mod command;
mod configuration;
mod draws;
mod message;
mod pair;
mod tally;

pub use command::generate;
pub use configuration::three_peers;
pub use draws::Draws;
pub use message::{Message, keepalive, open_message};
pub use pair::Pair;
