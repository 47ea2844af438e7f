//! The lines that `enforce` writes, one for each captured packet, the buffer through which they leave, and the pieces
//! of all printed texts.
#![tactic(auto)]

mod kept;
mod line;
mod output;
mod pieces;
mod walked;

pub use line::{write_packet_line, write_unread_line};
pub use output::Output;
pub use pieces::{append, append_decimal, append_hex, append_numbered, family_name};
pub use walked::{Walked, discards};
