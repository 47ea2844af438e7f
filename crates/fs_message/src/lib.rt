//! BGP messages: framing of an octet stream, OPEN and NOTIFICATION, and the texts of messages (RFC 4271).
#![tactic(auto)]

mod capabilities;
mod deframer;
mod fault;
mod header;
mod laws;
mod notice;
mod open_;
mod write;

pub use deframer::{Deframer, Frame};
pub use fault::MessageFault;
pub use header::{KEEPALIVE, NOTIFICATION, OPEN, ROUTE_REFRESH, UPDATE};
pub use laws::{messages_stay, own_open_is_read, texts_are_first};
pub use notice::Notice;
pub use open_::Open;
pub use write::{as_in_two, write_keepalive, write_notice, write_open, write_update_frame};
