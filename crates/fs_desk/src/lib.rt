//! The sessions with the configured peers, and the table of the routes that they hold.
#![tactic(auto)]

mod apply;
mod desk;
mod hold_timer;
mod laws;
mod limit;
mod receive;
mod watched;

pub use desk::Desk;
pub use laws::{none_expired, same_desks, same_routes};
