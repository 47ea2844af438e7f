//! BGP sessions over octets that come in pieces, at either end (RFC 4271, sections 6 and 8).
#![tactic(auto)]

mod announcer;
mod intake;
mod laws;
mod sending;
mod session;
mod side;
mod size;
mod state;
mod times;
mod transition;

pub use announcer::Announcer;
pub use laws::{
    pieces_join, rules_arrive, rules_come_back, steps_make_the_session, steps_make_what_is_handed,
};
pub use sending::{Sending, Sent, SentList, append_rule, sender};
pub use session::Session;
pub use side::Needs;
pub use state::{Closed, Fed, Standing, State};
