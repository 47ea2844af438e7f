//! Both ends of a session, joined: what is delivered between them, and what their clocks do; and all of `fs_session`.
#![tactic(auto)]

mod end;
mod ends;
mod event;
mod flight;
mod joint;
mod laws;

pub use end::{End, hand, tick};
pub use event::Event;
pub use fs_session::{
    Announcer, Closed, Fed, Needs, Sending, Sent, SentList, Session, Standing, State, append_rule,
    pieces_join, rules_arrive, rules_come_back, sender, steps_make_the_session,
    steps_make_what_is_handed,
};
pub use joint::Joint;
pub use laws::{closes_only_so, takes_a_front, takes_none_unnamed, takes_what_was_delivered};
