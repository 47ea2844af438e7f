//! Traffic filtering actions of flow specification routes (RFC 8955 section 7): the extended communities
//! that are actions, in normal form, and what they say of a packet.
#![tactic(auto)]

mod actions;
mod community;
mod laws;

pub use actions::{ActionFault, Actions, from_communities};
pub use community::{Action, Rate, Redirect};
pub use laws::{actions_are_the_listed, equal_where_same};
