//! The unicast routes that peers gave, and which of them is best for a prefix or for what lies under it.
#![tactic(auto)]

mod beside;
mod key;
mod laws;
mod neighbour;
mod preference;
mod routes;
mod search;
mod shared;
mod turns;
mod unicast;

pub use key::PrefixKey;
pub use laws::best_is_preferred;
pub use neighbour::{first_as, neighbour_as};
pub use preference::Held;
pub use shared::SharedPath;
pub use unicast::{Place, Swap, Unicast};
