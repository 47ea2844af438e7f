//! The ordered list of flow routes with their validities, and where the rules that are admitted may have changed.
#![tactic(auto)]

mod actions;
mod block;
mod destinations;
mod flows;
mod group;
mod groups;
mod kept;
mod noted;
mod route;
mod search;
mod shared;

pub use actions::SharedActions;
pub use block::{Block, compare_key, place_of};
pub use destinations::Prefixes;
pub use flows::Flows;
pub use group::Group;
pub use groups::LentGroups;
pub use kept::Kept;
pub use noted::{Change, Changes};
pub use route::{SharedRoute, seen, validate};
pub use shared::SharedFlow;
