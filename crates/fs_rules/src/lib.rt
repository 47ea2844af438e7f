//! The table of all held routes: flow routes with their validity kept up to date, and the admitted rules in order.
#![tactic(auto)]

mod blocks;
mod counts;
mod given;
mod lent;
mod lists;
mod reading;
mod rivals;
mod table;

pub use fs_flows::{Change, Changes, SharedActions, SharedFlow};
pub use given::Given;
pub use lent::{Admitted, HeldFlow, LentRule};
pub use table::Table;
