//! The table, and where the rules that it admits may have changed.

use fs_rules::{Changes, Table};

/// The table of the routes that all peers hold, and at which places a flow route has come or gone since these were
/// last cleared, or has changed its validity.
#[derive(Drop)]
pub(crate) struct Watched<'a> {
    pub(crate) table: Table<'a>,
    pub(crate) changes: Changes,
}
