//! The limit of routes per peer.

ghost use Rattle.std.specs.Prelude.{◌≡◌};
ghost use Rattle.fs_desk.specs.Limit.{is_over};

/// Whether so many routes are more than a peer with this limit may hold.
pub(crate) fn is_over(limit: Option<u32>, count: usize) -> bool
    ensures { result ≡ is_over limit count }
{
    match limit {
        Some(most) => u64::from(most) < count as u64,
        None => false,
    }
}
