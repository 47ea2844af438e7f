//! Fields that are taken together, and judged one by one.
ghost use Rattle.std.specs.Prelude.{◌≡◌};
ghost use Rattle.fs_input.specs.Judging.{settled};

use crate::fault::Fault;
use crate::record::short;
use fs_base::Counted;

/// What the octets in hand say of fields that were taken together.
#[derive(Clone, Copy, Debug, PartialEq, Eq, Drop)]
pub enum Judged<A, R> {
    /// All of it: each field stands whole, and none is wrong.
    Whole(A),
    /// The first field that stands whole and is wrong, and its place in the input, from 0.
    Wrong { reason: R, place: u64 },
    /// They are too few, and no field in them is wrong.
    Partial,
}

/// What is answered of fields whose octets were the last to be taken.
///
/// # Errors
///
/// `Bad` with the wrong field, or with `cut` where the octets are too few; `Limit` where they are too few at the limit.
pub fn settle<A: Drop, R: Drop>(
    cut: R,
    counted: &Counted,
    judged: Judged<A, R>,
) -> Result<A, Fault<R>>
    ensures { result ≡ settled cut counted.now.taken counted.now.limit judged }
{
    match judged {
        Judged::Whole(said) => Ok(said),
        Judged::Wrong { reason, place } => Err(Fault::Bad { reason, place }),
        Judged::Partial => Err(short(cut, counted)),
    }
}
