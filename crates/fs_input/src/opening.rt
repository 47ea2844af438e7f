//! What stands before the records of an input.

ghost use Rattle.std.specs.Prelude.{◌≡◌};
ghost use Rattle.fs_input.specs.Opening.{opened_answer};

use crate::fault::Fault;
use crate::head::Head;
use crate::record::short;
use fs_base::Counted;

/// What an input answers where the octets before its records say this.
///
/// # Errors
///
/// `Bad` with the first field that stands whole and is wrong; where the octets end before all of them, `Limit` where
/// these are all that the limit allows, else `Bad` with the format's cut.
pub fn opened<V, R: Drop>(front: Head<V, R>, cut: R, counted: &Counted) -> Result<V, Fault<R>>
    ensures { result ≡ opened_answer cut counted.now.taken counted.now.limit front }
{
    match front {
        Head::Whole { said, .. } => Ok(said),
        Head::Wrong { reason, offset } => Err(Fault::Bad {
            reason,
            place: offset as u64,
        }),
        Head::Partial => Err(short(cut, counted)),
    }
}
