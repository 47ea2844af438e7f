//! Taking and skipping the octets of fields.
ghost use Rattle.std.specs.Prelude.{◌≡◌, ◌≤◌, ◌+◌, ◌<◌, ◌==◌, ◌&&◌, [], IfOk, IsTrue, length, not};
ghost use Rattle.fs_input.specs.{Reads.{PassesIn, Scans, ScansAgain, StartsIn}, Scan.{field, skips}};

use crate::fault::Fault;
use crate::record::short;
use fs_base::{Counted, Files, fill};

/// Takes as many octets as `into` has room for.
///
/// # Errors
///
/// `Bad` with `cut` where the input ends before, `Limit` where the limit is reached before, `Read` where the files
/// failed.
pub fn take_octets<F: Files, R: Copy + Drop>(
    cut: R,
    counted: &mut Counted,
    files: &mut F,
    into: &mut [u8],
) -> Result<(), Fault<R>>
    requires none { counted.old.back ≡ [] }
    ensures none { counted.new.back ≡ [] }
    ensures taken { IfOk result (λ _. counted.new.taken ≡ counted.old.taken + length into.new) }
    ensures reads { Scans F.Files files.old files.new (field (length into.new) (λ octets. octets)) cut counted.old
        counted.new (λ _. into.new) result }
{
    take_again(cut, counted, files, into)
}

/// Takes the octets of the first field of a part of the input, those that were put back first. `false`: the input ended
/// before the part, and nothing was taken.
///
/// # Errors
///
/// As of `take_octets`, where the input ends within the field or at the limit.
pub fn take_first<F: Files, R: Copy + Drop>(
    cut: R,
    counted: &mut Counted,
    files: &mut F,
    into: &mut [u8],
) -> Result<bool, Fault<R>>
    requires room { 4 ≤ length into.old }
    ensures none { IfOk result (λ found. IsTrue found → counted.new.back ≡ []) }
    ensures straight { counted.old.back ≡ [] → counted.new.back ≡ [] }
    ensures taken { IfOk result (λ found.
        IsTrue found → counted.new.taken ≡ counted.old.taken + length into.new) }
    ensures passes { PassesIn F.Files files.old files.new counted.old counted.new }
    ensures starts { StartsIn F.Files files.old files.new (length into.new) cut counted.old counted.new into.new
        result }
{
    let Ok(count) = fill(counted, files, into) else {
        return Err(Fault::Read);
    };
    if count == into.len() {
        return Ok(true);
    }
    if is_over(counted, count) {
        return Ok(false);
    }
    Err(short(cut, counted))
}

/// Whether the input ended below its limit, where so many octets were the last to be taken and more were wanted.
fn is_over(counted: &Counted, count: usize) -> bool
    ensures { result ≡ ((count == 0) && not (counted.now.taken == counted.now.limit)) }
{
    count == 0 && counted.taken != counted.limit
}

/// Takes as many octets as `into` has room for, those that were put back first.
///
/// # Errors
///
/// As of `take_octets`.
#[inline(always)]
pub fn take_again<F: Files, R: Copy + Drop>(
    cut: R,
    counted: &mut Counted,
    files: &mut F,
    into: &mut [u8],
) -> Result<(), Fault<R>>
    requires few { length counted.old.back ≤ length into.old }
    ensures none { IfOk result (λ _. counted.new.back ≡ []) }
    ensures straight { counted.old.back ≡ [] → counted.new.back ≡ [] }
    ensures taken { IfOk result (λ _. counted.new.taken ≡ counted.old.taken + length into.new) }
    ensures reads { ScansAgain F.Files files.old files.new (field (length into.new) (λ octets. octets)) cut counted.old
        counted.new (λ _. into.new) result }
{
    let Ok(count) = fill(counted, files, into) else {
        return Err(Fault::Read);
    };
    if count < into.len() {
        return Err(short(cut, counted));
    }
    Ok(())
}

/// Takes so many octets and lets them go, by pieces that fit `into`.
///
/// # Errors
///
/// As of `take_octets`.
pub fn skip_octets<F: Files, R: Copy + Drop>(
    cut: R,
    size: u64,
    counted: &mut Counted,
    files: &mut F,
    into: &mut [u8],
) -> Result<(), Fault<R>>
    requires room { 0 < length into.old }
    requires none { counted.old.back ≡ [] }
    ensures none { counted.new.back ≡ [] }
    ensures taken { IfOk result (λ _. counted.new.taken ≡ counted.old.taken + size) }
    ensures reads { Scans F.Files files.old files.new (skips size) cut counted.old counted.new (λ _. size) result }
{
    let mut left = size;
    'pieces: while left > 0 {
        let most = left.min(into.len() as u64) as usize;
        if let Err(fault) = take_octets(cut, counted, files, &mut into[..most]) {
            return Err(fault);
        }
        left -= most as u64;
    }
    Ok(())
}
