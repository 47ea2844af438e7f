//! Filling a buffer, whatever counts the reads give.

ghost use Rattle.fs_base.specs.Filling.{FillsIn};

use super::{Counted, Failed, Files, Stop};

/// Fills `into` from the front, as far as the input and its limit reach, and answers how many octets it got. Where
/// they are fewer than `into` has room for, the limit was reached if `counted.taken` is `counted.limit`, else the
/// input ended.
///
/// # Errors
///
/// `Failed` where the files failed.
#[inline(always)]
pub fn fill<F: Files>(
    counted: &mut Counted,
    files: &mut F,
    into: &mut [u8],
) -> Result<usize, Failed>
    ensures { FillsIn F.Files files.old files.new counted.old counted.new into.new result }
{
    if into.is_empty() {
        return Ok(0);
    }
    match counted.read(files, into) {
        Ok(0) | Err(Stop::Limit) => Ok(0),
        Ok(count) if count == into.len() => Ok(count),
        Ok(count) => match fill_rest(counted, files, &mut into[count..]) {
            Ok(more) => Ok(count + more),
            Err(Failed) => Err(Failed),
        },
        Err(Stop::Failed) => Err(Failed),
    }
}

/// The same by any number of reads: what a first read has left to be filled.
#[inline(never)]
fn fill_rest<F: Files>(
    counted: &mut Counted,
    files: &mut F,
    into: &mut [u8],
) -> Result<usize, Failed>
    ensures { FillsIn F.Files files.old files.new counted.old counted.new into.new result }
{
    let mut at = 0;
    while at < into.len() {
        match counted.read(files, &mut into[at..]) {
            Ok(0) | Err(Stop::Limit) => break,
            Ok(count) => at += count,
            Err(Stop::Failed) => return Err(Failed),
        }
    }
    Ok(at)
}
