//! A file of the system that may change, read whole.

ghost use Rattle.std.specs.Prelude.{◌≡◌, [], length};
ghost use Rattle.fs_outside.specs.Gate.{HandsOverFound};

use crate::{Found, Memory};
use std::io::{ErrorKind, Read};
use std::{fs, rt};

/// Octets are read in pieces of so many.
const PIECE: usize = 64 * 1024;

/// Appends what the file has, up to the limit, and says what was found.
fn gather<F: Read>(file: &mut F, limit: u64, into: &mut Vec<u8>) -> Result<Found, Memory> {
    let mut piece = [0u8; PIECE];
    for _ in 0..limit {
        match file.read(&mut piece) {
            Ok(0) => return Ok(Found::Whole),
            Ok(count) => {
                into.extend_from_slice(&piece[..count])?;
                if limit <= into.len() as u64 {
                    return Ok(Found::TooLong);
                }
            }
            Err(error) if error.kind() == ErrorKind::Interrupted => {}
            Err(_) => return Ok(Found::Failed),
        }
    }
    Ok(Found::TooLong)
}

/// Opens the file and reads it. Only a file has an end: of a pipe, a terminal or a folder none is read.
fn open_and_gather<R: rt::Files>(
    runtime: &R,
    name: &str,
    limit: u64,
    into: &mut Vec<u8>,
) -> Result<Found, Memory> {
    let opened = match fs::metadata(runtime, name) {
        Ok(shown) if shown.is_file() => fs::open(runtime, name),
        Ok(_) => return Ok(Found::Failed),
        Err(error) => Err(error),
    };
    match opened {
        Ok(mut file) => gather(&mut file, limit, into),
        Err(error) if error.kind() == ErrorKind::NotFound => Ok(Found::Absent),
        Err(_) => Ok(Found::Failed),
    }
}

/// Reads the file whole into `into`, where it has fewer octets than `limit`.
///
/// # Errors
///
/// `Memory` where the machine refused memory for its octets.
pub(crate) fn read_file<R: rt::Files>(
    runtime: &R,
    name: &str,
    limit: u64,
    into: &mut Vec<u8>,
) -> Result<Found, Memory>
    ensures { HandsOverFound result limit into.new.items }
{
    into.clear();
    let found = open_and_gather(runtime, name, limit, into);
    let is_whole = matches!(found, Ok(Found::Whole)) && (into.len() as u64) < limit;
    if is_whole {
        return Ok(Found::Whole);
    }
    into.clear();
    match found {
        Ok(Found::Whole) => Ok(Found::TooLong),
        found => found,
    }
}
