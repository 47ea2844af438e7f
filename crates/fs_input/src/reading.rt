//! Reading an input part by part, up to one that tells something.
ghost use Rattle.std.specs.{Prelude.{◌≡◌, ◌≤◌, ◌<◌, [], None, IsTrue, IfOk, IfSome, length}, Option.{option_map}, Result.{IsErrOf}};
ghost use Rattle.fs_base.specs.{Draws.{Draws}, Outside.{Rose}, Parts.{with_part}};
ghost use Rattle.fs_input.specs.{NextRecord.{Advances, GivesNext}, Reads.{PassesIn}, declared.fault.Fault.TheVariants.{Read}};
ghost use Rattle.fs_input.specs.{Coming.{part_in, parts_ahead, told_ahead}, Reading.{Grows, part_told, answer_told}};

use crate::fault::{Ended, Fault};
use crate::fields::take_first;
use crate::parts::{MOST_FIRST, Parts};
use crate::record::{answer, ended_by};
use fs_base::{Counted, Files};

/// Reads up to the next part of an input that tells something. Octets that were put back are read first. `None`: the
/// input ended behind a part. After that, and after any fault, each call answers the same again and reads nothing.
///
/// # Errors
///
/// `Bad` with the first field that stands whole and is wrong, as soon as it is read, or with the format's cut where the
/// input ends within a part; `Limit` where the limit is reached and no field before it is wrong; `Read` where the
/// files failed.
pub fn next_part<F: Files, P: Parts>(
    given: &P::Given,
    parts: &mut P,
    counted: &mut Counted,
    end: &mut Option<Ended<P::Reason>>,
    files: &mut F,
    into: &mut [u8],
) -> Result<Option<P::Told>, Fault<P::Reason>>
    requires room { P.most ≤ length into.old }
    ensures straight { counted.old.back ≡ [] → counted.new.back ≡ [] }
    ensures room { length into.new ≡ length into.old }
    ensures gives { GivesNext F.Files files.old files.new counted.old.slot counted.new.slot counted.old.limit
        counted.new.limit end.old end.new
        ((counted.new ≡ counted.old) × (end.new ≡ end.old) × (parts.new ≡ parts.old))
        (told_ahead (part_in P.first (P.behind given.now)) P.cut counted.old parts.old (F.left files.old counted.old.slot))
        (λ told. with_part (P.part_of into.new told)
        (told_ahead (part_in P.first (P.behind given.now)) P.cut counted.new parts.new (F.left files.new counted.old.slot)))
        result }
    ensures grows { end.old ≡ None → Grows counted.old.taken counted.new.taken counted.new.limit result }
    ensures moves { P.Moves parts.old parts.new (answer_told result) }
    ensures took { IsTrue F.tells
        → Draws counted.old counted.new (F.left files.old counted.old.slot) (F.left files.new counted.old.slot) }
{
    if let Some(ended) = *end {
        return answer(ended);
    }
    let found = next_told(given, parts, counted, files, into);
    *end = ended_by(&found);
    found
}

/// Reads parts up to one that tells something, of an input that hasn't ended.
fn next_told<F: Files, P: Parts>(
    given: &P::Given,
    parts: &mut P,
    counted: &mut Counted,
    files: &mut F,
    into: &mut [u8],
) -> Result<Option<P::Told>, Fault<P::Reason>>
    requires room { P.most ≤ length into.old }
    ensures straight { counted.old.back ≡ [] → counted.new.back ≡ [] }
    ensures room { length into.new ≡ length into.old }
    ensures read { IsErrOf result Read → Rose (F.faults files.old) (F.faults files.new) }
    ensures passes { PassesIn F.Files files.old files.new counted.old counted.new }
    ensures grows { Grows counted.old.taken counted.new.taken counted.new.limit result }
    ensures moves { P.Moves parts.old parts.new (answer_told result) }

    ensures advances { IsTrue F.tells
        → Advances
        (told_ahead (part_in P.first (P.behind given.now)) P.cut counted.old parts.old (F.left files.old counted.old.slot))
        (λ told. with_part (P.part_of into.new told)
        (told_ahead (part_in P.first (P.behind given.now)) P.cut counted.new parts.new (F.left files.new counted.old.slot)))
        result }
{
    'parts: loop {
        match advance(given, parts, counted, files, into) {
            Ok(Some(Some(told))) => return Ok(Some(told)),
            Ok(Some(None)) => {}
            Ok(None) => return Ok(None),
            Err(fault) => return Err(fault),
        }
    }
}

/// Reads one part: what it tells, if anything. `None`: the input ended before it.
fn advance<F: Files, P: Parts>(
    given: &P::Given,
    parts: &mut P,
    counted: &mut Counted,
    files: &mut F,
    into: &mut [u8],
) -> Result<Option<Option<P::Told>>, Fault<P::Reason>>
    requires room { P.most ≤ length into.old }
    ensures straight { counted.old.back ≡ [] → counted.new.back ≡ [] }
    ensures room { length into.new ≡ length into.old }
    ensures read { IsErrOf result Read → Rose (F.faults files.old) (F.faults files.new) }
    ensures passes { PassesIn F.Files files.old files.new counted.old counted.new }
    ensures grows { IfOk result (λ found. IfSome found (λ told. counted.old.taken < counted.new.taken)) }
    ensures moves { P.Moves parts.old parts.new (part_told result) }

    ensures advances { IsTrue F.tells
        → Advances
        (parts_ahead (part_in P.first (P.behind given.now)) P.cut counted.old parts.old (F.left files.old counted.old.slot))
        (λ told. with_part (option_map (P.part_of into.new) told)
        (parts_ahead (part_in P.first (P.behind given.now)) P.cut counted.new parts.new (F.left files.new counted.new.slot)))
        result }
{
    let mut octets = [0u8; MOST_FIRST];
    let size = parts.first_size(given);
    let front = &mut octets[..size];
    match take_first(parts.cut(), counted, files, front) {
        Ok(true) => match parts.take_behind(given, front, counted, files, into) {
            Ok(told) => Ok(Some(told)),
            Err(fault) => Err(fault),
        },
        Ok(false) => Ok(None),
        Err(fault) => Err(fault),
    }
}
