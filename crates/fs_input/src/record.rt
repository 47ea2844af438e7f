//! Reading an input record by record, whatever counts the reads give.
ghost use Rattle.std.specs.{Prelude.{◌≡◌, ◌≤◌, [], None, IsTrue, length, take}, Result.{IsErrOf}};
ghost use Rattle.fs_base.specs.{Draws.{Draws}, Outside.{Rose}, Parts.{with_part}};
ghost use Rattle.fs_input.specs.NextRecord.{Advances, GivesNext, Grows, IsFoundWithin, answer_of, ended_after, short_answer, short_fault};
ghost use Rattle.fs_input.specs.{Reads.{PassesIn}, Records.{records_ahead}};

use crate::fault::{Ended, Fault};
use crate::head::{Found, Head, Heads, MOST_HEAD};
use fs_base::{Counted, Files, fill};

/// Reads the next record of an input. Its payload stands at the front of `into`. `None`: the input ended behind its
/// last record. After that, and after any fault, each call answers the same again and reads nothing.
///
/// # Errors
///
/// `Bad` with the first field that stands whole and is wrong, as soon as it is read, or with the format's cut where the
/// input ends within a record; `Limit` where the limit is reached and no field before it is wrong; `Read` where the
/// files failed.
#[inline(always)]
pub fn next_record<F: Files, H: Heads>(
    heads: &H,
    counted: &mut Counted,
    end: &mut Option<Ended<H::Reason>>,
    files: &mut F,
    into: &mut [u8],
) -> Result<Option<Found<H::Said>>, Fault<H::Reason>>
    requires room { H.most ≤ length into.old }
    requires none { counted.old.back ≡ [] }
    ensures none { counted.new.back ≡ [] }
    ensures gives { GivesNext F.Files files.old files.new counted.old.slot counted.new.slot counted.old.limit
        counted.new.limit end.old end.new ((counted.new ≡ counted.old) × (end.new ≡ end.old))
        (records_ahead H.format counted.old heads.now (F.left files.old counted.old.slot))
        (λ found. with_part (H.format.item_of found.said (take found.size into.new))
        (records_ahead H.format counted.new (H.format.behind heads.now found.said) (F.left files.new counted.old.slot)))
        result }
    ensures grows { end.old ≡ None
        → Grows (IsFoundWithin (H.Known heads.now) H.most) counted.old.taken counted.new.taken counted.new.limit result }
    ensures took { IsTrue F.tells
        → Draws counted.old counted.new (F.left files.old counted.old.slot) (F.left files.new counted.old.slot) }
{
    if let Some(ended) = *end {
        return answer(ended);
    }
    match advance(heads, counted, files, into) {
        Ok(Some(found)) => Ok(Some(found)),
        last => {
            *end = ended_by(&last);
            last
        }
    }
}

/// The fault of an input that has no octet left to be taken, before a part of it is whole.
pub fn short<R: Drop>(cut: R, counted: &Counted) -> Fault<R>
    ensures { result ≡ short_fault cut counted.now.taken counted.now.limit }
{
    if counted.taken == counted.limit {
        return Fault::Limit;
    }
    Fault::Bad {
        reason: cut,
        place: counted.taken,
    }
}

/// What an input answers of which so many octets of a head were the last to be taken, and no field in them is wrong.
fn stopped<T, R: Drop>(cut: R, counted: &Counted, count: usize) -> Result<Option<T>, Fault<R>>
    ensures { result ≡ short_answer cut counted.now.taken counted.now.limit count }
{
    if count == 0 && counted.taken != counted.limit {
        return Ok(None);
    }
    Err(short(cut, counted))
}

/// What an input that ended answers, on every further call.
///
/// # Errors
///
/// The fault that stays.
pub fn answer<T, R>(ended: Ended<R>) -> Result<Option<T>, Fault<R>>
    ensures { result ≡ answer_of ended }
{
    match ended {
        Ended::Done => Ok(None),
        Ended::Stopped(fault) => Err(fault),
    }
}

/// How an input stands ended behind an answer: `None` where a record was read.
pub fn ended_by<T, R: Copy>(found: &Result<Option<T>, Fault<R>>) -> Option<Ended<R>>
    ensures { result ≡ ended_after found.now }
{
    match found {
        Ok(Some(_)) => None,
        Ok(None) => Some(Ended::Done),
        Err(fault) => Some(Ended::Stopped(*fault)),
    }
}

/// Reads one record of an input that hasn't ended.
#[inline(always)]
fn advance<F: Files, H: Heads>(
    heads: &H,
    counted: &mut Counted,
    files: &mut F,
    into: &mut [u8],
) -> Result<Option<Found<H::Said>>, Fault<H::Reason>>
    requires room { H.most ≤ length into.old }
    requires none { counted.old.back ≡ [] }
    ensures none { counted.new.back ≡ [] }
    ensures read { IsErrOf result Fault.Read → Rose (F.faults files.old) (F.faults files.new) }
    ensures passes { PassesIn F.Files files.old files.new counted.old counted.new }
    ensures grows { Grows (IsFoundWithin (H.Known heads.now) H.most) counted.old.taken counted.new.taken counted.new.limit
        result }

    ensures advances { IsTrue F.tells
        → Advances
        (records_ahead H.format counted.old heads.now (F.left files.old counted.old.slot))
        (λ found. with_part (H.format.item_of found.said (take found.size into.new))
        (records_ahead H.format counted.new (H.format.behind heads.now found.said) (F.left files.new counted.old.slot)))
        result }
{
    let mut octets = [0u8; MOST_HEAD];
    let size = heads.head_size();
    let head = &mut octets[..size];
    let Ok(count) = fill(counted, files, head) else {
        return Err(Fault::Read);
    };
    let place = counted.taken - count as u64;
    match heads.read_head(&head[..count]) {
        Head::Wrong { reason, offset } => Err(Fault::Bad {
            reason,
            place: place + offset as u64,
        }),
        Head::Partial => stopped(heads.cut(), counted, count),
        Head::Whole { said, size } => {
            let Ok(count) = fill(counted, files, &mut into[..size]) else {
                return Err(Fault::Read);
            };
            if count < size {
                return Err(short(heads.cut(), counted));
            }
            Ok(Some(Found { said, size }))
        }
    }
}
