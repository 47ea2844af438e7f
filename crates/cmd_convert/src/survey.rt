//! What `check` says of a dump.

ghost use Rattle.std.specs.{Prelude.{◌≡◌, ◌≢◌, ◌≤◌, ◌<◌, ◌^◌, ◌⊎◌, None, IsTrue, IfOk, length}, List.{AllByRecursion}};
ghost use Rattle.fs_base.specs.{Files.{one_opening}, Outside.{Rose}, Sink.{Grew}};
ghost use Rattle.fs_mrt.specs.Notes.{notes_coming};
ghost use Rattle.cmd_stages.specs.{Load.{OpensFront, config_then}, Refusal.{answered, or_stop}, Said.{Says}};
ghost use Rattle.cmd_stages.specs.declared.refusal.Refusal.TheVariants.{Outside};
ghost use Rattle.cmd_convert.specs.Command.{IsOfDump};
ghost use Rattle.cmd_convert.specs.Survey.{Counts as AreCounted, SaysEnd, content_verdict, dump_verdict};
ghost use Rattle.cmd_convert.specs.declared.counts.NoteCount.{NoteCount};

use crate::command::LONGEST_MESSAGE;
use crate::counts::{NoteCount, add_note};
use crate::survey_text::{counts_text, push_fault};
use cmd_stages::{Refusal, Said, TAPE_SLOT, load_config, open, status};
use fs_base::{Config, Counted, Files, Memory};
use fs_mrt::{DumpFault, NotedDump};
use std::alloc::Global;

/// Reads a dump, and says who speaks in it, and of which types its records are that aren't read; and, after that, what
/// is wrong with it, and at which octet. A record is judged as `convert` judges it.
///
/// # Errors
///
/// The configuration's; `Outside` where the dump isn't there, or the files failed; `Limit` where the dump has at least
/// `limit` octets without a fault; `Memory` where the machine refused memory.
pub fn survey_dump<F: Files>(
    alloc: Global,
    files: &mut F,
    config: &str,
    dump: &str,
    limit: u64,
) -> Result<Said, Refusal>
    ensures later { F.faults files.old ≤ F.faults files.new }
    ensures possible { IsOfDump (answered result) × (answered result ≢ 10) }
    ensures accepted { IfOk result (λ said. (said.status ≡ 0) ⊎ (said.status ≡ 10)) }
    ensures said { IsTrue F.tells
        → Says (λ verdict. verdict ≡ dump_verdict limit (F.holds files.old) config.now dump.now)
        (Rose (F.faults files.old) (F.faults files.new)) result }
    ensures opens { OpensFront (config_then 1 config.now dump.now)
        (F.opened files.old) (F.opened files.new) (answered result) }
{
    let config = load_config(alloc, files, config, limit)?;
    survey_file(alloc, files, &config, dump, limit)
}

/// What is said of a dump beside a configuration.
fn survey_file<F: Files>(
    alloc: Global,
    files: &mut F,
    config: &Config,
    dump: &str,
    limit: u64,
) -> Result<Said, Refusal>
    ensures later { F.faults files.old ≤ F.faults files.new }
    ensures possible { IsOfDump (answered result) × (answered result ≢ 10) × (answered result ≢ 3) }
    ensures accepted { IfOk result (λ said. (said.status ≡ 0) ⊎ (said.status ≡ 10)) }
    ensures said { IsTrue F.tells
        → Says (λ verdict. verdict ≡ content_verdict config.now limit (or_stop Outside (F.holds files.old dump.now)))
        (Rose (F.faults files.old) (F.faults files.new)) result }
    ensures opens { Grew (F.opened files.old) (F.opened files.new) (one_opening 1 dump.now) }
{
    open(files, TAPE_SLOT, dump)?;
    let mut buffer = vec![in alloc; 0u8; LONGEST_MESSAGE]?;
    let mut counts = Vec::new(alloc);
    let mut dump = NotedDump::begin(Counted::new(TAPE_SLOT, limit));
    let ended = count_notes(files, &mut dump, config, &mut buffer, &mut counts)?;
    say_end(alloc, counts.as_slice(), ended)
}

/// What is said of a dump that ends so, after these counts.
fn say_end(
    alloc: Global,
    counts: &[NoteCount],
    ended: Result<(), DumpFault>,
) -> Result<Said, Refusal>
    ensures possible { IsOfDump (answered result) × (answered result ≢ 10) × (answered result ≢ 3) }
    ensures accepted { IfOk result (λ said. (said.status ≡ 0) ⊎ (said.status ≡ 10)) }
    ensures said { SaysEnd counts.now ended result }
{
    match ended {
        Ok(()) => Ok(Said {
            status: status::DONE,
            text: counts_text(alloc, counts)?,
        }),
        Err(DumpFault::Read) => Err(Refusal::Outside),
        Err(DumpFault::Limit) => Err(Refusal::Limit),
        Err(DumpFault::Bad { reason, place }) => {
            let mut text = counts_text(alloc, counts)?;
            push_fault(alloc, reason, place, &mut text)?;
            Ok(Said {
                status: status::DUMP,
                text,
            })
        }
    }
}

/// Counts the records that a dump is still to give, and answers how it ends.
fn count_notes<F: Files>(
    files: &mut F,
    dump: &mut NotedDump,
    config: &Config,
    buffer: &mut [u8],
    counts: &mut Vec<NoteCount>,
) -> Result<Result<(), DumpFault>, Memory>
    requires room { 65536 ≤ length buffer.old }
    requires open { dump.old.end ≡ None }
    requires few { AllByRecursion (λ (count : NoteCount). count.count ≤ dump.old.place) counts.old.items }
    requires within { dump.old.place ≤ dump.old.limit }
    requires fits { dump.old.limit < 2 ^ 64 }
    ensures later { F.faults files.old ≤ F.faults files.new }
    ensures opened { F.opened files.new ≡ F.opened files.old }
    ensures counts { IsTrue F.tells
        → IfOk result (AreCounted counts.old.items counts.new.items
        (notes_coming config.now dump.old (F.left files.old dump.old.slot))
        (Rose (F.faults files.old) (F.faults files.new))) }
{
    'records: loop {
        match dump.next(files, config, buffer) {
            Ok(Some(note)) => add_note(counts, note)?,
            Ok(None) => return Ok(Ok(())),
            Err(fault) => return Ok(Err(fault)),
        }
    }
}
