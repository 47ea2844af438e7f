//! The command `convert`.

ghost use Rattle.std.specs.Prelude.{◌≡◌, ◌≤◌, ◌⊎◌, [], None, IsTrue, IfOk, IfSome, MatchResult, length};
ghost use Rattle.fs_base.specs.{Files.{OnlySlot, one_opening}, Happened.{happened}, Outside.{Rose}, Sink.{Grew}};
ghost use Rattle.fs_mrt.specs.Dump.{Grows, IsBegun, coming};
ghost use Rattle.cmd_stages.specs.{Load.{OpensFront, config_then}, Refusal.{answered}};
ghost use Rattle.cmd_convert.specs.Command.{Ceases, Converts, IsAtRecord, IsOfDump, IsOpened, MakesAll, Yields};

use crate::making::Making;
use cmd_stages::{Refusal, TAPE_SLOT, load_config, open};
use fs_base::{Config, Counted, Files, Sink};
use fs_mrt::{Dump, DumpFault, Heard};
use std::alloc::Global;

/// The octets of the longest message that is read.
pub(crate) const LONGEST_MESSAGE: usize = 65536;

/// The names of the files that `convert` reads.
#[derive(Clone, Copy, Drop)]
pub struct DumpNames<'w> {
    pub config: &'w str,
    pub dump: &'w str,
}

/// Reads a dump (RFC 6396 section 4.4), and writes the tape of the second version that its records of configured peers
/// make. What it holds in memory doesn't grow with the dump. All memory is taken before the first octet is written.
///
/// # Errors
///
/// The first of these, in this order of work: the configuration's, the dump's. `Dump` where the dump has a fault, and
/// `Limit` where it has at least `limit` octets without one, both after the items before; `Outside` where a file isn't
/// there, or the files or the sink failed, and then a front of the tape is written; `Memory` where the machine refused
/// memory, and then nothing is.
pub fn convert<F: Files, S: Sink>(
    alloc: Global,
    files: &mut F,
    sink: &mut S,
    names: &DumpNames<'_>,
    limit: u64,
) -> Result<(), Refusal>
    ensures files_later { F.faults files.old ≤ F.faults files.new }
    ensures sink_later { S.faults sink.old ≤ S.faults sink.new }
    ensures possible { IsOfDump (answered result) }
    ensures quiet { (answered result ≡ 3) ⊎ (answered result ≡ 6) → sink.new ≡ sink.old }
    ensures opens { OpensFront (config_then 1 names.now.config.now names.now.dump.now)
        (F.opened files.old) (F.opened files.new) (answered result) }

    ensures converts { IsTrue F.tells
        → Converts limit (F.holds files.old) names.now.config.now names.now.dump.now
        (happened F.Files S.Sink files.old files.new sink.old sink.new)
        (answered result) }
{
    let config = load_config(alloc, files, names.config, limit)?;
    let mut dump = open_dump(files, names.dump, limit)?;
    let mut making = Making::new(alloc, &config)?;
    let mut buffer = vec![in alloc; 0u8; LONGEST_MESSAGE]?;
    let converted = convert_dump(files, &mut dump, &mut making, &mut buffer, sink);
    making.finish(converted, sink)
}

/// Opens the dump, up to its first record.
fn open_dump<F: Files>(files: &mut F, name: &str, limit: u64) -> Result<Dump, Refusal>
    ensures possible { IsAtRecord (answered result) }
    ensures later { F.faults files.old ≤ F.faults files.new }
    ensures begun { IfOk result (IsBegun 1 limit []) }
    ensures within { IfOk result (λ dump. dump.place ≤ dump.limit) }
    ensures holds { IsTrue F.tells → F.holds files.new ≡ F.holds files.old }

    ensures opened { IsTrue F.tells
        → IsOpened (F.holds files.old) name.now (F.left files.new 1)
        (Rose (F.faults files.old) (F.faults files.new)) result }
    ensures opens { Grew (F.opened files.old) (F.opened files.new) (one_opening 1 name.now) }
    ensures others { OnlySlot F.tells F.left F.holds 1 files.old files.new }
{
    open(files, TAPE_SLOT, name)?;
    match Dump::begin(Counted::new(TAPE_SLOT, limit), files) {
        Ok(dump) => Ok(dump),
        Err(DumpFault::Read) => Err(Refusal::Outside),
        Err(DumpFault::Limit) => Err(Refusal::Limit),
        Err(DumpFault::Bad { .. }) => Err(Refusal::Dump),
    }
}

/// Writes what a tape begins with, and what the records of the dump make.
fn convert_dump<F: Files, S: Sink>(
    files: &mut F,
    dump: &mut Dump,
    making: &mut Making<'_>,
    buffer: &mut [u8],
    sink: &mut S,
) -> Result<(), Refusal>
    requires room { 65536 ≤ length buffer.old }
    requires open { dump.old.end ≡ None }
    requires within { dump.old.place ≤ dump.old.limit }
    ensures possible { IsAtRecord (answered result) }
    ensures files_later { F.faults files.old ≤ F.faults files.new }
    ensures opened { F.opened files.new ≡ F.opened files.old }
    ensures sink_later { S.faults sink.old ≤ S.faults sink.new }

    ensures made { IsTrue F.tells
        → MakesAll making.old
        (coming making.old.config dump.old (F.left files.old dump.old.slot))
        (happened F.Files S.Sink files.old files.new sink.old sink.new)
        making.new.pending
        result }
{
    let config = making.config();
    making.begin(dump.is_at_hand(config, files), sink)?;
    'records: while let Some(heard) = next_heard(files, dump, config, buffer)? {
        making.write_heard(dump.is_at_hand(config, files), heard, buffer, sink)?;
    }
    Ok(())
}

/// The dump's next record that is heard, or None at its end. A message stands at the front of the buffer.
fn next_heard<F: Files>(
    files: &mut F,
    dump: &mut Dump,
    config: &Config,
    buffer: &mut [u8],
) -> Result<Option<Heard>, Refusal>
    requires room { 65536 ≤ length buffer.old }
    requires open { dump.old.end ≡ None }
    ensures room { length buffer.new ≡ length buffer.old }
    ensures possible { IsAtRecord (answered result) }
    ensures later { F.faults files.old ≤ F.faults files.new }
    ensures opened { F.opened files.new ≡ F.opened files.old }
    ensures holds { IsTrue F.tells → F.holds files.new ≡ F.holds files.old }
    ensures slot { dump.new.slot ≡ dump.old.slot }
    ensures limit { dump.new.limit ≡ dump.old.limit }
    ensures open { IfOk result (λ found. IfSome found (λ _. dump.new.end ≡ None)) }
    ensures grows { IfOk result (λ found. IfSome found (λ heard.
        Grows dump.old.place dump.new.place dump.new.limit (Ok (Some heard)))) }

    ensures gives { IsTrue F.tells
        → MatchResult result
        (Yields (coming config.now dump.old (F.left files.old dump.old.slot))
        (coming config.now dump.new (F.left files.new dump.old.slot)) buffer.new)
        (Ceases (coming config.now dump.old (F.left files.old dump.old.slot))
        (Rose (F.faults files.old) (F.faults files.new))) }
    ensures others { OnlySlot F.tells F.left F.holds dump.old.slot files.old files.new }
{
    match dump.next(files, config, buffer) {
        Ok(found) => Ok(found),
        Err(DumpFault::Read) => Err(Refusal::Outside),
        Err(DumpFault::Limit) => Err(Refusal::Limit),
        Err(DumpFault::Bad { .. }) => Err(Refusal::Dump),
    }
}
