//! Playing a tape.

ghost use Rattle.std.specs.Prelude.{◌≡◌, ◌≤◌, ◌<◌, [], None, Some, length, IsOk, IsTrue, IfErr, IfOk, IfSome, OnOk, MatchResult};
ghost use Rattle.fs_base.specs.{Files.{OnlySlot, one_opening}, Outside.{Rose}, Sink.{Grew}, declared.config.Config.{Config}};
ghost use Rattle.fs_input.specs.{Records.{done}, declared.fault.Ended.TheVariants.{Done}};
ghost use Rattle.fs_tape.specs.{Header.{IsTimed, longest_payload}, Tape.{IsBegun, IsItem, coming, item_from}};
ghost use Rattle.cmd_stages.specs.Items.{Ceases, read_stage};
ghost use Rattle.cmd_stages.specs.Refusal.{Found, HasReason, IsOfTape, answered, status_of};
ghost use Rattle.cmd_stages.specs.Play.{EndsBy, IsOpenOrDone, tape_stage, played_to, IsOpened, IsPlayed, Gives, PlaysOn, refused_by};
ghost use Rattle.fs_desk.specs.Desk.{Notes, Played, Plays};

use crate::load::{TAPE_SLOT, open};
use crate::refusal::Refusal;
use fs_base::{Config, Counted, Files, Memory};
use fs_desk::Desk;
use fs_tape::{LONGEST_PAYLOAD, Tape, TapeFault, TapeItem};
use std::alloc::Global;

/// Plays the whole tape, and hands out the desk after it.
///
/// # Errors
///
/// `Outside` where the file isn't there or the files failed, `Tape` where it has a fault, `Limit` where it has at least
/// `limit` octets without one, `Memory` where the machine refused memory.
pub fn play_whole<'a, F: Files>(
    alloc: Global,
    files: &mut F,
    config: &'a Config,
    name: &str,
    limit: u64,
) -> Result<Desk<'a>, Refusal>
    ensures later { F.faults files.old ≤ F.faults files.new }
    ensures possible { IsOfTape (answered result) }

    ensures played { IsTrue F.tells
        → MatchResult result
        (IsPlayed config.entry.now (tape_stage config.entry.now limit (F.holds files.old) name.now))
        (HasReason (tape_stage config.entry.now limit (F.holds files.old) name.now)
        (Rose (F.faults files.old) (F.faults files.new))) }
    ensures opens { Grew (F.opened files.old) (F.opened files.new) (one_opening 1 name.now) }
    ensures others { OnlySlot F.tells F.left F.holds 1 files.old files.new }
{
    let mut tape = open_tape(files, name, limit)?;
    play_rest(alloc, files, &mut tape, config)
}

/// Opens the tape, up to its first item.
///
/// # Errors
///
/// `Outside` where the file isn't there or the files failed, `Tape` where the tape has a fault before its items, `Limit`
/// where the limit is reached there.
pub fn open_tape<F: Files>(files: &mut F, name: &str, limit: u64) -> Result<Tape, Refusal>
    ensures later { F.faults files.old ≤ F.faults files.new }
    ensures state { IfOk result (IsBegun 1 limit) }
    ensures within { IfOk result (λ tape. tape.place ≤ tape.limit) }
    ensures possible { IsOfTape (answered result) }

    ensures opened { IsTrue F.tells
        → MatchResult result
        (IsOpened limit (F.holds files.old) name.now (F.left files.new 1))
        (λ refusal. (config : Config) → HasReason (tape_stage config limit (F.holds files.old) name.now)
        (Rose (F.faults files.old) (F.faults files.new)) refusal) }
    ensures reads { IsTrue F.tells
        → (config : Config)
        → MatchResult result
        (λ tape. read_stage config limit (F.holds files.old) name.now
        ≡ Found (coming config tape (F.left files.new 1)))
        (Ceases (read_stage config limit (F.holds files.old) name.now)
        (Rose (F.faults files.old) (F.faults files.new))) }
    ensures opens { Grew (F.opened files.old) (F.opened files.new) (one_opening 1 name.now) }
    ensures others { OnlySlot F.tells F.left F.holds 1 files.old files.new }
{
    open(files, TAPE_SLOT, name)?;
    match Tape::begin(Counted::new(TAPE_SLOT, limit), files) {
        Ok(tape) => Ok(tape),
        Err(fault) => Err(refusal_of(fault)),
    }
}

/// Plays what is left of a tape of which no item was read, and hands out the desk after it.
pub(crate) fn play_rest<'a, F: Files>(
    alloc: Global,
    files: &mut F,
    tape: &mut Tape,
    config: &'a Config,
) -> Result<Desk<'a>, Refusal>
    requires open { tape.old.end ≡ None }
    requires within { tape.old.place ≤ tape.old.limit }
    ensures later { F.faults files.old ≤ F.faults files.new }
    ensures slot { tape.new.slot ≡ tape.old.slot }
    ensures config { IfOk result (λ desk. desk.config ≡ config.entry.now) }
    ensures possible { IsOfTape (answered result) }
    ensures done { IsOk result → tape.new.end ≡ Some Done }

    ensures played { IsTrue F.tells
        → MatchResult result
        (PlaysOn config.entry.now tape.old.version
        (coming config.entry.now tape.old (F.left files.old tape.old.slot)))
        (HasReason (played_to (coming config.entry.now tape.old (F.left files.old tape.old.slot)))
        (Rose (F.faults files.old) (F.faults files.new))) }
    ensures opened { F.opened files.new ≡ F.opened files.old }
    ensures others { OnlySlot F.tells F.left F.holds tape.old.slot files.old files.new }
{
    let mut desk = Desk::new(alloc, config)?;
    let mut buffer = vec![in alloc; 0u8; LONGEST_PAYLOAD]?;
    match play_items(alloc, files, tape, config, &mut desk, &mut buffer) {
        Ok(()) => Ok(desk),
        Err(refusal) => Err(refusal),
    }
}

/// Plays what is left of the tape.
fn play_items<F: Files>(
    alloc: Global,
    files: &mut F,
    tape: &mut Tape,
    config: &Config,
    desk: &mut Desk<'_>,
    buffer: &mut [u8],
) -> Result<(), Refusal>
    requires room { longest_payload ≤ length buffer.old }
    requires open { tape.old.end ≡ None }
    requires within { tape.old.place ≤ tape.old.limit }
    requires first { Played config.now [] desk.old }
    ensures later { F.faults files.old ≤ F.faults files.new }
    ensures slot { tape.new.slot ≡ tape.old.slot }
    ensures config { desk.new.config ≡ config.now }
    ensures possible { IsOfTape (answered result) }
    ensures done { IsOk result → tape.new.end ≡ Some Done }

    ensures played { IsTrue F.tells
        → MatchResult result
        (λ _. PlaysOn config.now tape.old.version (coming config.now tape.old (F.left files.old tape.old.slot))
        desk.new)
        (HasReason (played_to (coming config.now tape.old (F.left files.old tape.old.slot)))
        (Rose (F.faults files.old) (F.faults files.new))) }
    ensures opened { F.opened files.new ≡ F.opened files.old }
    ensures others { OnlySlot F.tells F.left F.holds tape.old.slot files.old files.new }
{
    let mut replies = Vec::new(alloc);
    'items: while let Some(item) = next_item(files, tape, config, buffer)? {
        replies.clear();
        play_item(desk, item, buffer, &mut replies)?;
    }
    Ok(())
}

/// Reads what is left of the tape, and plays nothing.
pub(crate) fn read_rest<F: Files>(
    alloc: Global,
    files: &mut F,
    tape: &mut Tape,
    config: &Config,
) -> Result<(), Refusal>
    requires open { tape.old.end ≡ None }
    requires within { tape.old.place ≤ tape.old.limit }
    ensures later { F.faults files.old ≤ F.faults files.new }
    ensures possible { IsOfTape (answered result) }

    ensures read { IsTrue F.tells
        → MatchResult result
        (λ _. (coming config.now tape.old (F.left files.old tape.old.slot)).1 ≡ done)
        (HasReason (played_to (coming config.now tape.old (F.left files.old tape.old.slot)))
        (Rose (F.faults files.old) (F.faults files.new))) }
    ensures opened { F.opened files.new ≡ F.opened files.old }
    ensures others { OnlySlot F.tells F.left F.holds tape.old.slot files.old files.new }
{
    let mut buffer = vec![in alloc; 0u8; LONGEST_PAYLOAD]?;
    read_items(files, tape, config, &mut buffer)
}

/// Reads what is left of the tape, item by item.
fn read_items<F: Files>(
    files: &mut F,
    tape: &mut Tape,
    config: &Config,
    buffer: &mut [u8],
) -> Result<(), Refusal>
    requires room { longest_payload ≤ length buffer.old }
    requires open { tape.old.end ≡ None }
    requires within { tape.old.place ≤ tape.old.limit }
    ensures later { F.faults files.old ≤ F.faults files.new }
    ensures possible { IsOfTape (answered result) }

    ensures read { IsTrue F.tells
        → MatchResult result
        (λ _. (coming config.now tape.old (F.left files.old tape.old.slot)).1 ≡ done)
        (HasReason (played_to (coming config.now tape.old (F.left files.old tape.old.slot)))
        (Rose (F.faults files.old) (F.faults files.new))) }
    ensures opened { F.opened files.new ≡ F.opened files.old }
    ensures others { OnlySlot F.tells F.left F.holds tape.old.slot files.old files.new }
{
    'items: while let Some(_item) = next_item(files, tape, config, buffer)? {}
    Ok(())
}

/// Plays one item, whose octets stand at the front of the buffer.
pub(crate) fn play_item(
    desk: &mut Desk<'_>,
    item: TapeItem,
    buffer: &[u8],
    replies: &mut Vec<u8>,
) -> Result<(), Memory>
    requires room { longest_payload ≤ length buffer.now }
    requires item { IsItem desk.old.config item }
    ensures config { desk.new.config ≡ desk.old.config }
    ensures played { OnOk result (Plays (item_from item buffer.now) desk.old desk.new) }
    ensures told { OnOk result (Notes desk.old desk.new) }
{
    match item {
        TapeItem::Up(peer) => desk.up(peer),
        TapeItem::Octets(peer, count) => desk.octets(peer, &buffer[..count], replies),
        TapeItem::Lost(peer) => {
            desk.lost(peer);
            Ok(())
        }
    }
}

/// The tape's next item, or None at its end. Its octets stand at the front of the buffer.
///
/// # Errors
///
/// `Outside` where the files failed, `Tape` and `Limit` where the tape ends so.
pub fn next_item<F: Files>(
    files: &mut F,
    tape: &mut Tape,
    config: &Config,
    buffer: &mut [u8],
) -> Result<Option<TapeItem>, Refusal>
    requires room { longest_payload ≤ length buffer.old }
    requires open { tape.old.end ≡ None }
    ensures later { F.faults files.old ≤ F.faults files.new }
    ensures holds { IsTrue F.tells → F.holds files.new ≡ F.holds files.old }
    ensures slot { tape.new.slot ≡ tape.old.slot }
    ensures limit { tape.new.limit ≡ tape.old.limit }
    ensures version { tape.new.version ≡ tape.old.version }
    ensures possible { IsOfTape (answered result) }
    ensures timed { IfOk result (λ found.
        IfSome found (λ _. IsTimed tape.old.version tape.old.moment tape.new.moment)) }
    ensures known { IfOk result (λ found. IfSome found (IsItem config.now)) }
    ensures open { IfOk result (λ found. IfSome found (λ _. tape.new.end ≡ None)) }
    ensures ends { MatchResult result (IsOpenOrDone tape.new) (EndsBy tape.new) }
    ensures grows { IfOk result (λ found. IfSome found (λ _.
        (tape.old.place < tape.new.place) × (tape.new.place ≤ tape.new.limit))) }

    ensures gives { IsTrue F.tells
        → MatchResult result
        (Gives (coming config.now tape.old (F.left files.old tape.old.slot))
        (coming config.now tape.new (F.left files.new tape.old.slot)) tape.new.moment buffer.new)
        (HasReason (played_to (coming config.now tape.old (F.left files.old tape.old.slot)))
        (Rose (F.faults files.old) (F.faults files.new))) }
    ensures ceases { IsTrue F.tells
        → IfErr result (Ceases (Found (coming config.now tape.old (F.left files.old tape.old.slot)))
        (Rose (F.faults files.old) (F.faults files.new))) }
    ensures opened { F.opened files.new ≡ F.opened files.old }
    ensures others { OnlySlot F.tells F.left F.holds tape.old.slot files.old files.new }
{
    match tape.next(files, config, buffer) {
        Ok(found) => Ok(found),
        Err(fault) => Err(refusal_of(fault)),
    }
}

/// The refusal for a tape's fault.
fn refusal_of(fault: TapeFault) -> Refusal
    ensures result { result ≡ refused_by fault }
    ensures possible { IsOfTape (status_of result) }
{
    match fault {
        TapeFault::Read => Refusal::Outside,
        TapeFault::Limit => Refusal::Limit,
        TapeFault::Bad { reason, place } => Refusal::Tape { reason, place },
    }
}
