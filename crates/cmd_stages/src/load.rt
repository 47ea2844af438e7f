//! Opening files, and reading the configuration and the rules file.

ghost use Rattle.std.specs.Prelude.{◌≡◌, ◌≢◌, ◌≤◌, IfOk, IsTrue, Some, MatchResult};
ghost use Rattle.fs_base.specs.{Files.{OnlySlot, one_opening}, Outside.{Rose}, Sink.{Grew}};
ghost use Rattle.fs_speaker.specs.{Announcer.{CanSend}, Sending.{sender_of}};
ghost use Rattle.cmd_stages.specs.Refusal.{IsLate, IsOfFile, HasReason, Reaches, answered, or_stop};
ghost use Rattle.cmd_stages.specs.{declared.refusal.Refusal.TheVariants.{Outside}, Load.{config_stage, fetch, rules_stage}};

use crate::refusal::Refusal;
use fs_base::{Config, Failed, Files, ReadStop, Whole};
use fs_conf::ConfFault;
use fs_speaker::Sending;
use std::alloc::Global;

/// The slot that the configuration is read from.
pub const CONFIG_SLOT: u8 = 0;

/// The slot that the tape is read from.
pub const TAPE_SLOT: u8 = 1;

/// The slot that the rules file is read from.
pub const RULES_SLOT: u8 = 1;

/// The slot that the capture is read from.
pub const CAPTURE_SLOT: u8 = 2;

/// Opens the file `name` in `slot`.
///
/// # Errors
///
/// `Outside` where no file has the name, or the files failed.
pub fn open<F: Files>(files: &mut F, slot: u8, name: &str) -> Result<(), Refusal>
    requires { slot ≤ 2 }
    ensures late { IsLate (answered result) }
    ensures known { answered result ≢ 6 }
    ensures later { F.faults files.old ≤ F.faults files.new }
    ensures holds { IsTrue F.tells → F.holds files.new ≡ F.holds files.old }

    ensures opened { IsTrue F.tells
        → MatchResult result
        (λ _. F.holds files.old name.now ≡ Some (F.left files.new slot))
        (HasReason (or_stop Outside (F.holds files.old name.now)) (Rose (F.faults files.old) (F.faults files.new))) }
    ensures opens { Grew (F.opened files.old) (F.opened files.new) (one_opening slot name.now) }
    ensures others { OnlySlot F.tells F.left F.holds slot files.old files.new }
{
    match files.open_file(slot, name) {
        Ok(true) => Ok(()),
        Ok(false) | Err(Failed) => Err(Refusal::Outside),
    }
}

/// Reads the whole file `name` through `slot`.
///
/// # Errors
///
/// `Outside` where the file isn't there or the files failed, `Limit` where it has at least `limit` octets, `Memory`
/// where the machine refused memory.
pub fn load_file<F: Files>(
    alloc: Global,
    files: &mut F,
    slot: u8,
    name: &str,
    limit: u64,
) -> Result<Vec<u8>, Refusal>
    requires { slot ≤ 2 }
    ensures later { F.faults files.old ≤ F.faults files.new }
    ensures holds { IsTrue F.tells → F.holds files.new ≡ F.holds files.old }
    ensures possible { IsOfFile (answered result) }
    ensures unjudged { answered result ≢ 3 }

    ensures reaches { IsTrue F.tells
        → Reaches (λ octets. octets.items)
        (fetch limit (F.holds files.old) name.now)
        (Rose (F.faults files.old) (F.faults files.new))
        result }
    ensures opens { Grew (F.opened files.old) (F.opened files.new) (one_opening slot name.now) }
    ensures others { OnlySlot F.tells F.left F.holds slot files.old files.new }
{
    open(files, slot, name)?;
    match fs_base::read_whole(alloc, files, slot, limit) {
        Ok(Whole::Content(octets)) => Ok(octets),
        Ok(Whole::AtLimit) => Err(Refusal::Limit),
        Err(ReadStop::Failed) => Err(Refusal::Outside),
        Err(ReadStop::Memory) => Err(Refusal::Memory),
    }
}

/// Reads the configuration.
///
/// # Errors
///
/// `Outside` where the file isn't there or the files failed, `Limit` where it has at least `limit` octets,
/// `Rejected` where it isn't accepted, `Memory` where the machine refused memory.
pub fn load_config<F: Files>(
    alloc: Global,
    files: &mut F,
    name: &str,
    limit: u64,
) -> Result<Config, Refusal>
    ensures later { F.faults files.old ≤ F.faults files.new }
    ensures holds { IsTrue F.tells → F.holds files.new ≡ F.holds files.old }
    ensures possible { IsOfFile (answered result) }

    ensures reaches { IsTrue F.tells
        → Reaches (λ config. config)
        (config_stage limit (F.holds files.old) name.now)
        (Rose (F.faults files.old) (F.faults files.new))
        result }
    ensures opens { Grew (F.opened files.old) (F.opened files.new) (one_opening 0 name.now) }
    ensures others { OnlySlot F.tells F.left F.holds 0 files.old files.new }
{
    let octets = load_file(alloc, files, CONFIG_SLOT, name, limit)?;
    match fs_conf::read_config(alloc, &octets) {
        Ok(config) => Ok(config),
        Err(ConfFault::Refused) => Err(Refusal::Rejected),
        Err(ConfFault::Memory) => Err(Refusal::Memory),
    }
}

/// Reads the rules file, which is judged beside the configuration.
///
/// # Errors
///
/// As of [`load_config`].
pub fn load_rules<F: Files>(
    alloc: Global,
    files: &mut F,
    config: &Config,
    name: &str,
    limit: u64,
) -> Result<Sending, Refusal>
    ensures later { F.faults files.old ≤ F.faults files.new }
    ensures holds { IsTrue F.tells → F.holds files.new ≡ F.holds files.old }
    ensures possible { IsOfFile (answered result) }
    ensures sendable { IfOk result (CanSend config.now (sender_of config.now.peers)) }

    ensures reaches { IsTrue F.tells
        → Reaches (λ sending. sending)
        (rules_stage config.now limit (F.holds files.old) name.now)
        (Rose (F.faults files.old) (F.faults files.new))
        result }
    ensures opens { Grew (F.opened files.old) (F.opened files.new) (one_opening 1 name.now) }
    ensures others { OnlySlot F.tells F.left F.holds 1 files.old files.new }
{
    let octets = load_file(alloc, files, RULES_SLOT, name, limit)?;
    match fs_conf::read_rules(alloc, &octets, config) {
        Ok(sending) => Ok(sending),
        Err(ConfFault::Refused) => Err(Refusal::Rejected),
        Err(ConfFault::Memory) => Err(Refusal::Memory),
    }
}
