//! A tape, read record by record.
ghost use Rattle.std.specs.{Prelude.{◌≡◌, ◌≤◌, ◌++◌, [], None, IsSome, IsTrue, IfOk, IfSome, drop, length, take}, Result.{IsErrOf}};
ghost use Rattle.fs_base.specs.{Config.{peer_of}, Files.{OnlySlot}, Outside.{Rose}, Parts.{with_part}, declared.config.Config.{Config}};
ghost use Rattle.fs_input.specs.{Opening.{Opens}, NextRecord.{GivesNext}, Reading.{Grows}};
ghost use Rattle.fs_tape.specs.{Header.{longest_payload}, Magic.{version_number}, Tape.{IsBegun, IsItem, Tells, Times, item_from, timed, version_of}};

use crate::fault::{TapeFault, TapeReason};
use crate::header::{Context, Said};
use crate::item::{Kind, TapeItem};
use crate::magic::{MAGIC_SIZE, Version, read_magic};
use fs_base::{Config, Counted, Files, fill};
use fs_input::{Ended, next_record, opened};
use std::marker::Model;

/// A tape that is read from a slot.
#[derive(Drop)]
pub struct Tape {
    counted: Counted,
    end: Option<Ended<TapeReason>>,
    version: Version,
    moment: u64,
}

impl Model for Tape {
    ghost use Rattle.std.specs.Prelude.{◌≡◌, []};
    ghost use Rattle.fs_tape.specs.Tape.{TapeState};

    ghost Value = { TapeState };

    ghost view = { λ tape.
        record {
          slot = tape.counted.slot;
          limit = tape.counted.limit;
          place = tape.counted.taken;
          end = tape.end;
          version = tape.version;
          moment = tape.moment;
        } };

    ghost invariant = { λ tape. tape.counted.back ≡ [] };
}

impl Tape {
    ghost use Rattle.fs_input.specs.declared.fault.Fault.TheVariants.{Read};
    ghost use Rattle.fs_tape.specs.Tape.{TapeState, coming};

    /// Reads the magic, up to the limit. Octets of its front may have been put back.
    ///
    /// # Errors
    ///
    /// `Bad` with `Magic`, or with `Cut` where there are fewer than eight octets; `Limit` where these are all that the
    /// limit allows; `Read` where the files failed.
    pub fn begin<F: Files>(mut counted: Counted, files: &mut F) -> Result<Tape, TapeFault>
        requires start { counted.taken ≡ 0 }
        ensures later { F.faults files.old ≤ F.faults files.new }
        ensures read { IsErrOf result Read → Rose (F.faults files.old) (F.faults files.new) }
        ensures state { IfOk result (IsBegun counted.slot counted.limit) }
        ensures within { IfOk result (λ tape. tape.place ≤ tape.limit) }

        ensures opens { IsTrue F.tells
            → Opens
            (λ (tape : TapeState). tape.version)
            (version_of counted.limit (counted.back ++ F.left files.old counted.slot))
            (drop 8 (counted.back ++ F.left files.old counted.slot))
            (F.left files.new counted.slot)
            result }
        ensures opened { F.opened files.new ≡ F.opened files.old }
        ensures others { OnlySlot F.tells F.left F.holds counted.slot files.old files.new }
    {
        let mut front = [0u8; MAGIC_SIZE];
        let Ok(count) = fill(&mut counted, files, &mut front) else {
            return Err(TapeFault::Read);
        };
        match opened(read_magic(&front[..count]), TapeReason::Cut, &counted) {
            Ok(version) => Ok(Tape {
                counted,
                end: None,
                version,
                moment: 0,
            }),
            Err(fault) => Err(fault),
        }
    }

    /// The number of the version, which the magic tells: 1 or 2.
    pub fn version(&self) -> u8
        ensures { result ≡ version_number self.now.version }
    {
        match self.version {
            Version::One => 1,
            Version::Two => 2,
        }
    }

    /// The version, by whether its records have moments.
    pub fn format(&self) -> Version
        ensures { result ≡ self.now.version }
    {
        self.version
    }

    /// The moment of the last item, in nanoseconds since the start of 1970; 0 before the first, and of each record of
    /// the first version.
    pub fn moment(&self) -> u64
        ensures { result ≡ self.now.moment }
    {
        self.moment
    }

    /// Reads the next record. The payload of octets received stands at the front of `into`. `None`: the tape ended
    /// behind its last record. After that, and after any fault, each call answers the same again and reads nothing.
    ///
    /// # Errors
    ///
    /// The first field that stands whole and is wrong, as soon as it is read; `Cut` where the tape ends within a
    /// record; `Limit` where the limit is reached and no field before it is wrong; `Read` where the files failed.
    pub fn next<F: Files>(
        &mut self,
        files: &mut F,
        config: &Config,
        into: &mut [u8],
    ) -> Result<Option<TapeItem>, TapeFault>
        requires { longest_payload ≤ length into.old }
        ensures gives { GivesNext F.Files files.old files.new self.old.slot self.new.slot self.old.limit self.new.limit
            self.old.end self.new.end (self.new ≡ self.old)
            (coming config.now self.old (F.left files.old self.old.slot))
            (λ item. with_part
            (timed self.new.moment (item_from item into.new))
            (coming config.now self.new (F.left files.new self.old.slot)))
            result }
        ensures version { self.new.version ≡ self.old.version }
        ensures grows { self.old.end ≡ None → Grows self.old.place self.new.place self.new.limit result }
        ensures times { self.old.end ≡ None → Times self.old.version self.old.moment self.new.moment result }
        ensures known { self.old.end ≡ None → IfOk result (λ found. IfSome found (IsItem config.now)) }
    {
        let context = Context {
            config,
            version: self.version,
            moment: self.moment,
        };
        match next_record(&context, &mut self.counted, &mut self.end, files, into) {
            Ok(Some(found)) => {
                self.moment = found.said.moment;
                Ok(Some(item(found.said, found.size)))
            }
            Ok(None) => Ok(None),
            Err(fault) => Err(fault),
        }
    }
}

fn item(said: Said, size: usize) -> TapeItem
    ensures told { Tells said size result }
    ensures known { (config : Config) → IsSome (peer_of said.peer config.peers) → size ≤ longest_payload
        → IsItem config result }
{
    match said.kind {
        Kind::Up => TapeItem::Up(said.peer),
        Kind::Received => TapeItem::Octets(said.peer, size),
        Kind::Lost => TapeItem::Lost(said.peer),
    }
}
