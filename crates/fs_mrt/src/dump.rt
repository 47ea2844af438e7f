//! A dump, read record by record.
ghost use Rattle.std.specs.Prelude.{◌≡◌, ◌≤◌, None, IsOk, IfOk, length};
ghost use Rattle.fs_base.specs.Parts.{with_part};
ghost use Rattle.fs_input.specs.NextRecord.{GivesNext};
ghost use Rattle.fs_mrt.specs.Dump.{Grows, IsBegun, Times, spoken_from};

use crate::fault::{DumpFault, DumpReason};
use crate::heard::Heard;
use crate::records::{Records, is_heard_within};
use fs_base::{Config, Counted, Files};
use fs_input::{Ended, next_part};
use std::marker::Model;

/// A dump that is read from a slot.
#[derive(Drop)]
pub struct Dump {
    counted: Counted,
    end: Option<Ended<DumpReason>>,
    records: Records,
}

impl Model for Dump {
    ghost use Rattle.fs_mrt.specs.Dump.{DumpState};

    ghost Value = { DumpState };

    ghost view = { λ dump.
        record {
          slot = dump.counted.slot;
          limit = dump.counted.limit;
          place = dump.counted.taken;
          back = dump.counted.back;
          end = dump.end;
          moment = dump.records;
        } };
}

impl Dump {
    ghost use Rattle.fs_mrt.specs.Dump.{coming};

    /// A dump of which nothing was read yet: it has no header, so this reads nothing and never fails. Octets of its front
    /// may have been put back; `next` reads these first.
    ///
    /// # Errors
    ///
    /// None.
    pub fn begin<F: Files>(counted: Counted, files: &mut F) -> Result<Dump, DumpFault>
        requires start { counted.taken ≡ 0 }
        ensures begun { IfOk result (IsBegun counted.slot counted.limit counted.back) }
        ensures never { IsOk result }
        ensures within { IfOk result (λ dump. dump.place ≤ dump.limit) }
        ensures unread { files.new ≡ files.old }
    {
        let _files = files;
        Ok(Dump {
            counted,
            end: None,
            records: Records::start(),
        })
    }

    /// Whether `next` answers without a wait: no read of the slot waits, or a record of a configured peer stands whole in
    /// what the slot gives at once. No clause says when: it decides only when records leave.
    #[inline(always)]
    pub fn is_at_hand<F: Files>(&self, config: &Config, files: &F) -> bool {
        !files.waits(self.counted.slot) || self.is_heard_within(config, files)
    }

    /// Whether a record of a configured peer stands whole in what the slot gives at once.
    #[inline(never)]
    fn is_heard_within<F: Files>(&self, config: &Config, files: &F) -> bool {
        self.counted.back.is_empty()
            && is_heard_within(config.peers.as_slice(), files.at_hand(self.counted.slot))
    }

    /// Reads up to the next record that tells something of a configured peer. A message stands at the front of `into`.
    /// `None`: the dump ended where a record would begin. After that, and after any fault, each call answers the same
    /// again and reads nothing.
    ///
    /// # Errors
    ///
    /// The first field that stands whole and is wrong, as soon as it is read; `Cut` where the dump ends within a
    /// record; `Limit` where the limit is reached and no field before it is wrong; `Read` where the files failed.
    pub fn next<F: Files>(
        &mut self,
        files: &mut F,
        config: &Config,
        into: &mut [u8],
    ) -> Result<Option<Heard>, DumpFault>
        requires { 65536 ≤ length into.old }
        ensures room { length into.new ≡ length into.old }
        ensures gives { GivesNext F.Files files.old files.new self.old.slot self.new.slot self.old.limit self.new.limit
            self.old.end self.new.end (self.new ≡ self.old)
            (coming config.now self.old (F.left files.old self.old.slot))
            (λ heard. with_part
            (spoken_from heard into.new)
            (coming config.now self.new (F.left files.new self.old.slot)))
            result }
        ensures grows { self.old.end ≡ None → Grows self.old.place self.new.place self.new.limit result }
        ensures times { self.old.end ≡ None → Times self.old.moment self.new.moment result }
    {
        next_part(
            config,
            &mut self.records,
            &mut self.counted,
            &mut self.end,
            files,
            into,
        )
    }
}
