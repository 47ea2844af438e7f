//! Reading up to a limit.

ghost use Rattle.std.specs.{Prelude.{◌≡◌, ◌≢◌, ◌↔◌, ◌≤◌, ◌<◌, ◌+◌, ◌++◌, [], ℕ, IsTrue, IfOk, drop, length}, Result.{IsErrOf}, Io.{ReadsAtMost}};
ghost use Rattle.fs_base.specs.{Files.{OnlySlot, ReadTakes}, Outside.{HasCause, Rose}, Counted.{given_by, taken_after}};

use super::{Back, Failed, Files};

/// Why a counted read gave no octets.
#[derive(Clone, Copy, Debug, PartialEq, Eq, Drop)]
pub enum Stop {
    /// The files failed.
    Failed,
    /// The limit was reached before.
    Limit,
}

/// A slot that is read up to a limit of octets.
#[derive(Clone, Copy, Debug, Drop)]
pub struct Counted {
    /// The slot of the files, 0 to 2.
    pub slot: u8,
    /// At most so many octets are taken.
    pub limit: u64,
    /// So many octets were taken.
    pub taken: u64,
    /// Octets that were put back: they are read again before the slot.
    pub back: Back,
    pub ghost slots: { slot ≤ 2 },
    pub ghost within: { taken ≤ limit },
    pub ghost again: { taken + length back ≤ limit },
    pub ghost few: { length back ≤ 4 },
}

impl Counted {
    ghost use Rattle.fs_base.specs.Draws.{Draws};

    /// A slot of which nothing was taken yet.
    pub fn new(slot: u8, limit: u64) -> Counted
        requires { slot ≤ 2 }
        ensures slot { result.slot ≡ slot }
        ensures limit { result.limit ≡ limit }
        ensures taken { result.taken ≡ 0 }
        ensures back { result.back ≡ [] }
    {
        Counted {
            slot,
            limit,
            taken: 0,
            back: Back::none(),
        }
    }

    /// Puts octets back that were just read, at most four. They count as not taken, and the next reads give them first,
    /// before any that are put back already: what was just read came before these, so at most four are put back together.
    pub fn put_back(&mut self, octets: &[u8])
        requires few { length octets.now + length self.old.back ≤ 4 }
        requires read { length octets.now ≤ self.old.taken }
        ensures slot { self.new.slot ≡ self.old.slot }
        ensures limit { self.new.limit ≡ self.old.limit }
        ensures taken { self.new.taken + length octets.now ≡ self.old.taken }
        ensures back { self.new.back ≡ octets.now ++ self.old.back }
    {
        self.back.put(octets);
        self.taken -= octets.len() as u64;
    }

    /// Reads octets into the front of `into`, never past the limit, and answers how many: 0 only at the end of the
    /// input or where `into` has no room. What was put back is given first.
    ///
    /// # Errors
    ///
    /// `Limit` exactly where `limit` octets were taken before; `Failed` where the files failed. Nothing was taken
    /// then.
    #[inline(always)]
    pub fn read<F: Files>(&mut self, files: &mut F, into: &mut [u8]) -> Result<usize, Stop>
        ensures limit { IsErrOf result Stop.Limit ↔ (self.old.taken ≡ self.old.limit) }
        ensures failed { IsErrOf result Stop.Failed → Rose (F.faults files.old) (F.faults files.new) }
        ensures later { F.faults files.old ≤ F.faults files.new }
        ensures bound { ReadsAtMost result into.new }
        ensures taken { self.new.taken ≡ taken_after self.old.taken result }
        ensures kept_slot { self.new.slot ≡ self.old.slot }
        ensures kept_limit { self.new.limit ≡ self.old.limit }

        ensures left { IsTrue F.tells
            → ReadTakes
            (self.old.back ++ F.left files.old self.old.slot)
            (self.new.back ++ F.left files.new self.old.slot)
            result
            into.new }
        ensures back { self.new.back ≡ drop (given_by result) self.old.back }
        ensures none { self.old.back ≡ [] → self.new.back ≡ [] }
        ensures took { IsTrue F.tells
            → Draws self.old self.new (F.left files.old self.old.slot) (F.left files.new self.old.slot) }
        ensures opened { F.opened files.new ≡ F.opened files.old }
        ensures others { OnlySlot F.tells F.left F.holds self.old.slot files.old files.new }
    {
        let room = self.limit - self.taken;
        if room == 0 {
            return Err(Stop::Limit);
        }
        if !self.back.is_empty() {
            let count = self.back.take(into);
            self.taken += count as u64;
            return Ok(count);
        }
        match read_most(files, self.slot, into, room) {
            Ok(count) => {
                self.taken += count as u64;
                Ok(count)
            }
            Err(Failed) => Err(Stop::Failed),
        }
    }
}

/// Reads octets of a slot into the front of `into`, at most so many. The test spares a call the lesser of both counts,
/// so that a length that is known stays so.
#[inline(always)]
fn read_most<F: Files>(files: &mut F, slot: u8, into: &mut [u8], most: u64) -> Result<usize, Failed>
    requires slot { slot ≤ 2 }
    requires some { 0 < most }
    ensures most { IfOk result (λ n. n ≤ most) }
    ensures bound { ReadsAtMost result into.new }
    ensures cause { HasCause (F.faults files.old) (F.faults files.new) result }
    ensures left { IsTrue F.tells → ReadTakes (F.left files.old slot) (F.left files.new slot) result into.new }
    ensures opened { F.opened files.new ≡ F.opened files.old }
    ensures others { OnlySlot F.tells F.left F.holds slot files.old files.new }
{
    if into.len() as u64 <= most {
        return files.read(slot, into);
    }
    files.read(slot, &mut into[..most as usize])
}
