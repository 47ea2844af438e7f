//! The tape, as it is followed along a capture.

ghost use Rattle.std.specs.Prelude.{◌≡◌, ◌≤◌, List, IsTrue, IfOk, MatchResult};
ghost use Rattle.fs_base.specs.{Files.{OnlySlot}, Outside.{Rose}};
ghost use Rattle.fs_compile.specs.Matcher.{AreMadeWhereNoted, admitted_in};
ghost use Rattle.fs_desk.specs.Leaves.{Leaves};
ghost use Rattle.cmd_stages.specs.{Play.{EndsBy, IsOpenOrDone, until}, Player.{IsUnplayed, Stands}, Refusal.{IsOfTape, answered}};
ghost use Rattle.fs_tape.specs.Tape.{Timed};
ghost use Rattle.cmd_enforce.specs.Matcher.{IsCompiled};

use cmd_stages::{Player, Refusal};
use fs_base::{Files, Memory};
use fs_compile::Compiled;
use std::alloc::Global;

/// The tape, and the rules that are admitted where it stands, compiled.
#[derive(Drop)]
pub(crate) struct Following<'a> {
    pub(crate) alloc: Global,
    pub(crate) player: Player<'a>,
    pub(crate) rules: Compiled,
}

impl<'a> Following<'a> {
    pub(crate) fn new(alloc: Global, player: Player<'a>) -> Result<Following<'a>, Memory>
        ensures same { IfOk result (λ following. following.player ≡ player.entry) }
        ensures compiled { IfOk result (λ following. IsCompiled player.entry.desk.held following.rules) }
    {
        let rules = Compiled::build(alloc, player.table())?;
        Ok(Following {
            alloc,
            player,
            rules,
        })
    }

    /// Plays the tape up to this moment. The rules are mended where they may be others than before.
    ///
    /// # Errors
    ///
    /// `Outside` where the files failed, `Tape` and `Limit` where the tape ends so, `Memory` where the machine refused
    /// memory.
    pub(crate) fn follow<F: Files>(&mut self, files: &mut F, moment: u64) -> Result<(), Refusal>
        requires { IsCompiled self.old.player.desk.held self.old.rules }
        ensures later { F.faults files.old ≤ F.faults files.new }
        ensures opened { F.opened files.new ≡ F.opened files.old }
        ensures slot { self.new.player.tape.slot ≡ self.old.player.tape.slot }
        ensures config { self.new.player.desk.config ≡ self.old.player.desk.config }
        ensures possible { IsOfTape (answered result) }
        ensures ends { IsOpenOrDone self.old.player.tape self.old.player.ahead
            → MatchResult result
            (λ _. IsOpenOrDone self.new.player.tape self.new.player.ahead)
            (EndsBy self.new.player.tape) }
        ensures compiled { IfOk result (λ _. IsCompiled self.new.player.desk.held self.new.rules) }
        ensures kept { IfOk result (λ _. AreMadeWhereNoted self.new.player.desk.changes
            (admitted_in self.new.player.desk.held) self.old.rules self.new.rules) }

        ensures played { IsTrue F.tells
            → (items : List Timed)
            → Stands items moment self.old.player (F.left files.old self.old.player.tape.slot)
            → MatchResult result
            (λ _. Stands items moment self.new.player (F.left files.new self.old.player.tape.slot)
            × Leaves self.old.player.desk.config (until moment items) self.new.player.desk.held)
            (IsUnplayed (Rose (F.faults files.old) (F.faults files.new))) }
        ensures others { OnlySlot F.tells F.left F.holds self.old.player.tape.slot files.old files.new }
    {
        self.player.play_to(files, moment)?;
        self.rules
            .mend(self.alloc, self.player.table(), self.player.changes())?;
        Ok(())
    }
}
