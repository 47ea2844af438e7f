//! A tape that is played up to moments.

use crate::play::{next_item, open_tape, play_item, play_rest, read_rest};
use crate::refusal::Refusal;
use fs_base::{Config, Files};
use fs_desk::Desk;
use fs_rules::{Changes, Table};
use fs_tape::{LONGEST_PAYLOAD, Tape, TapeItem, Version};
use std::alloc::Global;
use std::marker::Model;

/// Plays a tape up to moments, one after the other. It reads one item ahead, which waits until its moment has come.
#[derive(Drop)]
pub struct Player<'a> {
    tape: Tape,
    desk: Desk<'a>,
    ahead: Option<TapeItem>,
    buffer: Vec<u8>,
    replies: Vec<u8>,
}

impl<'a> Model for Player<'a> {
    ghost use Rattle.std.specs.Prelude.{◌≤◌, IfSome, length};
    ghost use Rattle.cmd_stages.specs.Player.{IsReady, PlayerState};
    ghost use Rattle.fs_tape.specs.Header.{longest_payload};

    ghost Value = { PlayerState };

    ghost view = { λ p. record { tape = p.tape; ahead = p.ahead; into = p.buffer.items; desk = p.desk } };

    ghost invariant = { λ p. IfSome p.ahead (λ item.
        (longest_payload ≤ length p.buffer.items) × IsReady p.tape p.desk.config item) };
}

impl<'a> Player<'a> {
    ghost use Rattle.std.specs.{Option.{is_some}, Prelude.{ℕ, ◌≡◌, ◌≤◌, ◌<◌, [], false, List, None, Some, IfOk, IfSome, IsOk, IsTrue, MatchResult, OnOk}};
    ghost use Rattle.fs_base.specs.{Files.{OnlySlot, one_opening}, Outside.{Rose}, Sink.{Grew}};
    ghost use Rattle.fs_desk.specs.{Desk.{Notes}, Leaves.{Leaves}};
    ghost use Rattle.fs_rules.specs.Changes.{Covers};
    ghost use Rattle.cmd_stages.specs.Play.{EndsBy, HasVersion, IsOpenOrDone, tape_stage, until};
    ghost use Rattle.cmd_stages.specs.{Player.{IsEnded, IsReadWhole, IsUnplayed, Stands, due_item}, Refusal.{Found, HasReason, IsOfTape, answered}};
    ghost use Rattle.fs_tape.specs.{Tape.{Timed}, declared.magic.Version.TheVariants.{Two}};

    /// Opens the tape, and reads its first item ahead. Nothing is played yet.
    ///
    /// # Errors
    ///
    /// `Outside` where the file isn't there or the files failed, `Tape` where the tape has a fault before its first
    /// item, `Limit` where it has at least `limit` octets without one, `Memory` where the machine refused memory.
    pub fn begin<F: Files>(
        alloc: Global,
        files: &mut F,
        config: &'a Config,
        name: &str,
        limit: u64,
    ) -> Result<Player<'a>, Refusal>
        ensures later { F.faults files.old ≤ F.faults files.new }
        ensures slot { IfOk result (λ player. player.tape.slot ≡ 1) }
        ensures config { IfOk result (λ player. player.desk.config ≡ config.entry.now) }
        ensures possible { IsOfTape (answered result) }
        ensures ends { IfOk result (λ player. IsOpenOrDone player.tape player.ahead) }

        ensures begun { IsTrue F.tells
            → (items : List Timed)
            → tape_stage config.entry.now limit (F.holds files.old) name.now ≡ Found items
            → HasVersion limit (F.holds files.old) name.now Two
            → MatchResult result
            (λ player. Stands items 0 player (F.left files.new 1))
            (IsUnplayed (Rose (F.faults files.old) (F.faults files.new))) }
        ensures opens { Grew (F.opened files.old) (F.opened files.new) (one_opening 1 name.now) }
        ensures others { OnlySlot F.tells F.left F.holds 1 files.old files.new }
    {
        let mut tape = open_tape(files, name, limit)?;
        let mut buffer = vec![in alloc; 0u8; LONGEST_PAYLOAD]?;
        let ahead = next_item(files, &mut tape, config, &mut buffer)?;
        let desk = Desk::new(alloc, config)?;
        Ok(Player {
            tape,
            desk,
            ahead,
            buffer,
            replies: Vec::new(alloc),
        })
    }

    /// Reads the whole tape. One of the first version is played, and then nothing of it is ahead, at any moment. `None`: it
    /// is of the second version, and nothing of it is played.
    ///
    /// # Errors
    ///
    /// `Outside` where the file isn't there or the files failed, `Tape` where it has a fault, `Limit` where it has at least
    /// `limit` octets without one, `Memory` where the machine refused memory.
    pub fn read_whole<F: Files>(
        alloc: Global,
        files: &mut F,
        config: &'a Config,
        name: &str,
        limit: u64,
    ) -> Result<Option<Player<'a>>, Refusal>
        ensures later { F.faults files.old ≤ F.faults files.new }
        ensures ended { IfOk result (λ whole. IfSome whole (IsEnded 1 config.entry.now)) }
        ensures possible { IsOfTape (answered result) }

        ensures read { IsTrue F.tells
            → MatchResult result
            (IsReadWhole config.entry.now limit (F.holds files.old) name.now)
            (HasReason (tape_stage config.entry.now limit (F.holds files.old) name.now)
            (Rose (F.faults files.old) (F.faults files.new))) }
        ensures opens { Grew (F.opened files.old) (F.opened files.new) (one_opening 1 name.now) }
        ensures others { OnlySlot F.tells F.left F.holds 1 files.old files.new }
    {
        let mut tape = open_tape(files, name, limit)?;
        match tape.format() {
            Version::One => match play_rest(alloc, files, &mut tape, config) {
                Ok(desk) => Ok(Some(Player {
                    tape,
                    desk,
                    ahead: None,
                    buffer: Vec::new(alloc),
                    replies: Vec::new(alloc),
                })),
                Err(refusal) => Err(refusal),
            },
            Version::Two => match read_rest(alloc, files, &mut tape, config) {
                Ok(()) => Ok(None),
                Err(refusal) => Err(refusal),
            },
        }
    }

    /// Plays the items whose moments are at most this one. Behind it [`changes`](Player::changes) tells where the rules
    /// that are admitted may be others than before: nowhere, where no item was due.
    ///
    /// # Errors
    ///
    /// `Outside` where the files failed, `Tape` and `Limit` where the tape ends so, `Memory` where the machine refused
    /// memory.
    pub fn play_to<F: Files>(&mut self, files: &mut F, moment: u64) -> Result<(), Refusal>
        ensures later { F.faults files.old ≤ F.faults files.new }
        ensures slot { self.new.tape.slot ≡ self.old.tape.slot }
        ensures config { self.new.desk.config ≡ self.old.desk.config }
        ensures possible { IsOfTape (answered result) }
        ensures ends { IsOpenOrDone self.old.tape self.old.ahead
            → MatchResult result (λ _. IsOpenOrDone self.new.tape self.new.ahead) (EndsBy self.new.tape) }

        ensures played { IsTrue F.tells
            → (items : List Timed)
            → Stands items moment self.old (F.left files.old self.old.tape.slot)
            → MatchResult result
            (λ _. Stands items moment self.new (F.left files.new self.old.tape.slot)
            × Leaves self.old.desk.config (until moment items) self.new.desk.held)
            (IsUnplayed (Rose (F.faults files.old) (F.faults files.new))) }
        ensures told { OnOk result (Covers self.old.desk.held self.new.desk.changes self.new.desk.held) }
        ensures calm { due_item self.old.ahead self.old.tape.moment moment ≡ None
            → IsOk result × (self.new.desk.changes ≡ record { places = []; all = false }) }
        ensures opened { F.opened files.new ≡ F.opened files.old }
        ensures others { OnlySlot F.tells F.left F.holds self.old.tape.slot files.old files.new }
    {
        self.desk.watch();
        'items: while let Some(item) = self.due(moment) {
            self.step(files, item)?;
        }
        Ok(())
    }

    /// Whether an item is to be played at this moment. Where none is, the desk holds what the tape leaves then.
    pub fn is_due(&self, moment: u64) -> bool
        ensures due { result ≡ is_some (due_item self.now.ahead self.now.tape.moment moment) }

        ensures still { result ≡ false
            → (items : List Timed)
            → (left : List ℕ)
            → Stands items moment self.now left
            → Leaves self.now.desk.config (until moment items) self.now.desk.held }
    {
        self.due(moment).is_some()
    }

    /// The item ahead, where its moment has come.
    fn due(&self, moment: u64) -> Option<TapeItem>
        ensures { result ≡ due_item self.now.ahead self.now.tape.moment moment }
    {
        match self.ahead {
            None => None,
            Some(item) => {
                if self.tape.moment() <= moment {
                    Some(item)
                } else {
                    None
                }
            }
        }
    }

    /// Plays the item ahead, and reads the next one.
    fn step<F: Files>(&mut self, files: &mut F, item: TapeItem) -> Result<(), Refusal>
        requires { self.old.ahead ≡ Some item }
        ensures later { F.faults files.old ≤ F.faults files.new }
        ensures slot { self.new.tape.slot ≡ self.old.tape.slot }
        ensures limit { self.new.tape.limit ≡ self.old.tape.limit }
        ensures config { self.new.desk.config ≡ self.old.desk.config }
        ensures possible { IsOfTape (answered result) }
        ensures ends { MatchResult result (λ _. IsOpenOrDone self.new.tape self.new.ahead) (EndsBy self.new.tape) }
        ensures grows { IfOk result (λ _. IfSome self.new.ahead (λ _.
            (self.old.tape.place < self.new.tape.place) × (self.new.tape.place ≤ self.new.tape.limit))) }

        ensures played { IsTrue F.tells
            → (items : List Timed)
            → (t : ℕ)
            → self.old.tape.moment ≤ t
            → Stands items t self.old (F.left files.old self.old.tape.slot)
            → MatchResult result
            (λ _. Stands items t self.new (F.left files.new self.old.tape.slot))
            (IsUnplayed (Rose (F.faults files.old) (F.faults files.new))) }
        ensures told { OnOk result (Notes self.old.desk self.new.desk) }
        ensures opened { F.opened files.new ≡ F.opened files.old }
        ensures others { OnlySlot F.tells F.left F.holds self.old.tape.slot files.old files.new }
    {
        self.replies.clear();
        self.ahead = None;
        play_item(&mut self.desk, item, &self.buffer, &mut self.replies)?;
        let config = self.desk.config();
        let ahead = next_item(files, &mut self.tape, config, &mut self.buffer)?;
        self.ahead = ahead;
        Ok(())
    }

    /// Where the rules that are admitted may be others than before the last [`play_to`](Player::play_to).
    pub fn changes(&self) -> &Changes
        ensures { result.now ≡ self.now.desk.changes }
    {
        self.desk.changes()
    }

    /// The table of the routes that are held after what was played.
    pub fn table(&self) -> &Table<'a>
        ensures { result.now ≡ self.now.desk.held }
    {
        self.desk.table()
    }
}
