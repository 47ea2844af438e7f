//! A tape that is played item by item.

use crate::play::{next_item, open_tape, play_item};
use crate::refusal::Refusal;
use fs_base::{Config, Files};
use fs_desk::{Desk, same_routes};
use fs_rules::{Changes, Table};
use fs_tape::{LONGEST_PAYLOAD, Tape};
use std::alloc::Global;
use std::marker::Model;

/// Plays a tape item by item. Nothing after an item is read before the next one is asked for.
#[derive(Drop)]
pub struct ItemPlayer<'a> {
    tape: Tape,
    desk: Desk<'a>,
    buffer: Vec<u8>,
    replies: Vec<u8>,
}

impl<'a> Model for ItemPlayer<'a> {
    ghost use Rattle.std.specs.Prelude.{◌≤◌, length};
    ghost use Rattle.cmd_stages.specs.Items.{ItemState};
    ghost use Rattle.fs_tape.specs.Header.{longest_payload};

    ghost Value = { ItemState };

    ghost view = { λ p. record { tape = p.tape; desk = p.desk } };

    ghost invariant = { λ p. longest_payload ≤ length p.buffer.items };
}

impl<'a> ItemPlayer<'a> {
    ghost use Rattle.std.specs.Prelude.{◌≡◌, ◌≤◌, ◌<◌, [], None, IfOk, IfSome, IsTrue, MatchResult};
    ghost use Rattle.fs_base.specs.{Files.{OnlySlot, one_opening}, Outside.{Rose}, Sink.{Grew}, declared.prefix.Family.{Family}};
    ghost use Rattle.fs_desk.specs.Desk.{Played};
    ghost use Rattle.fs_rules.specs.{Changes.{Covers}, Table.{admitted}};
    ghost use Rattle.cmd_stages.specs.{Items.{Ceases, PlaysNext, read_stage, to_give}, Refusal.{Found, IsOfTape, answered}};

    /// Opens the tape. No item is read yet, and no rule is admitted.
    ///
    /// # Errors
    ///
    /// `Outside` where the file isn't there or the files failed, `Tape` where the tape has a fault before its items,
    /// `Limit` where the limit is reached there, `Memory` where the machine refused memory.
    pub fn begin<F: Files>(
        alloc: Global,
        files: &mut F,
        config: &'a Config,
        name: &str,
        limit: u64,
    ) -> Result<ItemPlayer<'a>, Refusal>
        ensures later { F.faults files.old ≤ F.faults files.new }
        ensures slot { IfOk result (λ player. player.tape.slot ≡ 1) }
        ensures open { IfOk result (λ player. player.tape.end ≡ None) }
        ensures played { IfOk result (λ player. Played config.entry.now [] player.desk) }
        ensures none { IfOk result (λ player. (family : Family) → admitted family player.desk.held ≡ []) }
        ensures possible { IsOfTape (answered result) }

        ensures begun { IsTrue F.tells
            → MatchResult result
            (λ player. read_stage config.entry.now limit (F.holds files.old) name.now
            ≡ Found (to_give player (F.left files.new 1)))
            (Ceases (read_stage config.entry.now limit (F.holds files.old) name.now)
            (Rose (F.faults files.old) (F.faults files.new))) }
        ensures opens { Grew (F.opened files.old) (F.opened files.new) (one_opening 1 name.now) }
        ensures others { OnlySlot F.tells F.left F.holds 1 files.old files.new }
    {
        same_routes(); // no item leaves no route
        let tape = open_tape(files, name, limit)?;
        let buffer = vec![in alloc; 0u8; LONGEST_PAYLOAD]?;
        let desk = Desk::new(alloc, config)?;
        Ok(ItemPlayer {
            tape,
            desk,
            buffer,
            replies: Vec::new(alloc),
        })
    }

    /// Reads the tape's next item, plays it, and tells its moment, in nanoseconds since the start of 1970; of an item of
    /// a tape of the first version it is 0. Then [`changes`](ItemPlayer::changes) tells where the rules that are admitted
    /// may be others than before it. `None`: the tape is done.
    ///
    /// # Errors
    ///
    /// `Outside` where the files failed, `Tape` and `Limit` where the tape ends so, `Memory` where the machine refused
    /// memory, after which the player can't be used any further.
    pub fn play_next<F: Files>(&mut self, files: &mut F) -> Result<Option<u64>, Refusal>
        requires { self.old.tape.end ≡ None }
        ensures later { F.faults files.old ≤ F.faults files.new }
        ensures slot { self.new.tape.slot ≡ self.old.tape.slot }
        ensures config { self.new.desk.config ≡ self.old.desk.config }
        ensures possible { IsOfTape (answered result) }
        ensures open { IfOk result (λ played. IfSome played (λ _. self.new.tape.end ≡ None)) }
        ensures grows { IfOk result (λ played. IfSome played (λ _.
            (self.old.tape.place < self.new.tape.place)
            × (self.new.tape.place ≤ self.new.tape.limit)
            × (self.new.tape.limit ≡ self.old.tape.limit))) }

        ensures played { IsTrue F.tells
            → MatchResult result
            (λ played. PlaysNext played
            (to_give self.old (F.left files.old self.old.tape.slot))
            (to_give self.new (F.left files.new self.old.tape.slot))
            self.old self.new)
            (Ceases (Found (to_give self.old (F.left files.old self.old.tape.slot)))
            (Rose (F.faults files.old) (F.faults files.new))) }
        ensures told { IfOk result (λ played. IfSome played (λ _.
            Covers self.old.desk.held self.new.desk.changes self.new.desk.held)) }
        ensures opened { F.opened files.new ≡ F.opened files.old }
        ensures others { OnlySlot F.tells F.left F.holds self.old.tape.slot files.old files.new }
    {
        let config = self.desk.config();
        let found = next_item(files, &mut self.tape, config, &mut self.buffer)?;
        match found {
            Some(item) => {
                self.replies.clear();
                self.desk.watch();
                play_item(&mut self.desk, item, &self.buffer, &mut self.replies)?;
                Ok(Some(self.tape.moment()))
            }
            None => Ok(None),
        }
    }

    /// Where the rules that are admitted may be others than before the last item.
    pub fn changes(&self) -> &Changes
        ensures { result.now ≡ self.now.desk.changes }
    {
        self.desk.changes()
    }

    /// The table of the routes that are held after the last item.
    pub fn table(&self) -> &Table<'a>
        ensures { result.now ≡ self.now.desk.held }
    {
        self.desk.table()
    }
}
