//! The command that tells what changes of the admitted rules along a tape.

ghost use Rattle.std.specs.Prelude.{◌≡◌, ◌≢◌, ◌≤◌, ◌⊎◌, [], None, IsTrue, OnOk};
ghost use Rattle.fs_base.specs.{Happened.{happened}, Outside.{Rose}, Sink.{Grew}, Files.{one_opening}};
ghost use Rattle.fs_changes.specs.Changes.{acting_in, none_act, told};
ghost use Rattle.fs_desk.specs.Desk.{Played};
ghost use Rattle.fs_rules.specs.{Changes.{Covers}, Table.{Held}};
ghost use Rattle.cmd_stages.specs.{Items.{read_stage, to_give}, Load.{OpensFront, config_then}, Refusal.{IsLate, IsOfTape, answered}, Writing.{Writes}};
ghost use Rattle.fs_cli.specs.{Changes.{FollowsItems, FollowsTape, TellsChanges}, Survey.{IsOfSurvey}};

use crate::survey::tell_refusal;
use cmd_stages::{ItemPlayer, Refusal, load_config, write_text};
use fs_base::{Config, Files, Sink};
use fs_changes::Acting;
use std::alloc::Global;

/// Plays the tape item by item, and writes after each item what it changes of the admitted rules, before anything after
/// that item is read. At a fault of the tape its line follows.
///
/// # Errors
///
/// The first of these, in this order of work: the configuration's; and of each item the tape's, want of memory, the
/// sink's.
pub(crate) fn tell_changes<F: Files, S: Sink>(
    alloc: Global,
    files: &mut F,
    sink: &mut S,
    config: &str,
    tape: &str,
    limit: u64,
) -> Result<(), Refusal>
    ensures files_later { F.faults files.old ≤ F.faults files.new }
    ensures sink_later { S.faults sink.old ≤ S.faults sink.new }
    ensures possible { IsOfSurvey (answered result) }
    ensures quiet { answered result ≡ 3 → sink.new ≡ sink.old }
    ensures opens { OpensFront (config_then 1 config.now tape.now)
        (F.opened files.old) (F.opened files.new) (answered result) }

    ensures tells { IsTrue F.tells
        → TellsChanges limit (F.holds files.old) config.now tape.now
        (happened F.Files S.Sink files.old files.new sink.old sink.new)
        (answered result) }
{
    let config = load_config(alloc, files, config, limit)?;
    match tell_items(alloc, files, sink, &config, tape, limit) {
        Ok(()) => Ok(()),
        Err(refusal) => tell_refusal(alloc, refusal, sink),
    }
}

/// Plays the tape item by item, and writes after each what it changes of the admitted rules.
fn tell_items<F: Files, S: Sink>(
    alloc: Global,
    files: &mut F,
    sink: &mut S,
    config: &Config,
    tape: &str,
    limit: u64,
) -> Result<(), Refusal>
    ensures files_later { F.faults files.old ≤ F.faults files.new }
    ensures sink_later { S.faults sink.old ≤ S.faults sink.new }
    ensures possible { IsOfTape (answered result) }
    ensures opens { Grew (F.opened files.old) (F.opened files.new) (one_opening 1 tape.now) }

    ensures follows { IsTrue F.tells
        → FollowsTape config.now
        (read_stage config.now limit (F.holds files.old) tape.now)
        (Rose (F.faults files.old) (F.faults files.new) ⊎ Rose (S.faults sink.old) (S.faults sink.new))
        (S.written sink.old) (S.written sink.new) result }
{
    let mut player = ItemPlayer::begin(alloc, files, config, tape, limit)?;
    let mut acting = Acting::new(alloc);
    follow_items(alloc, files, sink, &mut player, &mut acting)
}

/// Plays the items that the tape is still to give, and writes after each what it changes of the rules that act.
fn follow_items<F: Files, S: Sink>(
    alloc: Global,
    files: &mut F,
    sink: &mut S,
    player: &mut ItemPlayer<'_>,
    acting: &mut Acting,
) -> Result<(), Refusal>
    requires open { player.old.tape.end ≡ None }
    requires played { Played player.old.desk.config [] player.old.desk }
    requires none { (acting.old ≡ none_act) × (acting_in player.old.desk.held ≡ none_act) }
    ensures files_later { F.faults files.old ≤ F.faults files.new }
    ensures sink_later { S.faults sink.old ≤ S.faults sink.new }
    ensures possible { IsOfTape (answered result) }
    ensures opened { F.opened files.new ≡ F.opened files.old }

    ensures follows { IsTrue F.tells
        → FollowsItems player.old.desk.config
        (to_give player.old (F.left files.old player.old.tape.slot))
        (Rose (F.faults files.old) (F.faults files.new) ⊎ Rose (S.faults sink.old) (S.faults sink.new))
        (S.written sink.old) (S.written sink.new) result }
{
    let mut text = String::new(alloc);
    'items: while let Some(moment) = player.play_next(files)? {
        tell_item(player, acting, moment, &mut text, sink)?;
    }
    Ok(())
}

/// Writes what the last item, of this moment, changed of the rules that act.
fn tell_item<S: Sink>(
    player: &ItemPlayer<'_>,
    acting: &mut Acting,
    moment: u64,
    text: &mut String,
    sink: &mut S,
) -> Result<(), Refusal>
    requires { (base : Held)
        × (acting.old ≡ acting_in base)
        × Covers base player.now.desk.changes player.now.desk.held }
    ensures late { IsLate (answered result) }
    ensures later { S.faults sink.old ≤ S.faults sink.new }
    ensures stands { OnOk result (acting.new ≡ acting_in player.now.desk.held) }
    ensures written { Writes (told moment acting.old (acting_in player.now.desk.held))
        (Rose (S.faults sink.old) (S.faults sink.new)) (S.written sink.old) (S.written sink.new) result }
{
    text.clear();
    acting.follow(player.table(), player.changes(), moment, text)?;
    write_text(text.as_bytes(), sink)
}
