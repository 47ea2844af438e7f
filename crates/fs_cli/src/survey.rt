//! The commands that play a tape and survey what it leaves.

ghost use Rattle.std.specs.Prelude.{◌≡◌, ◌≢◌, ◌≤◌, ◌⊎◌, IfOk, IsTrue};
ghost use Rattle.fs_base.specs.{Happened.{happened}, Outside.{Rose}};
ghost use Rattle.cmd_stages.specs.{Load.{OpensFront, config_then}, Refusal.{IsOfTape, answered, status_of}};
ghost use Rattle.fs_cli.specs.Survey.{IsOfSurvey, Lists, SaysOf, text_for};
ghost use Rattle.fs_reports.specs.Listing.{Tells};

use cmd_stages::{Refusal, load_config, play_whole, write_made};
use fs_base::{Files, Memory, Sink};
use fs_desk::Desk;
use fs_reports::{desk_text, desk_words, tape_fault_text};
use fs_shadow::shadow_text;
use std::alloc::Global;

/// What is told of the routes that a tape leaves.
#[derive(Clone, Copy, Drop)]
pub(crate) enum Survey {
    /// A line for each configured peer, by number, then for IPv4 and for IPv6 the admitted rules in order and the held
    /// routes that aren't valid.
    Rules,
    /// The admitted rules in words, for IPv4 and then for IPv6, in order.
    Words,
    /// For IPv4 and for IPv6 a line for each admitted rule of which an earlier one takes all packets.
    Shadow,
}

/// Plays the tape, and writes the survey of what it leaves; at a fault of the tape only that is written.
///
/// # Errors
///
/// The first of these, in this order of work: the configuration's, the tape's, the sink's.
pub(crate) fn survey_tape<F: Files, S: Sink>(
    alloc: Global,
    files: &mut F,
    sink: &mut S,
    survey: Survey,
    config: &str,
    tape: &str,
    limit: u64,
) -> Result<(), Refusal>
    ensures files_later { F.faults files.old ≤ F.faults files.new }
    ensures sink_later { S.faults sink.old ≤ S.faults sink.new }
    ensures possible { IsOfSurvey (answered result) }
    ensures quiet { (answered result ≡ 3) ⊎ (answered result ≡ 6) ⊎ (answered result ≡ 7) → sink.new ≡ sink.old }
    ensures opens { OpensFront (config_then 1 config.now tape.now)
        (F.opened files.old) (F.opened files.new) (answered result) }

    ensures lists { IsTrue F.tells
        → Lists (text_for survey) limit (F.holds files.old) config.now tape.now
        (happened F.Files S.Sink files.old files.new sink.old sink.new)
        (answered result) }
{
    let config = load_config(alloc, files, config, limit)?;
    match play_whole(alloc, files, &config, tape, limit) {
        Ok(desk) => write_made(survey_text(alloc, survey, &desk), sink),
        Err(refusal) => tell_refusal(alloc, refusal, sink),
    }
}

/// The survey of the desk behind a tape.
fn survey_text(alloc: Global, survey: Survey, desk: &Desk<'_>) -> Result<Vec<u8>, Memory>
    ensures { IfOk result (λ text. Tells (text_for survey) desk.now text.items) }
{
    match survey {
        Survey::Rules => desk_text(alloc, desk),
        Survey::Words => desk_words(alloc, desk),
        Survey::Shadow => shadow_text(alloc, desk),
    }
}

/// Writes what is said at a refusal of the tape, and hands the refusal on.
pub(crate) fn tell_refusal<S: Sink>(
    alloc: Global,
    refusal: Refusal,
    sink: &mut S,
) -> Result<(), Refusal>
    requires { IsOfTape (status_of refusal) }
    ensures later { S.faults sink.old ≤ S.faults sink.new }
    ensures possible { IsOfTape (answered result) }
    ensures quiet { (answered result ≡ 3) ⊎ (answered result ≡ 6) ⊎ (answered result ≡ 7) → sink.new ≡ sink.old }
    ensures kept { status_of refusal ≢ 4 → (answered result ≡ status_of refusal) × (sink.new ≡ sink.old) }
    ensures said { SaysOf refusal (Rose (S.faults sink.old) (S.faults sink.new))
        (S.written sink.old) (S.written sink.new) result }
{
    if let Refusal::Tape { reason, place } = refusal {
        write_made(tape_fault_text(alloc, reason, place), sink)?;
    }
    Err(refusal)
}
