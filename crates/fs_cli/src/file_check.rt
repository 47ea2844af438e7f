//! The command that says of a file whether it is accepted, and where its first fault is.

ghost use Rattle.std.specs.Prelude.{◌≡◌, ◌≢◌, ◌≤◌, ◌⊎◌, IfOk, IsTrue, MatchResult};
ghost use Rattle.fs_base.specs.{Happened.{happened}, Outside.{Rose}};
ghost use Rattle.cmd_stages.specs.{Load.{OpensFront}, Refusal.{Answers, IsOfFile, answered, status_of}, Said.{Says, said_shown}};
ghost use Rattle.fs_cli.specs.FileCheck.{ChecksFile, IsDue, JudgesConfig, OfConfig, file_openings, file_shown, file_statuses};
ghost use Rattle.fs_cli.specs.Program.{IsOneOf};

use crate::rules_check::say_of_rules;
use crate::tape_check::say_of_tape;
use cmd_convert::survey_dump;
use cmd_enforce::survey_capture;
use cmd_stages::{CONFIG_SLOT, Refusal, Said, load_file, status};
use fs_base::{Failed, Files, Memory, Sink, write_all};
use fs_conf::{ConfigFault, judge_config, names_the_fault};
use std::alloc::Global;

/// A file that is checked, by its kind.
#[derive(Clone, Copy, Drop)]
pub(crate) enum CheckedFile<'w> {
    /// A configuration.
    Config(&'w str),
    /// A rules file beside a configuration.
    Rules { config: &'w str, rules: &'w str },
    /// A tape of the sessions of a configuration.
    Tape { config: &'w str, tape: &'w str },
    /// A capture.
    Capture(&'w str),
    /// A dump, beside a configuration.
    Dump { config: &'w str, dump: &'w str },
}

/// Says whether the file is accepted, or where its first fault is, and answers the status.
pub(crate) fn check_file<F: Files, S: Sink>(
    alloc: Global,
    files: &mut F,
    sink: &mut S,
    checked: CheckedFile<'_>,
    limit: u64,
) -> u8
    ensures checks { IsTrue F.tells
        → ChecksFile limit (F.holds files.old) (file_shown checked.entry)
        (happened F.Files S.Sink files.old files.new sink.old sink.new) result }
    ensures possible { IsOneOf (file_statuses (file_shown checked.entry)) result }
    ensures known { result ≢ 2 }
    ensures quiet { (result ≡ 3) ⊎ (result ≡ 6) → sink.new ≡ sink.old }
    ensures opens { OpensFront (file_openings (file_shown checked.entry))
        (F.opened files.old) (F.opened files.new) result }
{
    match say_of_file(alloc, files, checked, limit) {
        Ok(said) => write_said(sink, &said),
        Err(refusal) => refusal.status(),
    }
}

/// Writes what is said, and answers the status.
fn write_said<S: Sink>(sink: &mut S, said: &Said) -> u8
    ensures later { S.faults sink.old ≤ S.faults sink.new }
    ensures late { (result ≡ said.now.status) ⊎ (result ≡ 1) }
    ensures answers { Answers (said_shown said.now)
        (Rose (S.faults sink.old) (S.faults sink.new)) (S.written sink.old) (S.written sink.new) result }
{
    match write_all(sink, said.text.as_bytes()) {
        Ok(()) => said.status,
        Err(Failed) => status::OUTSIDE,
    }
}

/// Reads the file, and says what there is to say of it.
fn say_of_file<F: Files>(
    alloc: Global,
    files: &mut F,
    checked: CheckedFile<'_>,
    limit: u64,
) -> Result<Said, Refusal>
    ensures later { F.faults files.old ≤ F.faults files.new }
    ensures possible { MatchResult result
        (λ said. IsOneOf (file_statuses (file_shown checked.entry)) said.status)
        (λ refusal. IsOneOf (file_statuses (file_shown checked.entry)) (status_of refusal)) }
    ensures accepted { IfOk result (λ said. (said.status ≢ 3) × (said.status ≢ 6)) }

    ensures said { IsTrue F.tells
        → Says (IsDue limit (F.holds files.old) (file_shown checked.entry))
        (Rose (F.faults files.old) (F.faults files.new)) result }
    ensures opens { OpensFront (file_openings (file_shown checked.entry))
        (F.opened files.old) (F.opened files.new) (answered result) }
{
    match checked {
        CheckedFile::Config(config) => say_of_config(alloc, files, config, limit),
        CheckedFile::Rules { config, rules } => say_of_rules(alloc, files, config, rules, limit),
        CheckedFile::Tape { config, tape } => say_of_tape(alloc, files, config, tape, limit),
        CheckedFile::Capture(capture) => survey_capture(alloc, files, capture, limit),
        CheckedFile::Dump { config, dump } => survey_dump(alloc, files, config, dump, limit),
    }
}

/// Reads a configuration, and says what there is to say of it.
fn say_of_config<F: Files>(
    alloc: Global,
    files: &mut F,
    config: &str,
    limit: u64,
) -> Result<Said, Refusal>
    ensures later { F.faults files.old ≤ F.faults files.new }
    ensures possible { IsOfFile (answered result) × (answered result ≢ 3) }
    ensures accepted { IfOk result (λ said. (said.status ≡ 0) ⊎ (said.status ≡ 9)) }

    ensures said { IsTrue F.tells
        → Says (IsDue limit (F.holds files.old) (OfConfig config.now))
        (Rose (F.faults files.old) (F.faults files.new)) result }
    ensures opens { OpensFront (file_openings (OfConfig config.now))
        (F.opened files.old) (F.opened files.new) (answered result) }
{
    let octets = load_file(alloc, files, CONFIG_SLOT, config, limit)?;
    Ok(said_of_config(alloc, &octets)?)
}

/// What there is to say of the octets of a configuration.
fn said_of_config(alloc: Global, octets: &[u8]) -> Result<Said, Memory>
    ensures accepted { IfOk result (λ said. (said.status ≡ 0) ⊎ (said.status ≡ 9)) }
    ensures judged { IfOk result (λ said. JudgesConfig octets.now (said_shown said)) }
{
    names_the_fault();
    match judge_config(alloc, octets) {
        Ok(config) => {
            let peers = config.peers.as_slice().len();
            Ok(Said {
                status: status::DONE,
                text: format!(in alloc; "config {peers} peers\n")?,
            })
        }
        Err(ConfigFault::Memory) => Err(Memory),
        Err(fault) => Ok(Said {
            status: status::NLRI,
            text: format!(in alloc; "config {fault}\n")?,
        }),
    }
}
