//! The program.

ghost use Rattle.std.specs.Prelude.{◌≡◌, ◌≢◌, ◌≤◌, ◌^◌, ◌∷◌, [], ℕ, IfOk, IsTrue, List, Some, false, map, string_bytes};
ghost use Rattle.fs_base.specs.Happened.{at_sink, happened, with_wire};
ghost use Rattle.fs_cli.specs.declared.{command.Subject.{Subject}, survey.Survey.{Survey}};
ghost use Rattle.fs_cli.specs.Program.{Checks, HasNoMoments, IsOneOf, Promises, ReportsOn, Runs, StopsSo, checked, speaks, objects, openings};
ghost use Rattle.fs_cli.specs.Program.{tells_changes};
ghost use Rattle.fs_cli.specs.Command.{form_shown, Check, Enforce, Gen, Surveys};
ghost use Rattle.cmd_stages.specs.{Load.{OpensFront}, Refusal.{answered}, declared.refusal.Refusal.{Refusal as Cause}};
ghost use Rattle.cmd_enforce.specs.Command.{Unopened, Wants, shown};
ghost use Rattle.cmd_wire.specs.Conversation.{conversation};

use crate::changes::tell_changes;
use crate::command::{Command, Subject, parse};
use crate::file_check::check_file;
use crate::survey::survey_tape;
use cmd_convert::convert;
use cmd_enforce::enforce;
use cmd_gen::generate;
use cmd_stages::{Refusal, status};
use cmd_wire::{Announcement, Pairing, Reception, announce, listen, pair};
use fs_base::{Clock, Failed, Files, Memory, Sink, Wire, write_all};
use fs_reports::{Report, report_on, report_on_text};
use std::alloc::Global;

/// The most octets that an input may have.
pub(crate) const LIMIT: u64 = 1 << 40;

/// Runs the command that the words ask for, over inputs of fewer than 2^40 octets, and answers the status with which
/// the process is to end (see `status`). `words` are those after the program's name.
pub fn run<F: Files, S: Sink, W: Wire, C: Clock>(
    alloc: Global,
    words: &[String],
    files: &mut F,
    sink: &mut S,
    wire: &mut W,
    clock: &mut C,
) -> u8
    ensures { Promises (2 ^ 40)
        (objects F.Files S.Sink W.Wire C.Clock
        files.old files.new sink.old sink.new wire.old wire.new clock.old clock.new)
        (map string_bytes words.now) result }
{
    run_within(alloc, words, LIMIT, files, sink, wire, clock)
}

/// Runs the command that the words ask for, over inputs of fewer than `limit` octets, and answers the status with
/// which the process is to end: 0 where the job is done, 1 for a fault outside or a name that no file has, 2 for words
/// that ask for no command, 3 for the configuration or the rules file, 4 for the tape, 5 for the capture, 6 for want of
/// memory, 7 for the limit, 8 for a session, 9 for NLRI, a text or a file of `check` that isn't accepted, 10 for the dump.
pub fn run_within<F: Files, S: Sink, W: Wire, C: Clock>(
    alloc: Global,
    words: &[String],
    limit: u64,
    files: &mut F,
    sink: &mut S,
    wire: &mut W,
    clock: &mut C,
) -> u8
    requires { 1 ≤ limit }
    ensures { Promises limit
        (objects F.Files S.Sink W.Wire C.Clock
        files.old files.new sink.old sink.new wire.old wire.new clock.old clock.new)
        (map string_bytes words.now) result }
{
    match parse(words) {
        None => status::NO_COMMAND,
        Some(command) => perform(alloc, Job { command, limit }, files, sink, wire, clock),
    }
}

/// A command, and the most octets, plus one, that an input of it may have.
#[derive(Clone, Copy, Drop)]
struct Job<'w> {
    command: Command<'w>,
    limit: u64,
}

/// Runs the command, and answers the status.
fn perform<F: Files, S: Sink, W: Wire, C: Clock>(
    alloc: Global,
    job: Job<'_>,
    files: &mut F,
    sink: &mut S,
    wire: &mut W,
    clock: &mut C,
) -> u8
    requires { 1 ≤ job.limit }
    ensures runs { Runs F.tells job.entry.limit (F.holds files.old) (Some (form_shown job.entry.command))
        (with_wire W.Wire wire.old wire.new (happened F.Files S.Sink files.old files.new sink.old sink.new))
        (conversation W.Wire C.Clock wire.old wire.new clock.old clock.new) result }
    ensures known { result ≢ 2 }
    ensures quiet { result ≡ 3 → (sink.new ≡ sink.old) × ((wire.new ≡ wire.old) × (clock.new ≡ clock.old)) }
    ensures wanting { result ≡ 6
        → tells_changes (form_shown job.entry.command) ≡ false
        → HasNoMoments F.tells job.entry.limit (F.holds files.old) (form_shown job.entry.command)
        → sink.new ≡ sink.old }
    ensures limited { result ≡ 7
        → (survey : Survey)
        → (config tape : List ℕ)
        → form_shown job.entry.command ≡ Surveys survey config tape
        → sink.new ≡ sink.old }
    ensures opens { OpensFront (openings (form_shown job.entry.command))
        (F.opened files.old) (F.opened files.new) result }
    ensures still { IsTrue F.tells
        → result ≡ 4
        → (config tape capture : List ℕ)
        → form_shown job.entry.command ≡ Enforce config tape capture
        → sink.new ≡ sink.old }
    ensures early { IsTrue F.tells
        → result ≡ 4
        → (config tape capture : List ℕ)
        → form_shown job.entry.command ≡ Enforce config tape capture
        → Unopened config tape capture (F.opened files.old) (F.opened files.new) }
    ensures stopped { IsTrue F.tells
        → (refusal : Cause)
        → StopsSo job.entry.limit (F.holds files.old) (form_shown job.entry.command) refusal
        → (wire.new ≡ wire.old) × (clock.new ≡ clock.old) }
    ensures unfinished { IsTrue F.tells
        → result ≡ 6
        → (config tape capture : List ℕ)
        → form_shown job.entry.command ≡ Enforce config tape capture
        → Wants job.entry.limit (F.holds files.old) config tape capture (shown F.opened F.left files.old files.new)
        (happened F.Files S.Sink files.old files.new sink.old sink.new) }
    ensures unopened { (subject : Subject)
        → (word : List ℕ)
        → form_shown job.entry.command ≡ Check subject word
        → files.new ≡ files.old }
    ensures generates { (count : ℕ) → form_shown job.entry.command ≡ Gen count → files.new ≡ files.old }
    ensures unspoken { speaks (form_shown job.entry.command) ≡ false
        → (wire.new ≡ wire.old) × (clock.new ≡ clock.old) }
{
    let Job { command, limit } = job;
    match command {
        Command::Enforce(names) => answer_of(enforce(alloc, files, sink, &names, limit)),
        Command::Survey {
            survey,
            config,
            tape,
        } => answer_of(survey_tape(alloc, files, sink, survey, config, tape, limit)),
        Command::Changes { config, tape } => {
            answer_of(tell_changes(alloc, files, sink, config, tape, limit))
        }
        Command::Convert(names) => answer_of(convert(alloc, files, sink, &names, limit)),
        Command::Check(subject, word) => run_check(alloc, sink, subject, word),
        Command::CheckFile(file) => check_file(alloc, files, sink, file, limit),
        Command::Gen(count) => answer_of(generate(alloc, sink, count)),
        Command::Announce {
            config,
            rules,
            address,
        } => {
            let order = Announcement {
                config,
                rules,
                address,
                limit,
            };
            answer_of(announce(alloc, files, sink, wire, clock, &order))
        }
        Command::Listen { config, address } => {
            let order = Reception {
                config,
                address,
                limit,
            };
            answer_of(listen(alloc, files, sink, wire, clock, &order))
        }
        Command::Pair { config, rules } => {
            let order = Pairing {
                config,
                rules,
                limit,
            };
            answer_of(pair(alloc, files, sink, wire, clock, &order))
        }
    }
}

/// The status of a command that is done or was refused.
pub(crate) fn answer_of(done: Result<(), Refusal>) -> u8
    ensures answered { result ≡ answered done }
    ensures known { result ≢ 2 }
{
    match done {
        Ok(()) => status::DONE,
        Err(refusal) => refusal.status(),
    }
}

/// Writes what is said of the word. Answers the status: of a word that is accepted or isn't, or why it isn't said.
fn run_check<S: Sink>(alloc: Global, sink: &mut S, subject: Subject, word: &str) -> u8
    ensures checks { Checks subject word.now (at_sink S.Sink sink.old sink.new) result }
    ensures possible { IsOneOf (0 ∷ 1 ∷ 6 ∷ 9 ∷ []) result }
    ensures known { (result ≢ 2) × (result ≢ 3) × (result ≢ 4) }
    ensures quiet { result ≡ 6 → sink.new ≡ sink.old }
{
    match report_of(alloc, subject, word) {
        Ok(report) => match write_all(sink, &report.text) {
            Ok(()) => checked(report.accepted),
            Err(Failed) => status::OUTSIDE,
        },
        Err(Memory) => status::MEMORY,
    }
}

/// The status of a word that is accepted, or isn't.
fn checked(accepted: bool) -> u8
    ensures { result ≡ checked accepted }
{
    if accepted { status::DONE } else { status::NLRI }
}

/// What is said of the word.
fn report_of(alloc: Global, subject: Subject, word: &str) -> Result<Report, Memory>
    ensures { IfOk result (λ report. ReportsOn subject word.now report.text.items report.accepted) }
{
    match subject {
        Subject::Nlri(family) => report_on(alloc, family, word),
        Subject::Text => report_on_text(alloc, word),
    }
}
