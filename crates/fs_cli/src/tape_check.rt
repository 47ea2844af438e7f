//! Says of a tape what it holds, or what its fault is.

ghost use Rattle.std.specs.Prelude.{◌≡◌, ◌≢◌, ◌≤◌, ◌++◌, ◌⊎◌, None, length, string_bytes, IfNone, IfOk, IfSome, IsTrue, MatchResult, OnOk};
ghost use Rattle.fs_base.specs.{Files.{one_opening}, Outside.{Rose}, Sink.{Grew}};
ghost use Rattle.fs_tape.specs.{Header.{longest_payload}, Tape.{coming}};
ghost use Rattle.fs_reports.specs.TapeFault.{tape_fault_line};
ghost use Rattle.cmd_stages.specs.{Load.{OpensFront}, Play.{played_to, tape_stage}, Said.{Says, said_shown}};
ghost use Rattle.cmd_stages.specs.Refusal.{HasReason, IsOfTape, answered, status_of, verdict_with};
ghost use Rattle.cmd_stages.specs.declared.refusal.Refusal.TheVariants.{Tape as TapeRefusal};
ghost use Rattle.fs_cli.specs.FileCheck.{IsDue, OfTape, file_openings};
ghost use Rattle.fs_cli.specs.Survey.{IsOfSurvey};
ghost use Rattle.fs_cli.specs.TapeCheck.{CountsOn, TapeCounted, counted_text, span_text, tally_at, tally_line, tally_lines, tape_line, up_text};

use crate::tallies::{Counts, Tally};
use cmd_stages::{Refusal, Said, load_config, next_item, open_tape, status};
use fs_base::{Config, Files, Memory};
use fs_reports::{peer_numbers, tape_reason_name};
use fs_tape::{LONGEST_PAYLOAD, Tape, TapeReason};
use std::alloc::Global;

/// What a whole tape holds: its version, and what is counted of its items.
#[derive(Drop)]
pub(crate) struct Counted {
    version: u8,
    counts: Counts,
}

/// Reads a configuration and a tape, and says what there is to say of the tape.
pub(crate) fn say_of_tape<F: Files>(
    alloc: Global,
    files: &mut F,
    config: &str,
    tape: &str,
    limit: u64,
) -> Result<Said, Refusal>
    ensures later { F.faults files.old ≤ F.faults files.new }
    ensures possible { IsOfSurvey (answered result) × (answered result ≢ 4) }
    ensures accepted { IfOk result (λ said. (said.status ≡ 0) ⊎ (said.status ≡ 4)) }

    ensures said { IsTrue F.tells
        → Says (IsDue limit (F.holds files.old) (OfTape config.now tape.now))
        (Rose (F.faults files.old) (F.faults files.new)) result }
    ensures opens { OpensFront (file_openings (OfTape config.now tape.now))
        (F.opened files.old) (F.opened files.new) (answered result) }
{
    let accepted = load_config(alloc, files, config, limit)?;
    match count_tape(alloc, files, &accepted, tape, limit) {
        Ok(counted) => Ok(said_of_tape(alloc, &accepted, &counted)?),
        Err(refusal) => match fault_of(refusal) {
            Some((reason, place)) => Ok(said_of_fault(alloc, reason, place)?),
            None => Err(refusal),
        },
    }
}

/// The fault of the tape that a refusal is, where it is one.
fn fault_of(refusal: Refusal) -> Option<(TapeReason, u64)>
    ensures some { IfSome result (λ fault. refusal ≡ TapeRefusal fault.0 fault.1) }
    ensures none { IfNone result (status_of refusal ≢ 4) }
{
    match refusal {
        Refusal::Tape { reason, place } => Some((reason, place)),
        Refusal::Outside => None,
        Refusal::Rejected => None,
        Refusal::Capture => None,
        Refusal::Dump => None,
        Refusal::Memory => None,
        Refusal::Limit => None,
        Refusal::Session => None,
    }
}

/// Reads the whole tape, and counts its items.
fn count_tape<F: Files>(
    alloc: Global,
    files: &mut F,
    config: &Config,
    name: &str,
    limit: u64,
) -> Result<Counted, Refusal>
    ensures later { F.faults files.old ≤ F.faults files.new }
    ensures possible { IsOfTape (answered result) }

    ensures counted { IsTrue F.tells
        → MatchResult result
        (λ counted. TapeCounted config.now limit (F.holds files.old) name.now counted.version counted.counts)
        (HasReason (tape_stage config.now limit (F.holds files.old) name.now)
        (Rose (F.faults files.old) (F.faults files.new))) }
    ensures opens { Grew (F.opened files.old) (F.opened files.new) (one_opening 1 name.now) }
{
    let mut tape = open_tape(files, name, limit)?;
    let version = tape.version();
    let nothing = Counts::new(alloc)?;
    let mut buffer = vec![in alloc; 0u8; LONGEST_PAYLOAD]?;
    match count_items(files, &mut tape, limit, config, &mut buffer, nothing) {
        Ok(counts) => Ok(Counted { version, counts }),
        Err(refusal) => Err(refusal),
    }
}

/// Counts what is left of the tape.
fn count_items<F: Files>(
    files: &mut F,
    tape: &mut Tape,
    limit: u64,
    config: &Config,
    buffer: &mut [u8],
    nothing: Counts,
) -> Result<Counts, Refusal>
    requires room { longest_payload ≤ length buffer.old }
    requires open { tape.old.end ≡ None }
    requires within { (tape.old.place ≤ tape.old.limit) × (tape.old.limit ≡ limit) }
    requires few { nothing.items ≤ tape.old.place }
    ensures later { F.faults files.old ≤ F.faults files.new }
    ensures possible { IsOfTape (answered result) }

    ensures counted { IsTrue F.tells
        → MatchResult result
        (CountsOn (coming config.now tape.old (F.left files.old tape.old.slot)) nothing)
        (HasReason (played_to (coming config.now tape.old (F.left files.old tape.old.slot)))
        (Rose (F.faults files.old) (F.faults files.new))) }
    ensures opened { F.opened files.new ≡ F.opened files.old }
{
    let mut counts = nothing;
    'items: while let Some(item) = next_item(files, tape, config, buffer)? {
        counts = counts.with_item(item, tape.moment(), buffer);
    }
    Ok(counts)
}

/// What there is to say of a tape.
fn said_of_tape(alloc: Global, config: &Config, counted: &Counted) -> Result<Said, Memory>
    ensures { IfOk result (λ said.
        said_shown said ≡ verdict_with 0 (counted_text config.now counted.now.version counted.now.counts)) }
{
    let mut text = tape_line(alloc, counted.version, &counted.counts)?;
    let numbers = peer_numbers(alloc, config.peers.as_slice())?;
    append_tallies(&numbers, &counted.counts, &mut text)?;
    Ok(Said {
        status: status::DONE,
        text,
    })
}

/// What there is to say of a tape's fault.
fn said_of_fault(alloc: Global, reason: TapeReason, place: u64) -> Result<Said, Memory>
    ensures { IfOk result (λ said. said_shown said ≡ verdict_with 4 (tape_fault_line reason place)) }
{
    let name = tape_reason_name(reason);
    Ok(Said {
        status: status::TAPE,
        text: format!(in alloc; "tape {name} at {place}\n")?,
    })
}

/// The line of the whole tape.
fn tape_line(alloc: Global, version: u8, counts: &Counts) -> Result<String, Memory>
    ensures { IfOk result (λ text. string_bytes text ≡ tape_line version counts.now.items counts.now.span) }
{
    let items = counts.items();
    match counts.span() {
        None => Ok(format!(in alloc; "tape version {version} items {items} moments - -\n")?),
        Some((first, last)) => Ok(format!(in alloc;
            "tape version {version} items {items} moments {first} {last}\n"
        )?),
    }
}

/// Appends the lines of the peers of these numbers.
fn append_tallies(numbers: &[u16], counts: &Counts, text: &mut String) -> Result<(), Memory>
    ensures { OnOk result (string_bytes text.new
        ≡ string_bytes text.old ++ tally_lines numbers.now (tally_at counts.now.by_number)) }
{
    for number in numbers {
        append_tally(*number, counts.of(*number), text)?;
    }
    Ok(())
}

/// Appends the line of a peer.
fn append_tally(number: u16, tally: Tally, text: &mut String) -> Result<(), Memory>
    ensures { OnOk result (string_bytes text.new ≡ string_bytes text.old ++ tally_line number tally) }
{
    let Tally { items, octets, up } = tally;
    let state = up_word(up);
    write!(
        text,
        "peer {number} items {items} octets {octets} {state}\n"
    )?;
    Ok(())
}

/// Whether a peer is up, in a word.
fn up_word(up: bool) -> &'static str
    ensures { result.now ≡ up_text up }
{
    if up { "up" } else { "down" }
}
