//! The command `record`.

ghost use Rattle.std.specs.{Prelude.{◌≡◌, ◌≤◌, ◌<◌, ◌⊎◌, [], IfOk, IsTrue, OnErr, OnOk, drop, length}, Result.{IsErrOf}};
ghost use Rattle.fs_base.specs.{Gate.{FitsIn, Tells}, Happened.{happened}, Outside.{HasCause, Rose}};
ghost use Rattle.fs_recorder.specs.{Books.{Agrees}, Deeds.{AreKnown}, Steps.{at_first}};
ghost use Rattle.cmd_stages.specs.{Load.{OpensFront, config_alone, config_stage}, Refusal.{Stopped, answered}, declared.refusal.Refusal.{Refusal as Cause}};
ghost use Rattle.cmd_wire.specs.Recording.{BehindTurn, BreaksOne, Continues, EndsRecording, Fills, HearsOne, IsOfRecording, RecordsAll, RecordsSo};
ghost use Rattle.cmd_wire.specs.Recording.{StandsAt, at_gate, refusal_by, turn_of};

use cmd_stages::{Refusal, load_config};
use fs_base::{Config, Event, Failed, Files, Gate, Sink};
use fs_recorder::{HEAD_SIZE, Recorder, Stop};
use fs_tape::LONGEST_PAYLOAD;
use std::alloc::Global;

/// Where sessions are to be recorded: the name of the configuration, the address to listen at, and the most octets, plus
/// one, that the configuration or the tape may have.
#[derive(Clone, Copy, Drop)]
pub struct Recording<'w> {
    pub config: &'w str,
    pub address: &'w str,
    pub limit: u64,
}

/// Listens at the address, speaks with every configured peer that connects, and writes a tape of the second version: each
/// record at once when it happens. It ends only with an error.
///
/// # Errors
///
/// The first of these, in this order of work: the configuration's; `Outside` where the address can't be listened at; and
/// of each event `Outside` where the gate or the sink failed, `Memory` where the machine refused memory, `Limit` where the
/// next record would make the tape as long as the limit, or behind 2^64 - 1 events.
#[tactic(auto, using(crate::proofs::FromStages::config_opened))]
pub fn record_sessions<F: Files, S: Sink, G: Gate>(
    alloc: Global,
    files: &mut F,
    sink: &mut S,
    gate: &mut G,
    order: &Recording<'_>,
) -> Result<(), Refusal>
    ensures possible { IsOfRecording (answered result) }
    ensures unused { answered result ≡ 3 → (sink.new ≡ sink.old) × (gate.new ≡ gate.old) }
    ensures stopped { IsTrue F.tells
        → (refusal : Cause) → config_stage order.now.limit (F.holds files.old) order.now.config.now ≡ Stopped refusal
        → (sink.new ≡ sink.old) × (gate.new ≡ gate.old) }
    ensures opens { OpensFront (config_alone order.now.config.now)
        (F.opened files.old) (F.opened files.new) (answered result) }
    ensures ends { IsTrue F.tells
        → EndsRecording order.now.limit (F.holds files.old) order.now.config.now
        (happened F.Files S.Sink files.old files.new sink.old sink.new) (at_gate G.Gate gate.old gate.new)
        (answered result) }
    ensures records { IsTrue F.tells
        → RecordsSo order.now.limit (F.holds files.old) order.now.config.now
        (happened F.Files S.Sink files.old files.new sink.old sink.new) (at_gate G.Gate gate.old gate.new) }
{
    let config = load_config(alloc, files, order.config, order.limit)?;
    gate.open(order.address)?;
    match follow(alloc, &config, order.limit, gate, sink) {
        Ok(()) => Ok(()),
        Err(stop) => Err(refusal_by(stop)),
    }
}

/// Why the command ends.
pub(crate) fn refusal_by(stop: Stop) -> Refusal
    ensures { result ≡ refusal_by stop }
{
    match stop {
        Stop::Failed => Refusal::Outside,
        Stop::Memory => Refusal::Memory,
        Stop::Limit => Refusal::Limit,
    }
}

/// Records what comes at the gate.
fn follow<G: Gate, S: Sink>(
    alloc: Global,
    config: &Config,
    limit: u64,
    gate: &mut G,
    sink: &mut S,
) -> Result<(), Stop>
    ensures unending { IfOk result (λ _. ⊥) }
    ensures later { (G.faults gate.old ≤ G.faults gate.new) × (S.faults sink.old ≤ S.faults sink.new) }
    ensures failed { IsErrOf result Stop.Failed
        → Rose (S.faults sink.old) (S.faults sink.new) ⊎ Rose (G.faults gate.old) (G.faults gate.new) }
    ensures records { RecordsAll config.now
        (G.turns gate.old) (G.turns gate.new) (S.written sink.old) (S.written sink.new) }
    ensures full { IsErrOf result Stop.Limit → Fills limit config.now (G.turns gate.old) (G.turns gate.new) }
{
    let mut buffer = vec![in alloc; 0u8; HEAD_SIZE + LONGEST_PAYLOAD]?;
    let mut recorder = Recorder::begin(alloc, config, limit, sink)?;
    hear_all(&mut recorder, &mut buffer, gate, sink)
}

/// Hears event by event.
fn hear_all<G: Gate, S: Sink>(
    recorder: &mut Recorder<'_>,
    buffer: &mut [u8],
    gate: &mut G,
    sink: &mut S,
) -> Result<(), Stop>
    requires size { length buffer.old ≡ 65551 }
    requires stands { StandsAt recorder.old.books.desk.config at_first recorder.old }
    requires agrees { Agrees recorder.old.books.desk.config [] recorder.old.books }
    ensures unending { IfOk result (λ _. ⊥) }
    ensures later { (G.faults gate.old ≤ G.faults gate.new) × (S.faults sink.old ≤ S.faults sink.new) }
    ensures failed { IsErrOf result Stop.Failed
        → Rose (S.faults sink.old) (S.faults sink.new) ⊎ Rose (G.faults gate.old) (G.faults gate.new) }
    ensures continues { Continues (IsErrOf result Stop.Limit) recorder.old.books.scribe.limit recorder.old.books.desk.config
        (G.turns gate.old) (G.turns gate.new) (S.written sink.old) (S.written sink.new) }
{
    for _ in 0..u64::MAX {
        hear_next(recorder, buffer, gate, sink)?;
    }
    Err(Stop::Limit)
}

/// Hears the next event.
fn hear_next<G: Gate, S: Sink>(
    recorder: &mut Recorder<'_>,
    buffer: &mut [u8],
    gate: &mut G,
    sink: &mut S,
) -> Result<(), Stop>
    requires size { length buffer.old ≡ 65551 }
    requires known { AreKnown recorder.old.books.desk.config recorder.old.seats }
    ensures size { length buffer.new ≡ 65551 }
    ensures later { (G.faults gate.old ≤ G.faults gate.new) × (S.faults sink.old ≤ S.faults sink.new) }
    ensures failed { IsErrOf result Stop.Failed
        → Rose (S.faults sink.old) (S.faults sink.new) ⊎ Rose (G.faults gate.old) (G.faults gate.new) }
    ensures hears { OnOk result (HearsOne recorder.old recorder.new
        (G.turns gate.old) (G.turns gate.new) (S.written sink.old) (S.written sink.new)) }
    ensures breaks { OnErr result (BreaksOne (IsErrOf result Stop.Limit) recorder.old
        (G.turns gate.old) (G.turns gate.new) (S.written sink.old) (S.written sink.new)) }
{
    let event = next_event(buffer, gate)?;
    hear_one(recorder, event, buffer, gate, sink)
}

/// The next event at the gate. Its octets come behind room for a record's head.
fn next_event<G: Gate>(buffer: &mut [u8], gate: &mut G) -> Result<Event, Failed>
    requires { 15 < length buffer.old }
    ensures size { length buffer.new ≡ length buffer.old }
    ensures cause { HasCause (G.faults gate.old) (G.faults gate.new) result }
    ensures bound { IfOk result (λ event. FitsIn event.came (drop 15 buffer.new)) }
    ensures told { Tells result (drop 15 buffer.new) (G.turns gate.old) (G.turns gate.new) }
{
    gate.next(&mut buffer[HEAD_SIZE..])
}

/// Hears an event that the gate has told.
fn hear_one<G: Gate, S: Sink>(
    recorder: &mut Recorder<'_>,
    event: Event,
    buffer: &mut [u8],
    gate: &mut G,
    sink: &mut S,
) -> Result<(), Stop>
    requires size { length buffer.old ≡ 65551 }
    requires known { AreKnown recorder.old.books.desk.config recorder.old.seats }
    requires fits { FitsIn event.came (drop 15 buffer.old) }
    ensures size { length buffer.new ≡ 65551 }
    ensures still { G.faults gate.new ≡ G.faults gate.old }
    ensures later { S.faults sink.old ≤ S.faults sink.new }
    ensures failed { IsErrOf result Stop.Failed → Rose (S.faults sink.old) (S.faults sink.new) }
    ensures hears { OnOk result (BehindTurn (turn_of event (drop 15 buffer.old)) (G.turns gate.old) (λ before.
        HearsOne recorder.old recorder.new before (G.turns gate.new) (S.written sink.old) (S.written sink.new))) }
    ensures breaks { OnErr result (BehindTurn (turn_of event (drop 15 buffer.old)) (G.turns gate.old) (λ before.
        BreaksOne (IsErrOf result Stop.Limit) recorder.old before (G.turns gate.new) (S.written sink.old) (S.written sink.new))) }
{
    recorder.hear(event, buffer, gate, sink)
}
