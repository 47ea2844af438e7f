//! The command `announce`.

ghost use Rattle.std.specs.Prelude.{◌≡◌, ◌≤◌, ◌⊎◌, IfErr, IfOk, IsTrue};
ghost use Rattle.fs_base.specs.{Happened.{happened, with_wire}, Outside.{Rose}, Sink.{Grew}};
ghost use Rattle.fs_speaker.specs.{Announcer.{CanSend}, Sending.{sender_of}};
ghost use Rattle.cmd_stages.specs.{Load.{OpensFront, config_then, sending_stage}, Refusal.{IsOfFile, Reaches, Stopped, answered}};
ghost use Rattle.cmd_stages.specs.declared.refusal.Refusal.{Refusal as Cause};
ghost use Rattle.cmd_wire.specs.{Announcing.{Announces, Connected, IsBrokenOff, IsOfSession}, Conversation.{conversation}};

use crate::closing::close_end;
use crate::tell::tell_ending;
use cmd_stages::{Refusal, load_config, load_rules};
use fs_base::{Clock, Config, Files, Opening, Sink, Wire};
use fs_peering::{Buffers, Ending, TalkFault, Teller, announce_over};
use fs_speaker::Sending;
use std::alloc::Global;

/// What is to be announced and where: the names of the configuration and the rules file, the address of the other end,
/// and the most octets, plus one, that a file or the other end may give.
#[derive(Clone, Copy, Drop)]
pub struct Announcement<'w> {
    pub config: &'w str,
    pub rules: &'w str,
    pub address: &'w str,
    pub limit: u64,
}

/// Connects to the address, announces the rules as the configuration's peer with the lowest number, one UPDATE for each
/// in the file's order, closes the connection, and writes how many they were; of a session that closed, or whose octets
/// ended before it was established, the line of that (RFC 4271 sections 4.5, 6 and 8).
///
/// # Errors
///
/// The first of these, in this order of work: the configuration's, the rules file's, the wire's, the session's, the
/// sink's.
#[tactic(auto, using(crate::proofs::FromStages::both_opened))]
pub fn announce<F: Files, S: Sink, W: Wire, C: Clock>(
    alloc: Global,
    files: &mut F,
    sink: &mut S,
    wire: &mut W,
    clock: &mut C,
    order: &Announcement<'_>,
) -> Result<(), Refusal>
    requires { 1 ≤ order.now.limit }
    ensures possible { IsOfSession (answered result) }
    ensures quiet { (answered result ≡ 3) ⊎ (answered result ≡ 6) → sink.new ≡ sink.old }
    ensures unspoken { answered result ≡ 3 → wire.new ≡ wire.old }
    ensures unasked { answered result ≡ 3 → clock.new ≡ clock.old }
    ensures stopped { IsTrue F.tells
        → (refusal : Cause) → sending_stage order.now.limit (F.holds files.old) order.now.config.now order.now.rules.now ≡ Stopped refusal
        → (wire.new ≡ wire.old) × (clock.new ≡ clock.old) }
    ensures opens { OpensFront (config_then 2 order.now.config.now order.now.rules.now)
        (F.opened files.old) (F.opened files.new) (answered result) }

    ensures announces { IsTrue F.tells
        → Announces order.now.limit (F.holds files.old) order.now.config.now order.now.rules.now
        (with_wire W.Wire wire.old wire.new (happened F.Files S.Sink files.old files.new sink.old sink.new))
        (conversation W.Wire C.Clock wire.old wire.new clock.old clock.new)
        (answered result) }
{
    let (config, sending) = load_both(alloc, files, order.config, order.rules, order.limit)?;
    let count = sending.rules.as_slice().len();
    let ending = speak(alloc, wire, clock, &config, sending, order)?;
    tell_ending(alloc, ending, count, sink)
}

/// Reads the configuration, and the rules file beside it.
///
/// # Errors
///
/// The first of these: the configuration's, the rules file's.
pub(crate) fn load_both<F: Files>(
    alloc: Global,
    files: &mut F,
    config: &str,
    rules: &str,
    limit: u64,
) -> Result<(Config, Sending), Refusal>
    ensures possible { IsOfFile (answered result) }
    ensures sendable { IfOk result (λ both. CanSend both.0 (sender_of both.0.peers) both.1) }
    ensures opens { OpensFront (config_then 2 config.now rules.now) (F.opened files.old) (F.opened files.new) (answered result) }
    ensures both { IfOk result (λ _. Grew (F.opened files.old) (F.opened files.new) (config_then 2 config.now rules.now).files) }
    ensures reaches { IsTrue F.tells
        → Reaches (λ both. both) (sending_stage limit (F.holds files.old) config.now rules.now)
        (Rose (F.faults files.old) (F.faults files.new)) result }
{
    let config = load_config(alloc, files, config, limit)?;
    let sending = load_rules(alloc, files, &config, rules, limit)?;
    Ok((config, sending))
}

/// Connects, announces, and closes the connection.
fn speak<W: Wire, C: Clock>(
    alloc: Global,
    wire: &mut W,
    clock: &mut C,
    config: &Config,
    sending: Sending,
    order: &Announcement<'_>,
) -> Result<Ending, Refusal>
    requires some { 1 ≤ order.now.limit }
    requires sendable { CanSend config.now (sender_of config.now.peers) sending }
    ensures later { W.faults wire.old ≤ W.faults wire.new }
    ensures broken { IfErr result (IsBrokenOff (Rose (W.faults wire.old) (W.faults wire.new))) }
    ensures spoken { IfOk result (λ ending. Connected ending config.now sending order.now.limit
        (conversation W.Wire C.Clock wire.old wire.new clock.old clock.new)) }
{
    let mut teller = Teller::new(alloc, config, sending, false)?;
    let mut buffers = Buffers::new(alloc);
    wire.open_end(Opening::Dial(order.address))?;
    match announce_over(wire, clock, &mut teller, order.limit, &mut buffers) {
        Ok(ending) => {
            close_end(wire, 1, teller.announced())?;
            Ok(ending)
        }
        Err(TalkFault::Failed) => Err(Refusal::Outside),
        Err(TalkFault::Memory) => Err(Refusal::Memory),
    }
}
