//! The command `listen`.

ghost use Rattle.std.specs.Prelude.{◌≡◌, ◌≤◌, ◌⊎◌, [], false, IfErr, IfOk, IsTrue, MatchResult};
ghost use Rattle.fs_base.specs.{Happened.{happened, with_wire}, Outside.{Rose}};
ghost use Rattle.fs_desk.specs.Desk.{standing_at_desk};
ghost use Rattle.fs_peering.specs.Hearer.{Receives, is_ended};
ghost use Rattle.cmd_stages.specs.{Load.{OpensFront, config_alone}, Refusal.{HasReason, Stopped, answered}, declared.refusal.Refusal.{Refusal as Cause}};
ghost use Rattle.cmd_wire.specs.{Announcing.{IsBrokenOff, IsOfSession}, Conversation.{conversation}};
ghost use Rattle.cmd_wire.specs.Listening.{Begins, ListensThrough, ListensTo, hearing_stage, with_peer};

use crate::closing::close_end;
use crate::listed::tell_listing;
use cmd_stages::{Refusal, load_config};
use fs_base::{Clock, Config, Files, Opening, Sink, Wire};
use fs_peering::{Buffers, Ending, Hearer, TalkFault, listen_over};
use fs_speaker::sender;
use std::alloc::Global;

/// Where rules are to be received: the name of the configuration, the address to listen at, and the most octets, plus
/// one, that the file or the other end may give.
#[derive(Clone, Copy, Drop)]
pub struct Reception<'w> {
    pub config: &'w str,
    pub address: &'w str,
    pub limit: u64,
}

/// Listens at the address, takes one connection, receives as from the configuration's peer with the lowest number until
/// the other end closes, closes the connection, and writes the listing of the peers and the rules; of a session that
/// closed, or whose octets ended before it was established, the line of that (RFC 4271 sections 4.5, 6 and 8).
///
/// # Errors
///
/// The first of these, in this order of work: the configuration's, the wire's, the session's, the sink's.
#[tactic(auto, using(crate::proofs::FromStages::config_opened))]
pub fn listen<F: Files, S: Sink, W: Wire, C: Clock>(
    alloc: Global,
    files: &mut F,
    sink: &mut S,
    wire: &mut W,
    clock: &mut C,
    order: &Reception<'_>,
) -> Result<(), Refusal>
    requires { 1 ≤ order.now.limit }
    ensures possible { IsOfSession (answered result) }
    ensures quiet { (answered result ≡ 3) ⊎ (answered result ≡ 6) → sink.new ≡ sink.old }
    ensures unspoken { answered result ≡ 3 → wire.new ≡ wire.old }
    ensures unasked { answered result ≡ 3 → clock.new ≡ clock.old }
    ensures stopped { IsTrue F.tells
        → (refusal : Cause) → hearing_stage order.now.limit (F.holds files.old) order.now.config.now ≡ Stopped refusal
        → (wire.new ≡ wire.old) × (clock.new ≡ clock.old) }
    ensures opens { OpensFront (config_alone order.now.config.now)
        (F.opened files.old) (F.opened files.new) (answered result) }

    ensures listens { IsTrue F.tells
        → ListensTo order.now.limit (F.holds files.old) order.now.config.now
        (with_wire W.Wire wire.old wire.new (happened F.Files S.Sink files.old files.new sink.old sink.new))
        (conversation W.Wire C.Clock wire.old wire.new clock.old clock.new)
        (answered result) }
{
    let config = load_config(alloc, files, order.config, order.limit)?;
    let mut hearer = lowest(alloc, &config)?;
    let ending = hear(alloc, wire, clock, &mut hearer, order)?;
    tell_listing(alloc, ending, hearer.desk(), sink)
}

/// The receiving end of the session with the configuration's peer with the lowest number, which is up and has sent
/// nothing yet.
///
/// # Errors
///
/// `Rejected` where the configuration has no peers; `Memory` where the machine refused memory.
pub(crate) fn lowest<'a>(alloc: Global, config: &'a Config) -> Result<Hearer<'a>, Refusal>
    ensures begins { MatchResult result
        (λ made. Begins config.entry.now made.desk made.peer made.count)
        (HasReason (with_peer config.entry.now) ⊥) }
    ensures possible { IsOfSession (answered result) }
    ensures open { IfOk result (λ made. is_ended (standing_at_desk made.desk made.peer) ≡ false) }
{
    let Some(peer) = sender(config) else {
        return Err(Refusal::Rejected);
    };
    let hearer = Hearer::new(alloc, config, peer.number)?;
    Ok(hearer)
}

/// Takes a connection, receives, and closes the connection.
fn hear<W: Wire, C: Clock>(
    alloc: Global,
    wire: &mut W,
    clock: &mut C,
    hearer: &mut Hearer<'_>,
    order: &Reception<'_>,
) -> Result<Ending, Refusal>
    requires some { 1 ≤ order.now.limit }
    requires fresh { Receives hearer.old.desk hearer.old.peer hearer.old.count [] [] }
    requires open { is_ended (standing_at_desk hearer.old.desk hearer.old.peer) ≡ false }
    ensures later { W.faults wire.old ≤ W.faults wire.new }
    ensures broken { IfErr result (IsBrokenOff (Rose (W.faults wire.old) (W.faults wire.new))) }
    ensures heard { IfOk result (λ ending.
        ListensThrough ending hearer.old.desk.config hearer.new.desk hearer.old.peer order.now.limit
        (conversation W.Wire C.Clock wire.old wire.new clock.old clock.new)) }
{
    let mut buffers = Buffers::new(alloc);
    wire.open_end(Opening::Listen(order.address))?;
    match listen_over(wire, clock, hearer, order.limit, &mut buffers) {
        Ok(ending) => {
            close_end(wire, 0, 0)?;
            Ok(ending)
        }
        Err(TalkFault::Failed) => Err(Refusal::Outside),
        Err(TalkFault::Memory) => Err(Refusal::Memory),
    }
}
