//! The command `pair`.

ghost use Rattle.std.specs.Prelude.{◌≡◌, ◌≤◌, ◌⊎◌, IfErr, IfOk, IsTrue, List, ℕ};
ghost use Rattle.fs_base.specs.{Happened.{happened, with_wire}, Outside.{Rose}, declared.config.Config.{Config}};
ghost use Rattle.fs_speaker.specs.{Announcer.{CanSend}, Sending.{sender_of}, declared.Sending.{Sending}};
ghost use Rattle.cmd_stages.specs.{Load.{OpensFront, config_then, sending_stage}, Refusal.{Stopped, answered}, declared.refusal.Refusal.{Refusal as Cause}};
ghost use Rattle.cmd_wire.specs.{Announcing.{IsBrokenOff, IsOfSession}, Conversation.{conversation}, Listed.{ListsDesk}};
ghost use Rattle.cmd_wire.specs.Pairing.{AreReady, BothBegin, Joined, Joins};

use crate::announcing::load_both;
use crate::closing::close_end;
use crate::listed::tell_listing;
use crate::listening::lowest;
use cmd_stages::Refusal;
use fs_base::{Clock, Config, Files, Opening, Sink, Wire};
use fs_peering::{Buffers, Ending, Hearer, TalkFault, Teller, pair_over};
use fs_speaker::Sending;
use std::alloc::Global;

/// What is to be announced from one end to the other: the names of the configuration and the rules file, and the most
/// octets, plus one, that a file or an end may give.
#[derive(Clone, Copy, Drop)]
pub struct Pairing<'w> {
    pub config: &'w str,
    pub rules: &'w str,
    pub limit: u64,
}

/// Joins both ends of the wire, announces the rules through one of them as the configuration's peer with the lowest
/// number, receives them through the other, and writes the listing of what was received; of a session that closed, or
/// that ended before it was established, the line of that (RFC 4271 sections 4.5, 6 and 8).
///
/// # Errors
///
/// The first of these, in this order of work: the configuration's, the rules file's, the wire's, the session's, the
/// sink's.
#[tactic(auto, using(crate::proofs::FromStages::both_opened))]
pub fn pair<F: Files, S: Sink, W: Wire, C: Clock>(
    alloc: Global,
    files: &mut F,
    sink: &mut S,
    wire: &mut W,
    clock: &mut C,
    order: &Pairing<'_>,
) -> Result<(), Refusal>
    requires { 1 ≤ order.now.limit }
    ensures possible { IsOfSession (answered result) }
    ensures quiet { (answered result ≡ 3) ⊎ (answered result ≡ 6) → sink.new ≡ sink.old }
    ensures unspoken { answered result ≡ 3 → wire.new ≡ wire.old }
    ensures unasked { answered result ≡ 3 → clock.new ≡ clock.old }
    ensures stopped { IsTrue F.tells
        → (refusal : Cause) → sending_stage order.now.limit (F.holds files.old) order.now.config.now order.now.rules.now ≡ Stopped refusal
        → (wire.new ≡ wire.old) × (clock.new ≡ clock.old) }
    ensures opens { OpensFront (config_then 2 order.now.config.now order.now.rules.now)
        (F.opened files.old) (F.opened files.new) (answered result) }

    ensures joins { IsTrue F.tells
        → Joins order.now.limit (F.holds files.old) order.now.config.now order.now.rules.now
        (with_wire W.Wire wire.old wire.new (happened F.Files S.Sink files.old files.new sink.old sink.new))
        (conversation W.Wire C.Clock wire.old wire.new clock.old clock.new)
        (answered result) }
{
    let (config, sending) = load_both(alloc, files, order.config, order.rules, order.limit)?;
    let mut ends = both_ends(alloc, &config, sending)?;
    let ending = join(alloc, wire, clock, &mut ends, order.limit)?;
    tell_listing(alloc, ending, ends.hearer.desk(), sink)
}

/// Both ends of a session: the receiving one, and the announcing one.
#[derive(Drop)]
struct Ends<'a> {
    hearer: Hearer<'a>,
    teller: Teller<'a>,
}

/// Both ends of the session with the configuration's peer with the lowest number, before their first octets.
fn both_ends<'a>(alloc: Global, config: &'a Config, sending: Sending) -> Result<Ends<'a>, Refusal>
    requires { CanSend config.now (sender_of config.now.peers) sending }
    ensures broken { IfErr result (IsBrokenOff ⊥) }
    ensures ready { IfOk result (λ ends. AreReady ends.hearer.desk ends.hearer.peer ends.hearer.count
        ends.teller.count ends.teller.hears_on ends.teller.announcer.line) }
    ensures begins { IfOk result (λ ends. BothBegin config.entry.now sending
        ends.hearer.desk ends.hearer.peer ends.teller.announcer ends.teller.started) }
{
    let hearer = lowest(alloc, config)?;
    let teller = Teller::new(alloc, config, sending, true)?;
    Ok(Ends { hearer, teller })
}

/// Joins both ends, announces and receives, and closes the announcing end.
fn join<W: Wire, C: Clock>(
    alloc: Global,
    wire: &mut W,
    clock: &mut C,
    ends: &mut Ends<'_>,
    limit: u64,
) -> Result<Ending, Refusal>
    requires some { 1 ≤ limit }
    requires ready { AreReady ends.old.hearer.desk ends.old.hearer.peer ends.old.hearer.count
        ends.old.teller.count ends.old.teller.hears_on ends.old.teller.announcer.line }
    ensures later { W.faults wire.old ≤ W.faults wire.new }
    ensures broken { IfErr result (IsBrokenOff (Rose (W.faults wire.old) (W.faults wire.new))) }
    ensures joined { IfOk result (λ ending. (config : Config) (sending : Sending) (text : List ℕ)
        → BothBegin config sending
        ends.old.hearer.desk ends.old.hearer.peer ends.old.teller.announcer ends.old.teller.started
        → ListsDesk ending ends.new.hearer.desk text
        → Joined ending config sending limit text
        (conversation W.Wire C.Clock wire.old wire.new clock.old clock.new)) }
{
    let mut buffers = Buffers::new(alloc);
    wire.open_end(Opening::Both)?;
    match pair_over(
        wire,
        clock,
        &mut ends.hearer,
        &mut ends.teller,
        limit,
        &mut buffers,
    ) {
        Ok(ending) => {
            close_end(wire, 1, ends.teller.announced())?;
            Ok(ending)
        }
        Err(TalkFault::Failed) => Err(Refusal::Outside),
        Err(TalkFault::Memory) => Err(Refusal::Memory),
    }
}
