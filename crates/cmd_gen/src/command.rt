//! The command `gen`.

ghost use Rattle.std.specs.Prelude.{◌≡◌, ◌++◌, ◌⊎◌, List, IfOk, IsSome, OnOk, vec_capacity};
ghost use Rattle.fs_base.specs.{Config.{peer_of}, Outside.{Rose}, declared.config.Config.{Config}};
ghost use Rattle.cmd_enforce.specs.{Judge.{AdmittedRules}, Matcher.{HasRoom, IsSound, StandsFor}};
ghost use Rattle.cmd_gen.specs.Command.{GeneratesSo, dropped_of, gen_line, gen_text, passed_of};
ghost use Rattle.cmd_gen.specs.{Configuration.{three_peers}, Draws.{behind_pairs}, Generator.{opening, packets_of_seed, steps, tape_of_seed}};
ghost use Rattle.cmd_stages.specs.Refusal.{IsLate, answered};
ghost use Rattle.fs_desk.specs.Desk.{Played};
ghost use Rattle.fs_tape.specs.Tape.{Item};

use crate::configuration::three_peers;
use crate::draws::Draws;
use crate::message::{keepalive, open_message};
use crate::tally::Tally;
use cmd_stages::{Refusal, write_made};
use fs_base::{Config, Family, Memory, Sink};
use fs_compile::Compiled;
use fs_desk::Desk;
use fs_line::{Walked, append, append_numbered};
use fs_rules::Table;
use std::alloc::Global;

/// Plays the generator's tape, counts what becomes of its packets, so many of each, and writes the counts. Neither the
/// tape nor the packets are ever held whole.
///
/// # Errors
///
/// `Memory` where the machine refused memory, and then nothing is written; `Outside` where the sink failed, and then a
/// front of the line is.
pub fn generate<S: Sink>(alloc: Global, sink: &mut S, count: u32) -> Result<(), Refusal>
    ensures late { IsLate (answered result) }
    ensures unwritten { answered result ≡ 6 → sink.new ≡ sink.old }
    ensures generates { GeneratesSo count (Rose (S.faults sink.old) (S.faults sink.new))
        (S.written sink.old) (S.written sink.new) (answered result) }
{
    let config = three_peers(alloc)?;
    let mut draws = Draws::new(u64::from(count));
    let desk = play_generated(alloc, &config, &mut draws, count)?;
    write_made(gen_text(alloc, desk.table(), &mut draws, count), sink)
}

/// The desk after the generator's tape.
fn play_generated<'a>(
    alloc: Global,
    config: &'a Config,
    draws: &mut Draws,
    count: u32,
) -> Result<Desk<'a>, Memory>
    requires config { config.now ≡ three_peers }
    requires seed { draws.old.state ≡ count }
    ensures played { IfOk result (Played three_peers (tape_of_seed count)) }
    ensures draws { OnOk result (draws.new.state ≡ behind_pairs count count) }
{
    let mut desk = Desk::new(alloc, config)?;
    let mut replies = Vec::new(alloc);
    open_session(&mut desk, 1, &mut replies)?;
    open_session(&mut desk, 2, &mut replies)?;
    play_steps(&mut desk, draws, count, &mut replies)?;
    Ok(desk)
}

/// A peer comes up, and sends its OPEN and a KEEPALIVE.
fn open_session(desk: &mut Desk<'_>, peer: u16, replies: &mut Vec<u8>) -> Result<(), Memory>
    requires known { IsSome (peer_of peer desk.old.config.peers) }
    requires one_of_two { (peer ≡ 1) ⊎ (peer ≡ 2) }
    ensures config { desk.new.config ≡ desk.old.config }
    ensures played { OnOk result ((config : Config)
        → (items : List Item)
        → Played config items desk.old
        → Played config (items ++ opening peer) desk.new) }
{
    desk.up(peer)?;
    desk.octets(peer, &open_message(peer), replies)?;
    desk.octets(peer, &keepalive(), replies)
}

/// Plays the steps of the tape.
fn play_steps(
    desk: &mut Desk<'_>,
    draws: &mut Draws,
    count: u32,
    replies: &mut Vec<u8>,
) -> Result<(), Memory>
    requires seed { draws.old.state ≡ count }
    ensures draws { OnOk result (draws.new.state ≡ behind_pairs count count) }
    ensures played { OnOk result ((config : Config)
        → (items : List Item)
        → Played config items desk.old
        → Played config (items ++ steps count count) desk.new) }
{
    'steps: for _ in 0..count {
        replies.clear();
        let pair = draws.pair();
        desk.octets(pair.peer(), pair.update().as_slice(), replies)?;
    }
    Ok(())
}

/// The line, under the routes of the table.
fn gen_text(
    alloc: Global,
    table: &Table<'_>,
    draws: &mut Draws,
    count: u32,
) -> Result<Vec<u8>, Memory>
    requires seed { draws.old.state ≡ behind_pairs count count }
    ensures { IfOk result (λ text. text.items ≡ gen_text count table.now) }
{
    let rules = Compiled::build(alloc, table)?;
    let mut walked = Vec::with_capacity(alloc, rules.most())?;
    let tally = count_packets(&rules, &mut walked, draws, count);
    gen_line(alloc, count, table.count(Family::V4), tally)
}

/// Counts what becomes of the packets. No memory is taken: `walked` has room for each rule of a family.
fn count_packets<'r>(
    rules: &'r Compiled,
    walked: &mut Vec<Walked<'r>>,
    draws: &mut Draws,
    count: u32,
) -> Tally
    requires sound { IsSound rules.now }
    requires room { HasRoom rules.now (vec_capacity walked.old) }
    requires seed { draws.old.state ≡ behind_pairs count count }
    ensures passed { (admitted : AdmittedRules)
        → StandsFor admitted rules.now
        → result.passed ≡ passed_of admitted (packets_of_seed count) }
    ensures dropped { (admitted : AdmittedRules)
        → StandsFor admitted rules.now
        → result.dropped ≡ dropped_of admitted (packets_of_seed count) }
{
    let mut tally = Tally {
        passed: 0,
        dropped: 0,
    };
    'packets: for _ in 0..count {
        let packet = draws.pair().packet();
        tally = tally.with(rules, &packet, walked);
    }
    tally
}

/// The line of these counts.
fn gen_line(alloc: Global, count: u32, rules: usize, tally: Tally) -> Result<Vec<u8>, Memory>
    ensures { IfOk result (λ text. text.items ≡ gen_line count rules tally.passed tally.dropped) }
{
    let mut text = Vec::new(alloc);
    append_numbered(b"gen ", count, &mut text)?;
    append_numbered(b" rules ", rules, &mut text)?;
    append_numbered(b" pass ", tally.passed, &mut text)?;
    append_numbered(b" discard ", tally.dropped, &mut text)?;
    append(b"\n", &mut text)?;
    Ok(text)
}
