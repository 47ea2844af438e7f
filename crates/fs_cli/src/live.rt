//! The program beside a gate: the commands that stay.

ghost use Rattle.std.specs.Prelude.{◌≡◌, ◌≤◌, ◌^◌, ◌∷◌, [], IfSome, map, option_map, string_bytes};
ghost use Rattle.fs_cli.specs.{Live.{LivePromises, beside, limit_of, live_form_of, live_shown}, Program.{objects}};

use crate::command::is_name;
use crate::program::{LIMIT, answer_of, run_within};
use cmd_wire::{Recording, Upkeep, keep_rules, record_sessions};
use fs_base::{Clock, Files, Gate, Sink, Wire};
use std::alloc::Global;

/// Runs the command that the words ask for, as `run` does, or one that stays: `record`, which listens through the gate, or
/// `keep`, which dials through it. These answer 1 for a fault outside, 3 for the configuration, 6 for want of memory, and 7
/// where the tape would become as long as the limit, or the other end gave as many octets.
pub fn run_live<F: Files, S: Sink, W: Wire, C: Clock, G: Gate>(
    alloc: Global,
    words: &[String],
    files: &mut F,
    sink: &mut S,
    wire: &mut W,
    clock: &mut C,
    gate: &mut G,
) -> u8
    ensures { LivePromises (2 ^ 40)
        (beside G.Gate gate.old gate.new
        (objects F.Files S.Sink W.Wire C.Clock
        files.old files.new sink.old sink.new wire.old wire.new clock.old clock.new))
        (map string_bytes words.now) result }
{
    run_live_within(alloc, words, LIMIT, files, sink, wire, clock, gate)
}

/// The same over inputs of fewer than `limit` octets, as `run_within`, and a tape that stays shorter.
pub fn run_live_within<F: Files, S: Sink, W: Wire, C: Clock, G: Gate>(
    alloc: Global,
    words: &[String],
    limit: u64,
    files: &mut F,
    sink: &mut S,
    wire: &mut W,
    clock: &mut C,
    gate: &mut G,
) -> u8
    requires { 1 ≤ limit }
    ensures { LivePromises limit
        (beside G.Gate gate.old gate.new
        (objects F.Files S.Sink W.Wire C.Clock
        files.old files.new sink.old sink.new wire.old wire.new clock.old clock.new))
        (map string_bytes words.now) result }
{
    match staying_of(words, limit) {
        Some(Staying::Record(order)) => answer_of(record_sessions(
            alloc, files, sink, gate, &order,
        )),
        Some(Staying::Keep(order)) => answer_of(keep_rules(alloc, files, sink, gate, &order)),
        None => run_within(alloc, words, limit, files, sink, wire, clock),
    }
}

/// A command that stays.
#[derive(Clone, Copy, Drop)]
enum Staying<'w> {
    Record(Recording<'w>),
    Keep(Upkeep<'w>),
}

/// The command that stays, where the words ask for one.
fn staying_of(words: &[String], limit: u64) -> Option<Staying<'_>>
    ensures shown { option_map live_shown result ≡ live_form_of (map string_bytes words.now) }
    ensures limit { IfSome result (λ order. limit_of order ≡ limit) }
{
    match words {
        [word, config, address] => recording(word, config, address, limit),
        [word, config, rules, address] => upkeep(word, config, rules, address, limit),
        _ => None,
    }
}

/// To record, where the word asks for it.
fn recording<'w>(word: &str, config: &'w str, address: &'w str, limit: u64) -> Option<Staying<'w>>
    ensures shown { option_map live_shown result
        ≡ live_form_of (word.now ∷ config.entry.now ∷ address.entry.now ∷ []) }
    ensures limit { IfSome result (λ order. limit_of order ≡ limit) }
{
    if word != "record" || !is_name(config) || !is_name(address) {
        return None;
    }
    Some(Staying::Record(Recording {
        config,
        address,
        limit,
    }))
}

/// To keep rules, where the word asks for it.
fn upkeep<'w>(
    word: &str,
    config: &'w str,
    rules: &'w str,
    address: &'w str,
    limit: u64,
) -> Option<Staying<'w>>
    ensures shown { option_map live_shown result
        ≡ live_form_of (word.now ∷ config.entry.now ∷ rules.entry.now ∷ address.entry.now ∷ []) }
    ensures limit { IfSome result (λ order. limit_of order ≡ limit) }
{
    if word != "keep" || !is_name(config) || !is_name(rules) || !is_name(address) {
        return None;
    }
    Some(Staying::Keep(Upkeep {
        config,
        rules,
        address,
        limit,
    }))
}
