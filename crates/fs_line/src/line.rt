//! The lines of packets, written without memory.

ghost use Rattle.std.specs.Prelude.{◌≡◌, ◌≤◌, ◌+◌, ◌*◌, [], IsTrue, length};
ghost use Rattle.fs_line.specs.Line.{SaysDiscard, discarded_line, line_of, numbers_text, others_text, rate_text, rates_text, unread_line_of};
ghost use Rattle.fs_line.specs.{Output.{Sends}, Walked.{actions_walked, entries, numbers_walked}};

use crate::kept::{
    LINE, RATE, RULE, keep_discarded, keep_effects, keep_first, keep_other, keep_passed, keep_rate,
    keep_unread, keep_verdict, keep_whole_line,
};
use crate::output::{CAPACITY, Output};
use crate::walked::Walked;
use fs_actions::{Actions, Rate};
use fs_base::{Failed, Sink};

/// What a call answers that writes: Failed where the sink fails. A part of what was to go may then be written, and
/// nothing is pending.
type Written = Result<(), Failed>;

/// Writes the line of a packet that was judged: the record's number, from 1, the verdict, the numbers of the rules
/// that the packet has walked, and what they say beside the verdict. `walked` are these rules in the order of the walk.
///
/// Answers Failed where the sink fails. A part of what was to go may then be written, and nothing is pending.
pub fn write_packet_line<S: Sink>(
    output: &mut Output,
    sink: &mut S,
    number: u64,
    walked: &[Walked<'_>],
) -> Written
    ensures { Sends S.Sink sink.old sink.new output.old output.new (line_of number (entries walked.now)) result }
{
    match walked {
        [] => write_passed(output, sink, number),
        [rule] if discards_alone(rule.actions) => write_discarded(
            output,
            sink,
            number,
            rule.number,
        ),
        _ => write_whole_line(output, sink, number, walked),
    }
}

/// Writes the line of a packet that can't be judged: the record's number, from 1, and the reason's.
///
/// Answers Failed where the sink fails. A part of what was to go may then be written, and nothing is pending.
pub fn write_unread_line<S: Sink>(
    output: &mut Output,
    sink: &mut S,
    number: u64,
    reason: u8,
) -> Written
    ensures { Sends S.Sink sink.old sink.new output.old output.new (unread_line_of number reason) result }
{
    output.make_room(sink, LINE)?;
    keep_unread(output, number, reason);
    Ok(())
}

/// Writes the line of a packet that walked no rule.
fn write_passed<S: Sink>(output: &mut Output, sink: &mut S, number: u64) -> Written
    ensures { Sends S.Sink sink.old sink.new output.old output.new (line_of number []) result }
{
    output.make_room(sink, LINE)?;
    keep_passed(output, number);
    Ok(())
}

/// Writes the line of a packet that walked one rule, which discards it and says no more.
fn write_discarded<S: Sink>(output: &mut Output, sink: &mut S, number: u64, rule: usize) -> Written
    ensures { Sends S.Sink sink.old sink.new output.old output.new (discarded_line number rule) result }
{
    output.make_room(sink, LINE)?;
    keep_discarded(output, number, rule);
    Ok(())
}

/// Whether each action discards, and there is one.
fn discards_alone(actions: &Actions) -> bool
    ensures { IsTrue result → SaysDiscard actions.now }
{
    let actions = actions.as_slice();
    for action in actions {
        if !action.discards() {
            return false;
        }
    }
    !actions.is_empty()
}

/// Writes the line of a packet that walked any rules.
fn write_whole_line<S: Sink>(
    output: &mut Output,
    sink: &mut S,
    number: u64,
    walked: &[Walked<'_>],
) -> Written
    ensures { Sends S.Sink sink.old sink.new output.old output.new (line_of number (entries walked.now)) result }
{
    let octets = longest_line(walked);
    if octets > CAPACITY {
        return write_long_line(output, sink, number, walked);
    }
    output.make_room(sink, octets)?;
    keep_whole_line(output, number, walked);
    Ok(())
}

/// How many octets the line of a packet takes at most.
fn longest_line(walked: &[Walked<'_>]) -> usize
    ensures { result ≤ CAPACITY
        → LINE + (RULE * length walked.now + RATE * length (actions_walked (entries walked.now))) ≤ result }
{
    let mut octets = LINE;
    for rule in walked {
        let rates = rule.actions.as_slice().len().saturating_mul(RATE);
        octets = octets.saturating_add(RULE).saturating_add(rates);
    }
    octets
}

/// Writes a line that may be longer than the buffer, and makes room for each of its parts.
fn write_long_line<S: Sink>(
    output: &mut Output,
    sink: &mut S,
    number: u64,
    walked: &[Walked<'_>],
) -> Written
    ensures { Sends S.Sink sink.old sink.new output.old output.new (line_of number (entries walked.now)) result }
{
    output.make_room(sink, LINE)?;
    keep_verdict(output, number, walked);
    write_rules(output, sink, walked)?;
    output.make_room(sink, LINE)?;
    keep_effects(output, walked);
    write_rates(output, sink, walked)?;
    output.put(sink, b"\n")
}

/// Writes the numbers of the rules walked, from 1.
fn write_rules<S: Sink>(output: &mut Output, sink: &mut S, walked: &[Walked<'_>]) -> Written
    ensures { Sends S.Sink sink.old sink.new output.old output.new
        (numbers_text (numbers_walked (entries walked.now))) result }
{
    let [first, others @ ..] = walked else {
        return Ok(());
    };
    output.make_room(sink, LINE)?;
    keep_first(output, first.number);
    write_others(output, sink, others)
}

/// Writes the numbers, from 1, of the rules walked after the first.
fn write_others<S: Sink>(output: &mut Output, sink: &mut S, others: &[Walked<'_>]) -> Written
    ensures { Sends S.Sink sink.old sink.new output.old output.new
        (others_text (numbers_walked (entries others.now))) result }
{
    for rule in others {
        output.make_room(sink, RULE)?;
        keep_other(output, rule.number);
    }
    Ok(())
}

/// Writes each rate of the rules walked that lets something pass.
fn write_rates<S: Sink>(output: &mut Output, sink: &mut S, walked: &[Walked<'_>]) -> Written
    ensures { Sends S.Sink sink.old sink.new output.old output.new
        (rates_text (actions_walked (entries walked.now))) result }
{
    for rule in walked {
        write_rates_of(output, sink, rule.actions)?;
    }
    Ok(())
}

/// Writes each rate of one rule that lets something pass.
fn write_rates_of<S: Sink>(output: &mut Output, sink: &mut S, actions: &Actions) -> Written
    ensures { Sends S.Sink sink.old sink.new output.old output.new (rates_text actions.now) result }
{
    for action in actions.as_slice() {
        if let Some(rate) = action.limit() {
            write_rate(output, sink, rate)?;
        }
    }
    Ok(())
}

/// Writes a rate.
fn write_rate<S: Sink>(output: &mut Output, sink: &mut S, rate: Rate) -> Written
    ensures { Sends S.Sink sink.old sink.new output.old output.new (rate_text rate) result }
{
    output.make_room(sink, RATE)?;
    keep_rate(output, rate);
    Ok(())
}
