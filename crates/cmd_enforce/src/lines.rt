//! The lines of packets.

ghost use Rattle.std.specs.Prelude.{◌≡◌, ◌≤◌, ◌<◌, ◌+◌, ◌^◌, ◌⊎◌, [], IsTrue, IfOk, vec_capacity};
ghost use Rattle.cmd_enforce.specs.{Judge.{AdmittedRules, packet_text, rules_for, seen_of}, Matcher.{IsReady, StandsFor}};
ghost use Rattle.cmd_stages.specs.Writing.{Finishes};
ghost use Rattle.fs_base.specs.Outside.{Rose};
ghost use Rattle.fs_line.specs.{Line.{line_of}, Output.{Sends}};
ghost use Rattle.fs_rules.specs.Walk.{walk_of};

use crate::walk::walk_packet;
use cmd_stages::Refusal;
use fs_base::{Failed, Link, Memory, Sink};
use fs_compile::Compiled;
use fs_line::{Output, Walked, write_packet_line, write_unread_line};
use fs_packet::{Unread, View, view};
use std::alloc::Global;

/// The output of lines, and the number of the last one.
#[derive(Drop)]
pub(crate) struct Lines {
    pub(crate) output: Output,
    pub(crate) number: u64,
}

impl Lines {
    pub(crate) fn new(alloc: Global) -> Result<Lines, Memory>
        ensures { IfOk result (λ lines. (lines.output ≡ []) × (lines.number ≡ 0)) }
    {
        Ok(Lines {
            output: Output::new(alloc)?,
            number: 0,
        })
    }

    /// Writes out the lines that are pending, unless the next packet is at hand: where the capture is waited for,
    /// nothing is held back.
    #[inline(always)]
    pub(crate) fn leave<S: Sink>(&mut self, at_hand: bool, sink: &mut S) -> Result<(), Failed>
        ensures number { self.new.number ≡ self.old.number }
        ensures later { S.faults sink.old ≤ S.faults sink.new }
        ensures sends { Sends S.Sink sink.old sink.new self.old.output self.new.output [] result }
        ensures none_held { IsTrue at_hand ⊎ (self.new.output ≡ []) }
    {
        if at_hand {
            return Ok(());
        }
        self.output.flush(sink)
    }

    /// Writes out the lines that are pending, and hands on how judging ended.
    pub(crate) fn finish<S: Sink>(
        &mut self,
        judged: Result<(), Refusal>,
        sink: &mut S,
    ) -> Result<(), Refusal>
        ensures later { S.faults sink.old ≤ S.faults sink.new }
        ensures idle { self.old.output ≡ [] → sink.new ≡ sink.old }
        ensures finishes { Finishes self.old.output (Rose (S.faults sink.old) (S.faults sink.new))
            (S.written sink.old) (S.written sink.new) judged result }
    {
        self.output.flush(sink)?;
        judged
    }
}

/// Writes the line of the next packet. No memory is taken: there is room for each rule of its family.
pub(crate) fn judge_packet<'r, S: Sink>(
    rules: &'r Compiled,
    link: Option<Link>,
    octets: &[u8],
    walked: &mut Vec<Walked<'r>>,
    lines: &mut Lines,
    sink: &mut S,
) -> Result<(), Failed>
    requires ready { IsReady rules.now (vec_capacity walked.old) }
    requires fits { lines.old.number + 1 < 2 ^ 64 }
    ensures room { vec_capacity walked.new ≡ vec_capacity walked.old }
    ensures number { lines.new.number ≡ lines.old.number + 1 }
    ensures later { S.faults sink.old ≤ S.faults sink.new }
    ensures sends { (admitted : AdmittedRules)
        → StandsFor admitted rules.now
        → Sends S.Sink sink.old sink.new lines.old.output lines.new.output
        (packet_text (lines.old.number + 1) admitted link octets.now) result }
{
    lines.number += 1;
    match read_packet(link, octets) {
        Ok(view) => write_walk(rules, &view, walked, lines, sink),
        Err(unread) => write_unread_line(&mut lines.output, sink, lines.number, unread.number()),
    }
}

/// The view of a packet behind this link type.
///
/// # Errors
///
/// Why it isn't read: so where the link type isn't known.
#[inline(always)]
fn read_packet(link: Option<Link>, octets: &[u8]) -> Result<View<'_>, Unread>
    ensures { result ≡ seen_of link octets.now }
{
    match link {
        Some(link) => view(link, octets),
        None => Err(Unread::Foreign),
    }
}

/// Writes the line of a packet that could be read, by the rules that it walks.
fn write_walk<'r, S: Sink>(
    rules: &'r Compiled,
    view: &View<'_>,
    walked: &mut Vec<Walked<'r>>,
    lines: &mut Lines,
    sink: &mut S,
) -> Result<(), Failed>
    requires ready { IsReady rules.now (vec_capacity walked.old) }
    ensures room { vec_capacity walked.new ≡ vec_capacity walked.old }
    ensures number { lines.new.number ≡ lines.old.number }
    ensures later { S.faults sink.old ≤ S.faults sink.new }
    ensures sends { (admitted : AdmittedRules)
        → StandsFor admitted rules.now
        → Sends S.Sink sink.old sink.new lines.old.output lines.new.output
        (line_of lines.old.number (walk_of view.now (rules_for view.now.family admitted))) result }
{
    walk_packet(rules, view, walked);
    write_packet_line(&mut lines.output, sink, lines.number, walked)
}
