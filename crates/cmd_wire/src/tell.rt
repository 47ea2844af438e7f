//! What is written of a session's end.

ghost use Rattle.std.specs.Prelude.{◌≡◌, ◌≢◌, ◌≤◌};
ghost use Rattle.fs_base.specs.Outside.{Rose};
ghost use Rattle.cmd_stages.specs.Refusal.{Answers, answered, verdict_with};
ghost use Rattle.cmd_wire.specs.{Announcing.{IsOfWire, verdict_of}, Lines.{closing_line}};

use crate::lines::{closing_line, ended_line, sent_line};
use cmd_stages::{Refusal, write_text};
use fs_base::Sink;
use fs_peering::Ending;
use fs_speaker::Closed;
use std::alloc::Global;

/// Writes the line of an announcement's end, in one piece: of so many rules that were announced, or of a session that
/// closed or ended before them.
///
/// # Errors
///
/// `Session` behind the line of a session that closed or ended, `Limit` where as many octets as the limit came,
/// `Memory` where the machine refused memory, and then nothing is written; `Outside` where the sink failed, and then a
/// front of the line is.
pub(crate) fn tell_ending<S: Sink>(
    alloc: Global,
    ending: Ending,
    count: usize,
    sink: &mut S,
) -> Result<(), Refusal>
    ensures later { S.faults sink.old ≤ S.faults sink.new }
    ensures possible { IsOfWire (answered result) }
    ensures quiet { answered result ≡ 6 → sink.new ≡ sink.old }
    ensures told { Answers (verdict_of ending count) (Rose (S.faults sink.old) (S.faults sink.new))
        (S.written sink.old) (S.written sink.new) (answered result) }
{
    match ending {
        Ending::Done => tell_sent(alloc, count, sink),
        Ending::Closed(why) => tell_closing(alloc, why, sink),
        Ending::Ended => end_session(ended_line(), sink),
        Ending::AtLimit => Err(Refusal::Limit),
    }
}

/// Writes the line of so many rules that were announced.
fn tell_sent<S: Sink>(alloc: Global, count: usize, sink: &mut S) -> Result<(), Refusal>
    ensures later { S.faults sink.old ≤ S.faults sink.new }
    ensures possible { IsOfWire (answered result) }
    ensures quiet { answered result ≡ 6 → sink.new ≡ sink.old }
    ensures told { Answers (verdict_of Ending.Done count) (Rose (S.faults sink.old) (S.faults sink.new))
        (S.written sink.old) (S.written sink.new) (answered result) }
{
    let line = sent_line(alloc, count)?;
    write_text(&line, sink)
}

/// Writes the line of a session that closed, and answers that.
pub(crate) fn tell_closing<S: Sink>(alloc: Global, why: Closed, sink: &mut S) -> Result<(), Refusal>
    ensures later { S.faults sink.old ≤ S.faults sink.new }
    ensures possible { IsOfWire (answered result) }
    ensures quiet { answered result ≡ 6 → sink.new ≡ sink.old }
    ensures told { Answers (verdict_with 8 (closing_line why)) (Rose (S.faults sink.old) (S.faults sink.new))
        (S.written sink.old) (S.written sink.new) (answered result) }
{
    let line = closing_line(alloc, why)?;
    end_session(&line, sink)
}

/// Writes the line of a session that closed or ended, and answers that.
pub(crate) fn end_session<S: Sink>(line: &[u8], sink: &mut S) -> Result<(), Refusal>
    ensures later { S.faults sink.old ≤ S.faults sink.new }
    ensures possible { IsOfWire (answered result) }
    ensures known { answered result ≢ 6 }
    ensures told { Answers (verdict_with 8 line.now) (Rose (S.faults sink.old) (S.faults sink.new))
        (S.written sink.old) (S.written sink.new) (answered result) }
{
    write_text(line, sink)?;
    Err(Refusal::Session)
}
