//! What is written where a desk was to be listed.

ghost use Rattle.std.specs.Prelude.{◌≡◌, ◌≤◌};
ghost use Rattle.fs_base.specs.Outside.{Rose};
ghost use Rattle.cmd_stages.specs.Refusal.{answered};
ghost use Rattle.cmd_wire.specs.{Announcing.{IsOfWire}, Listed.{TellsListing}};

use crate::lines::ended_line;
use crate::tell::{end_session, tell_closing};
use cmd_stages::{Refusal, write_text};
use fs_base::Sink;
use fs_desk::Desk;
use fs_peering::Ending;
use fs_reports::desk_text;
use std::alloc::Global;

/// Writes the listing of the desk at a session's end, in one piece; of a session that closed, or that ended before it
/// was established, the line of that.
///
/// # Errors
///
/// `Session` behind the line of a session that closed or ended, `Limit` where as many octets as the limit came,
/// `Memory` where the machine refused memory, and then nothing is written; `Outside` where the sink failed, and then a
/// front of the text is.
pub(crate) fn tell_listing<S: Sink>(
    alloc: Global,
    ending: Ending,
    desk: &Desk<'_>,
    sink: &mut S,
) -> Result<(), Refusal>
    ensures later { S.faults sink.old ≤ S.faults sink.new }
    ensures possible { IsOfWire (answered result) }
    ensures quiet { answered result ≡ 6 → sink.new ≡ sink.old }
    ensures told { TellsListing ending desk.now (Rose (S.faults sink.old) (S.faults sink.new))
        (S.written sink.old) (S.written sink.new) (answered result) }
{
    match ending {
        Ending::Done => write_listing(alloc, desk, sink),
        Ending::Closed(why) => tell_closing(alloc, why, sink),
        Ending::Ended => end_session(ended_line(), sink),
        Ending::AtLimit => Err(Refusal::Limit),
    }
}

/// Writes the listing of the desk.
fn write_listing<S: Sink>(alloc: Global, desk: &Desk<'_>, sink: &mut S) -> Result<(), Refusal>
    ensures later { S.faults sink.old ≤ S.faults sink.new }
    ensures possible { IsOfWire (answered result) }
    ensures quiet { answered result ≡ 6 → sink.new ≡ sink.old }
    ensures told { TellsListing Ending.Done desk.now (Rose (S.faults sink.old) (S.faults sink.new))
        (S.written sink.old) (S.written sink.new) (answered result) }
{
    let text = desk_text(alloc, desk)?;
    write_text(&text, sink)
}
