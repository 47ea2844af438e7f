//! The packets of a capture, each judged by the rules that the tape admits at its moment.

ghost use Rattle.std.specs.{Prelude.{◌≡◌, ◌≤◌, ◌<◌, ◌^◌, ◌⊎◌, List, None, true, IsTrue, IfOk, IfSome, MatchResult, length}, Option.{is_some}};
ghost use Rattle.fs_base.specs.Outside.{Rose};
ghost use Rattle.cmd_enforce.specs.Capture.{IsRead, coming, recorded};
ghost use Rattle.cmd_enforce.specs.Judge.{admitted_rules, EndsTape, found_behind, IsOfCapture, IsOfPackets};
ghost use Rattle.cmd_enforce.specs.Matcher.{IsCompiled, StandsFor};
ghost use Rattle.cmd_enforce.specs.Moments.{AnswersAt, BreaksOff, Follows, Judged, Judging, WroteJudged, judging, outcome, progress};
ghost use Rattle.fs_pcap.specs.Head.{longest_record};
ghost use Rattle.cmd_stages.specs.{Play.{IsOpenOrDone}, Player.{Stands, due_item}, Refusal.{Found, answered}};
ghost use Rattle.fs_tape.specs.Tape.{Timed};

use crate::capture::Capture;
use crate::caught::Caught;
use crate::following::Following;
use crate::lines::{Lines, judge_packet};
use crate::packets::next_packet;
use cmd_stages::{Player, Refusal};
use fs_base::{Files, Sink};
use fs_desk::same_routes;
use fs_pcap::LONGEST_RECORD;
use std::alloc::Global;
use std::mem::forget;

/// Writes a line for each packet of the capture, by the rules that the tape admits at the packet's moment. All lines
/// are handed to the sink before it returns. The table of the tape's routes isn't freed: the program ends after it.
///
/// # Errors
///
/// `Outside` where the files or the sink failed; `Capture` where the capture has a fault, after the lines of the
/// packets before it; `Limit` where it has too many octets; what ends the tape, and `Memory` where the machine refused
/// memory, after the lines of the packets that were judged before. Where nothing of the tape is ahead, memory is
/// wanting before the first packet is read, or not at all.
pub(crate) fn judge_capture<F: Files, S: Sink>(
    alloc: Global,
    files: &mut F,
    sink: &mut S,
    capture: &mut Capture,
    player: Player<'_>,
) -> Result<(), Refusal>
    requires slot { capture.old.slot ≡ 2 }
    requires open { capture.old.end ≡ None }
    requires moment { capture.old.moment ≡ 0 }
    requires within { capture.old.place ≤ capture.old.limit }
    requires fits { capture.old.limit < 2 ^ 64 }
    requires tape { player.tape.slot ≡ 1 }
    requires ends { IsOpenOrDone player.tape player.ahead }
    ensures files_later { F.faults files.old ≤ F.faults files.new }
    ensures sink_later { S.faults sink.old ≤ S.faults sink.new }
    ensures possible { IsOfPackets (answered result) }
    ensures opened { F.opened files.new ≡ F.opened files.old }
    ensures unwritten { player.entry.ahead ≡ None
        → answered result ≡ 6
        → (sink.new ≡ sink.old) × (files.new ≡ files.old) × (capture.new ≡ capture.old) }

    ensures judges { IsTrue F.tells
        → (items : List Timed)
        → Stands items 0 player.entry (F.left files.old 1)
        → AnswersAt player.entry.desk.config items
        (Found (recorded (coming capture.old (F.left files.old 2))))
        (Rose (F.faults files.old) (F.faults files.new) ⊎ Rose (S.faults sink.old) (S.faults sink.new))
        (S.written sink.old)
        (S.written sink.new)
        (answered result) }
    ensures wanting { IsTrue F.tells
        → answered result ≡ 6
        → (items : List Timed)
        → Stands items 0 player.entry (F.left files.old 1)
        → WroteJudged player.entry.desk.config items
        (coming capture.old (F.left files.old 2)).0
        (coming capture.new (F.left files.new 2)).0
        (S.written sink.old) (S.written sink.new) }
{
    let mut buffer = vec![in alloc; 0u8; LONGEST_RECORD]?;
    let mut lines = Lines::new(alloc)?;
    let mut following = Following::new(alloc, player)?;
    let judged = judge_packets(
        files,
        capture,
        &mut following,
        &mut buffer,
        &mut lines,
        sink,
    );
    forget(following); // the program ends here: no route is given back by itself
    lines.finish(judged, sink)
}

/// Judges the packets of the capture. Memory is taken before the first one, and around each one before which items of the
/// tape are played.
fn judge_packets<F: Files, S: Sink>(
    files: &mut F,
    capture: &mut Capture,
    following: &mut Following<'_>,
    buffer: &mut [u8],
    lines: &mut Lines,
    sink: &mut S,
) -> Result<(), Refusal>
    requires reads { IsRead capture.old buffer.old }
    requires tape { following.old.player.tape.slot ≡ 1 }
    requires ends { IsOpenOrDone following.old.player.tape following.old.player.ahead }
    requires compiled { IsCompiled following.old.player.desk.held following.old.rules }
    requires first { lines.old.number ≡ 0 }
    ensures files_later { F.faults files.old ≤ F.faults files.new }
    ensures sink_later { S.faults sink.old ≤ S.faults sink.new }
    ensures possible { IsOfPackets (answered result) }
    ensures opened { F.opened files.new ≡ F.opened files.old }
    ensures ends { EndsTape following.new.player result }
    ensures early { following.old.player.ahead ≡ None
        → answered result ≡ 6
        → (sink.new ≡ sink.old)
        × (files.new ≡ files.old)
        × (capture.new ≡ capture.old)
        × (lines.new.output ≡ lines.old.output) }

    ensures judged { IsTrue F.tells
        → (items : List Timed)
        → Stands items capture.old.moment following.old.player (F.left files.old 1)
        → Judged (judging following.old.player.desk.config items
        (coming capture.old (F.left files.old 2)) (S.written sink.old) lines.old.output)
        (outcome (coming capture.new (F.left files.new 2)).0 (S.written sink.new) lines.new.output)
        (Rose (F.faults files.old) (F.faults files.new) ⊎ Rose (S.faults sink.old) (S.faults sink.new))
        result }
{
    same_routes(); // what is held at one moment is one list
    'changes: while let Some(caught) = judge_on(files, capture, following, buffer, lines, sink)? {
        following.follow(files, caught.moment)?;
        let rules = &following.rules;
        let mut walked = Vec::with_capacity(following.alloc, rules.most())?;
        let octets = &buffer[..caught.taken];
        judge_packet(rules, caught.link, octets, &mut walked, lines, sink)?;
    }
    Ok(())
}

/// Judges packets while the tape stands still: those of the capture up to the first before which an item is to be
/// played, which is handed back. `None` at the capture's end. All memory is taken before the first of them. Lines that
/// are pending leave before the capture is waited for.
fn judge_on<F: Files, S: Sink>(
    files: &mut F,
    capture: &mut Capture,
    following: &Following<'_>,
    buffer: &mut [u8],
    lines: &mut Lines,
    sink: &mut S,
) -> Result<Option<Caught>, Refusal>
    requires reads { IsRead capture.old buffer.old }
    requires stands { StandsFor (admitted_rules following.now.player.desk.held) following.now.rules }
    requires number { lines.old.number ≤ capture.old.place }
    ensures files_later { F.faults files.old ≤ F.faults files.new }
    ensures sink_later { S.faults sink.old ≤ S.faults sink.new }
    ensures possible { IsOfCapture (answered result) }
    ensures opened { F.opened files.new ≡ F.opened files.old }
    ensures slot { capture.new.slot ≡ capture.old.slot }
    ensures limit { capture.new.limit ≡ capture.old.limit }
    ensures early { answered result ≡ 6
        → (sink.new ≡ sink.old)
        × (files.new ≡ files.old)
        × (capture.new ≡ capture.old)
        × (lines.new.output ≡ lines.old.output) }
    ensures found { IfOk result (λ found. IfSome found (λ caught.
        (capture.new.end ≡ None)
        × (capture.old.place < capture.new.place)
        × (capture.new.place ≤ capture.new.limit)
        × (lines.new.number < capture.new.place)
        × (caught.taken ≤ longest_record)
        × (capture.new.moment ≡ caught.moment)
        × (is_some (due_item following.now.player.ahead following.now.player.tape.moment caught.moment) ≡ true))) }

    ensures judged { IsTrue F.tells
        → (work : Judging)
        → work.config ≡ following.now.player.desk.config
        → Stands work.items capture.old.moment following.now.player (F.left files.old 1)
        → Follows work (progress (coming capture.old (F.left files.old 2))
        (S.written sink.old) lines.old.output lines.old.number)
        → MatchResult result
        (λ found.
        IfSome found (λ _. Stands work.items capture.new.moment following.now.player (F.left files.new 1))
        × Follows work (progress (found_behind found buffer.new (coming capture.new (F.left files.new 2)))
        (S.written sink.new) lines.new.output lines.new.number))
        (BreaksOff work (outcome (coming capture.new (F.left files.new 2)).0 (S.written sink.new) lines.new.output)
        (Rose (F.faults files.old) (F.faults files.new) ⊎ Rose (S.faults sink.old) (S.faults sink.new))) }
{
    same_routes(); // what is held at one moment is one list
    let rules = &following.rules;
    let mut walked = Vec::with_capacity(following.alloc, rules.most())?;
    'packets: loop {
        lines.leave(capture.is_at_hand(files), sink)?;
        let Some(caught) = next_packet(files, capture, buffer)? else {
            return Ok(None);
        };
        if following.player.is_due(caught.moment) {
            return Ok(Some(caught));
        }
        let octets = &buffer[..caught.taken];
        judge_packet(rules, caught.link, octets, &mut walked, lines, sink)?;
    }
}
