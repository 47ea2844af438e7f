//! The packets that are judged: their capture opened, and read packet by packet.

ghost use Rattle.std.specs.Prelude.{◌≡◌, ◌≤◌, ◌<◌, ◌^◌, None, IsTrue, IfOk, IfSome, MatchResult, length};
ghost use Rattle.fs_base.specs.{Files.{OnlySlot, one_opening}, Sink.{Grew}, Outside.{Rose}};
ghost use Rattle.cmd_enforce.specs.{Capture.{coming}, Judge.{capture_stage, Ceases, IsAtPacket, Yields}, Moments.{EndsBefore, IsCaptureOpened}};
ghost use Rattle.fs_pcap.specs.Head.{longest_record};
ghost use Rattle.cmd_stages.specs.Refusal.{answered};

use crate::capture::Capture;
use crate::caught::Caught;
use crate::fault::CaptureFault;
use cmd_stages::{CAPTURE_SLOT, Refusal, open};
use fs_base::{Counted, Files};

/// Opens the capture, up to its first packet.
///
/// # Errors
///
/// `Outside` where the file isn't there, or the files failed; `Capture` where its front has a fault; `Limit` where the
/// limit is reached within it.
pub(crate) fn open_capture<F: Files>(
    files: &mut F,
    name: &str,
    limit: u64,
) -> Result<Capture, Refusal>
    ensures later { F.faults files.old ≤ F.faults files.new }
    ensures possible { IsAtPacket (answered result) }
    ensures slot { IfOk result (λ capture. capture.slot ≡ 2) }
    ensures end { IfOk result (λ capture. capture.end ≡ None) }
    ensures moment { IfOk result (λ capture. capture.moment ≡ 0) }
    ensures within { IfOk result (λ capture. (capture.place ≤ capture.limit) × (capture.limit < 2 ^ 64)) }

    ensures opened { IsTrue F.tells
        → MatchResult result
        (IsCaptureOpened limit (F.holds files.old) name.now (F.left files.new 2))
        (EndsBefore (capture_stage limit (F.holds files.old) name.now)
        (Rose (F.faults files.old) (F.faults files.new))) }
    ensures opens { Grew (F.opened files.old) (F.opened files.new) (one_opening 2 name.now) }
    ensures others { OnlySlot F.tells F.left F.holds 2 files.old files.new }
{
    open(files, CAPTURE_SLOT, name)?;
    match Capture::begin(Counted::new(CAPTURE_SLOT, limit), files) {
        Ok(capture) => Ok(capture),
        Err(CaptureFault::Read) => Err(Refusal::Outside),
        Err(CaptureFault::Limit) => Err(Refusal::Limit),
        Err(CaptureFault::Bad { .. }) => Err(Refusal::Capture),
    }
}

/// The capture's next packet, or None at its end. Its octets stand at the front of the buffer.
///
/// # Errors
///
/// `Outside` where the files failed, `Capture` where the capture has a fault, `Limit` where the limit is reached.
#[inline(always)]
pub(crate) fn next_packet<F: Files>(
    files: &mut F,
    capture: &mut Capture,
    buffer: &mut [u8],
) -> Result<Option<Caught>, Refusal>
    requires room { longest_record ≤ length buffer.old }
    requires open { capture.old.end ≡ None }
    ensures possible { IsAtPacket (answered result) }
    ensures later { F.faults files.old ≤ F.faults files.new }
    ensures opened { F.opened files.new ≡ F.opened files.old }
    ensures slot { capture.new.slot ≡ capture.old.slot }
    ensures limit { capture.new.limit ≡ capture.old.limit }
    ensures times { IfOk result (λ found. IfSome found (λ caught.
        (capture.new.moment ≡ caught.moment) × (capture.old.moment ≤ capture.new.moment))) }
    ensures open { IfOk result (λ found. IfSome found (λ _. capture.new.end ≡ None)) }
    ensures grows { IfOk result (λ found. IfSome found (λ caught.
        (capture.old.place < capture.new.place)
        × (capture.new.place ≤ capture.new.limit)
        × (caught.taken ≤ longest_record))) }

    ensures gives { IsTrue F.tells
        → MatchResult result
        (Yields (coming capture.old (F.left files.old capture.old.slot))
        (coming capture.new (F.left files.new capture.old.slot)) buffer.new)
        (Ceases (coming capture.old (F.left files.old capture.old.slot))
        (Rose (F.faults files.old) (F.faults files.new))) }
    ensures others { OnlySlot F.tells F.left F.holds capture.old.slot files.old files.new }
{
    match capture.next(files, buffer) {
        Ok(found) => Ok(found),
        Err(CaptureFault::Read) => Err(Refusal::Outside),
        Err(CaptureFault::Limit) => Err(Refusal::Limit),
        Err(CaptureFault::Bad { .. }) => Err(Refusal::Capture),
    }
}
