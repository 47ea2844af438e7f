//! What `check` says of a capture.

ghost use Rattle.std.specs.{Prelude.{◌≡◌, ◌≢◌, ◌≤◌, ◌<◌, ◌^◌, ◌⊎◌, None, IsTrue, IfOk, length}, List.{AllByRecursion}};
ghost use Rattle.fs_base.specs.{Files.{one_opening}, Outside.{Rose}, Sink.{Grew}};
ghost use Rattle.fs_pcap.specs.Head.{longest_record};
ghost use Rattle.cmd_enforce.specs.Judge.{IsOfCapture};
ghost use Rattle.cmd_enforce.specs.{Capture.{coming, own_link}, declared.tally.LinkCount.{LinkCount}};
ghost use Rattle.cmd_enforce.specs.{Counting.{Counts, SaysFault, Surveys}, Survey.{capture_verdict, survey_in}};
ghost use Rattle.cmd_stages.specs.{Refusal.{answered}, Said.{Says}};

use crate::capture::Capture;
use crate::fault::{Answer, CaptureFault};
use crate::survey_text::{fault_text, survey_text};
use crate::tally::Tally;
use cmd_stages::{CAPTURE_SLOT, Refusal, Said, open, status};
use fs_base::{Counted, Files, Link, Memory};
use fs_pcap::LONGEST_RECORD;
use std::alloc::Global;

/// Reads a capture, and says how many packets it has, when they were captured, and behind which link types; or what is
/// wrong with it, and at which octet.
///
/// # Errors
///
/// `Outside` where the file isn't there, or the files failed; `Limit` where the limit is reached and no field before it
/// is wrong; `Memory` where the machine refused memory.
pub fn survey_capture<F: Files>(
    alloc: Global,
    files: &mut F,
    name: &str,
    limit: u64,
) -> Result<Said, Refusal>
    ensures later { F.faults files.old ≤ F.faults files.new }
    ensures possible { IsOfCapture (answered result) × (answered result ≢ 5) }
    ensures accepted { IfOk result (λ said. (said.status ≡ 0) ⊎ (said.status ≡ 5)) }
    ensures said { IsTrue F.tells
        → Says (λ verdict. verdict ≡ capture_verdict limit (F.holds files.old) name.now)
        (Rose (F.faults files.old) (F.faults files.new)) result }
    ensures opens { Grew (F.opened files.old) (F.opened files.new) (one_opening 2 name.now) }
{
    open(files, CAPTURE_SLOT, name)?;
    match survey_open(alloc, files, limit)? {
        Ok(survey) => Ok(Said {
            status: status::DONE,
            text: survey_text(alloc, survey.link, &survey.tally)?,
        }),
        Err(fault) => said_of_fault(alloc, fault),
    }
}

/// What is said of a capture with a fault.
fn said_of_fault(alloc: Global, fault: CaptureFault) -> Result<Said, Refusal>
    ensures possible { IsOfCapture (answered result) × (answered result ≢ 5) }
    ensures accepted { IfOk result (λ said. said.status ≡ 5) }
    ensures said { SaysFault fault result }
{
    match fault {
        CaptureFault::Read => Err(Refusal::Outside),
        CaptureFault::Limit => Err(Refusal::Limit),
        CaptureFault::Bad { reason, place } => Ok(Said {
            status: status::CAPTURE,
            text: fault_text(alloc, reason, place)?,
        }),
    }
}

/// What is counted of a capture: its link type, where it is of the libpcap format, and its packets.
#[derive(Drop)]
struct Survey {
    link: Option<Link>,
    tally: Tally,
}

/// Counts the packets of the capture that was opened.
fn survey_open<F: Files>(alloc: Global, files: &mut F, limit: u64) -> Result<Answer<Survey>, Memory>
    ensures later { F.faults files.old ≤ F.faults files.new }
    ensures opened { F.opened files.new ≡ F.opened files.old }
    ensures surveyed { IsTrue F.tells
        → IfOk result (Surveys (survey_in limit (F.left files.old 2)) (Rose (F.faults files.old) (F.faults files.new))) }
{
    let mut buffer = vec![in alloc; 0u8; LONGEST_RECORD]?;
    let mut tally = Tally::new(alloc);
    match Capture::begin(Counted::new(CAPTURE_SLOT, limit), files) {
        Ok(mut capture) => match count_packets(files, &mut capture, &mut buffer, &mut tally)? {
            Ok(()) => Ok(Ok(Survey {
                link: capture.link(),
                tally,
            })),
            Err(fault) => Ok(Err(fault)),
        },
        Err(fault) => Ok(Err(fault)),
    }
}

/// Counts the packets that a capture is still to give.
fn count_packets<F: Files>(
    files: &mut F,
    capture: &mut Capture,
    buffer: &mut [u8],
    tally: &mut Tally,
) -> Result<Answer<()>, Memory>
    requires room { longest_record ≤ length buffer.old }
    requires open { capture.old.end ≡ None }
    requires few { tally.old.count ≤ capture.old.place }
    requires links { AllByRecursion (λ (count : LinkCount). count.packets ≤ capture.old.place) tally.old.links }
    requires within { capture.old.place ≤ capture.old.limit }
    requires fits { capture.old.limit < 2 ^ 64 }
    ensures later { F.faults files.old ≤ F.faults files.new }
    ensures opened { F.opened files.new ≡ F.opened files.old }
    ensures link { own_link capture.new.context ≡ own_link capture.old.context }
    ensures counts { IsTrue F.tells
        → IfOk result (Counts tally.old tally.new
        (coming capture.old (F.left files.old capture.old.slot))
        (Rose (F.faults files.old) (F.faults files.new))) }
{
    'packets: loop {
        match capture.next(files, buffer) {
            Ok(Some(caught)) => tally.note(caught.link, caught.time)?,
            Ok(None) => return Ok(Ok(())),
            Err(fault) => return Ok(Err(fault)),
        }
    }
}
