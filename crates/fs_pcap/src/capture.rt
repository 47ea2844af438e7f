//! A capture, read record by record.
ghost use Rattle.std.specs.{Prelude.{◌≡◌, ◌≤◌, ◌++◌, [], None, IsTrue, IfOk, drop, length}, Result.{IsErrOf}};
ghost use Rattle.fs_base.specs.{Files.{OnlySlot}, Link.{link_number}, Outside.{Rose}, Parts.{with_part}};
ghost use Rattle.fs_input.specs.{Opening.{Opens}, NextRecord.{GivesNext}};
ghost use Rattle.fs_pcap.specs.{Head.{longest_record}, Capture.{Grows, Times, heading_of, packet_from}};

use crate::fault::{CaptureFault, CaptureReason};
use crate::head::{Context, HEAD_SIZE};
use crate::header::{HEADER_SIZE, Heading, read_header};
use fs_base::{Counted, Files, Link, fill};
use fs_input::{Ended, next_record, opened};
use std::marker::Model;

/// A captured packet. `taken` octets of it were captured, of `original`; they stand at the front of the buffer that
/// was handed in. `fraction` counts microseconds or nanoseconds, as the capture's magic says. `time` is the seconds and
/// the fraction, in nanoseconds since the start of 1970; `moment` is the greatest time of the capture's records up to
/// and with this one.
#[derive(Clone, Copy, Debug, PartialEq, Eq, Drop)]
pub struct Caught {
    pub seconds: u32,
    pub fraction: u32,
    pub taken: usize,
    pub original: u32,
    pub time: u64,
    pub moment: u64,
}

/// A capture that is read from a slot.
#[derive(Drop)]
pub struct Capture {
    counted: Counted,
    end: Option<Ended<CaptureReason>>,
    heading: Heading,
    moment: u64,
}

impl Model for Capture {
    ghost use Rattle.std.specs.Prelude.{◌≡◌, []};
    ghost use Rattle.fs_pcap.specs.Capture.{CaptureState};

    ghost Value = { CaptureState };

    ghost view = { λ capture.
        record {
          slot = capture.counted.slot;
          limit = capture.counted.limit;
          place = capture.counted.taken;
          end = capture.end;
          heading = capture.heading;
          moment = capture.moment;
        } };

    ghost invariant = { λ capture. capture.counted.back ≡ [] };
}

impl Capture {
    ghost use Rattle.fs_input.specs.declared.fault.Fault.TheVariants.{Read};
    ghost use Rattle.fs_pcap.specs.Capture.{CaptureState, coming};

    /// Reads the header, up to the limit. Octets of its front may have been put back.
    ///
    /// # Errors
    ///
    /// `Magic`, `Version` or `Link`, as soon as the field is read; `Cut` where there are fewer than 24 octets; `Limit`
    /// where these are all that the limit allows; `Read` where the files failed.
    pub fn begin<F: Files>(mut counted: Counted, files: &mut F) -> Result<Capture, CaptureFault>
        requires start { counted.taken ≡ 0 }
        ensures later { F.faults files.old ≤ F.faults files.new }
        ensures read { IsErrOf result Read → Rose (F.faults files.old) (F.faults files.new) }
        ensures slot { IfOk result (λ capture. capture.slot ≡ counted.slot) }
        ensures limit { IfOk result (λ capture. capture.limit ≡ counted.limit) }
        ensures place { IfOk result (λ capture. capture.place ≡ 24) }
        ensures end { IfOk result (λ capture. capture.end ≡ None) }
        ensures moment { IfOk result (λ capture. capture.moment ≡ 0) }
        ensures within { IfOk result (λ capture. capture.place ≤ capture.limit) }

        ensures opens { IsTrue F.tells
            → Opens
            (λ (capture : CaptureState). capture.heading)
            (heading_of counted.limit (counted.back ++ F.left files.old counted.slot))
            (drop 24 (counted.back ++ F.left files.old counted.slot))
            (F.left files.new counted.slot)
            result }
        ensures opened { F.opened files.new ≡ F.opened files.old }
        ensures others { OnlySlot F.tells F.left F.holds counted.slot files.old files.new }
    {
        let mut header = [0u8; HEADER_SIZE];
        let Ok(count) = fill(&mut counted, files, &mut header) else {
            return Err(CaptureFault::Read);
        };
        match opened(read_header(&header[..count]), CaptureReason::Cut, &counted) {
            Ok(heading) => Ok(Capture {
                counted,
                end: None,
                heading,
                moment: 0,
            }),
            Err(fault) => Err(fault),
        }
    }

    /// The number of the link type: the low 16 bits of the header's link field. It is that of one of the six link types.
    pub fn link(&self) -> u32
        ensures { result ≡ link_number self.now.heading.link }
    {
        self.heading.link.number()
    }

    /// The link type: what stands before each packet.
    pub fn link_type(&self) -> Link
        ensures { result ≡ self.now.heading.link }
    {
        self.heading.link
    }

    /// Whether `next` answers without a call to the outside: the next record stands whole in what the slot gives at
    /// once. No clause says when: it decides only when lines leave.
    #[inline(always)]
    pub fn is_at_hand<F: Files>(&self, files: &F) -> bool {
        let octets = files.at_hand(self.counted.slot);
        if octets.len() < HEAD_SIZE {
            return false;
        }
        let size = self.heading.order.read_u32(&octets[8..]) as usize;
        size <= octets.len() - HEAD_SIZE
    }

    /// Reads the next record. Its octets stand at the front of `into`. `None`: the capture ended behind its last
    /// record. After that, and after any fault, each call answers the same again and reads nothing.
    ///
    /// # Errors
    ///
    /// `RecordTooLong`, as soon as that field is read; `Cut` where the capture ends within a record; `Limit` where the
    /// limit is reached and no field before it is wrong; `Read` where the files failed.
    #[inline(always)]
    pub fn next<F: Files>(
        &mut self,
        files: &mut F,
        into: &mut [u8],
    ) -> Result<Option<Caught>, CaptureFault>
        requires { longest_record ≤ length into.old }
        ensures gives { GivesNext F.Files files.old files.new self.old.slot self.new.slot self.old.limit self.new.limit
            self.old.end self.new.end (self.new ≡ self.old)
            (coming self.old (F.left files.old self.old.slot))
            (λ caught. with_part
            (packet_from caught into.new)
            (coming self.new (F.left files.new self.old.slot)))
            result }
        ensures heading { self.new.heading ≡ self.old.heading }
        ensures grows { self.old.end ≡ None → Grows self.old.place self.new.place self.new.limit result }
        ensures times { self.old.end ≡ None → Times self.old.moment self.new.moment result }
    {
        let context = Context {
            order: self.heading.order,
            unit: self.heading.unit,
            moment: self.moment,
        };
        match next_record(&context, &mut self.counted, &mut self.end, files, into) {
            Ok(Some(found)) => {
                self.moment = found.said.moment;
                Ok(Some(Caught {
                    taken: found.size,
                    ..found.said
                }))
            }
            Ok(None) => Ok(None),
            Err(fault) => Err(fault),
        }
    }
}
