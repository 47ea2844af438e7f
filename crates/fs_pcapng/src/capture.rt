//! A capture, read packet by packet.
ghost use Rattle.std.specs.{Prelude.{◌≡◌, ◌≤◌, ◌+◌, ◌++◌, [], None, IsTrue, IfOk, IfSome, OnErr, length}, Result.{IsErrOf}};
ghost use Rattle.fs_base.specs.{Files.{OnlySlot}, Outside.{Rose}, Parts.{with_part}};
ghost use Rattle.fs_pcap.specs.Head.{longest_record};
ghost use Rattle.fs_input.specs.{NextRecord.{GivesNext}, declared.fault.Fault.TheVariants.{Read}, Reads.{ScansAgain, whole}, Scan.{field}, Opening.{Begins}};
ghost use Rattle.fs_pcapng.specs.{Block.{block_in}, Pcapng.{Grows, nothing, packet_from, pcapng_of}, declared.fault.NgReason.TheVariants.{Cut}};

use crate::block::{SECTION_HEADER, is_whole_packet};
use crate::caught::NgCaught;
use crate::fault::{Got, NgFault, NgReason};
use crate::header::take_header;
use crate::section::Section;
use byteorder::{BigEndian, ByteOrder};
use fs_base::{Counted, Files, Link};
use fs_input::{Ended, next_part, take_again};
use std::marker::Model;

/// A capture that is read from a slot.
#[derive(Drop)]
pub struct Ng {
    counted: Counted,
    end: Option<Ended<NgReason>>,
    section: Section,
    link: Option<Link>,
}

impl Model for Ng {
    ghost use Rattle.std.specs.Prelude.{◌≡◌, []};
    ghost use Rattle.fs_pcapng.specs.Pcapng.{NgState};

    ghost Value = { NgState };

    ghost view = { λ capture.
        record {
          slot = capture.counted.slot;
          limit = capture.counted.limit;
          place = capture.counted.taken;
          end = capture.end;
          context = capture.section;
          link = capture.link;
        } };

    ghost invariant = { λ capture. capture.counted.back ≡ [] };
}

impl Ng {
    ghost use Rattle.fs_pcapng.specs.Pcapng.{coming};

    /// Reads the first block, which is a section header. Octets of it may have been put back.
    ///
    /// # Errors
    ///
    /// `Magic`, `Version` or `Length`, as soon as the field is read; `Cut` where the capture ends within the block;
    /// `Limit` where the limit is reached in it and no field before is wrong; `Read` where the files failed.
    pub fn begin<F: Files>(mut counted: Counted, files: &mut F) -> Result<Ng, NgFault>
        requires start { counted.taken ≡ 0 }
        ensures later { F.faults files.old ≤ F.faults files.new }
        ensures read { IsErrOf result Read → Rose (F.faults files.old) (F.faults files.new) }
        ensures slot { IfOk result (λ capture. capture.slot ≡ counted.slot) }
        ensures limit { IfOk result (λ capture. capture.limit ≡ counted.limit) }
        ensures end { IfOk result (λ capture. capture.end ≡ None) }
        ensures link { IfOk result (λ capture. capture.link ≡ None) }
        ensures moment { IfOk result (λ capture. capture.context.moment ≡ 0) }
        ensures within { IfOk result (λ capture. capture.place ≤ capture.limit) }

        ensures begins { IsTrue F.tells
            → Begins
            (pcapng_of counted.limit (counted.back ++ F.left files.old counted.slot))
            (λ capture. coming capture (F.left files.new counted.slot))
            result }
        ensures opened { F.opened files.new ≡ F.opened files.old }
        ensures others { OnlySlot F.tells F.left F.holds counted.slot files.old files.new }
    {
        let mut section = Section::nothing();
        match take_opening(&mut section, &mut counted, files) {
            Ok(()) => Ok(Ng {
                counted,
                end: None,
                section,
                link: None,
            }),
            Err(fault) => Err(fault),
        }
    }

    /// The link type of the last packet's interface; None before the first packet, and where it isn't one of the six
    /// that are read.
    pub fn link(&self) -> Option<Link>
        ensures { result ≡ self.now.link }
    {
        self.link
    }

    /// Whether `next` answers without a call to the outside: the next block gives a packet, and stands whole in what
    /// the slot gives at once. No clause says when: it decides only when lines leave.
    #[inline(always)]
    pub fn is_at_hand<F: Files>(&self, files: &F) -> bool {
        let octets = files.at_hand(self.counted.slot);
        match self.section.order() {
            Some(order) => is_whole_packet(order, octets),
            None => false,
        }
    }

    /// Reads up to the next packet. Its octets stand at the front of `into`. `None`: the capture ended behind a block.
    /// After that, and after any fault, each call answers the same again and reads nothing, and `link` stays.
    ///
    /// # Errors
    ///
    /// The first field that stands whole and is wrong, as soon as it is read; `Cut` where the capture ends within a
    /// block; `Limit` where the limit is reached and no field before it is wrong; `Read` where the files failed.
    #[inline(never)]
    pub fn next<F: Files>(
        &mut self,
        files: &mut F,
        into: &mut [u8],
    ) -> Result<Option<NgCaught>, NgFault>
        requires { longest_record ≤ length into.old }
        ensures room { length into.new ≡ length into.old }
        ensures gives { GivesNext F.Files files.old files.new self.old.slot self.new.slot self.old.limit self.new.limit
            self.old.end self.new.end (self.new ≡ self.old)
            (coming self.old (F.left files.old self.old.slot))
            (λ caught. with_part
            (packet_from self.new.link caught into.new)
            (coming self.new (F.left files.new self.old.slot)))
            result }
        ensures grows { self.old.end ≡ None → Grows self.old.place self.new.place self.new.limit result }
        ensures times { IfOk result (λ found. IfSome found (λ caught. caught.moment ≡ self.new.context.moment)) }
        ensures rises { self.old.context.moment ≤ self.new.context.moment }
        ensures kept { IfOk result (λ found. found ≡ None → self.new.link ≡ self.old.link) }
        ensures faulted { OnErr result (self.new.link ≡ self.old.link) }
    {
        let found = next_part(
            &(),
            &mut self.section,
            &mut self.counted,
            &mut self.end,
            files,
            into,
        );
        match found {
            Ok(Some(seen)) => {
                self.link = seen.link;
                Ok(Some(seen.caught))
            }
            Ok(None) => Ok(None),
            Err(fault) => Err(fault),
        }
    }
}

/// Reads the first block of a capture.
pub(crate) fn take_opening<F: Files>(
    section: &mut Section,
    counted: &mut Counted,
    files: &mut F,
) -> Got<()>
    requires nothing { section.old ≡ nothing }
    requires start { counted.old.taken ≡ 0 }
    requires few { length counted.old.back ≤ 4 }
    ensures none { IfOk result (λ _. counted.new.back ≡ []) }
    ensures moment { IfOk result (λ _. section.new.moment ≡ 0) }
    ensures reads { ScansAgain F.Files files.old files.new (block_in nothing) Cut counted.old counted.new
        (λ _. (None, section.new)) result }
{
    let mut kind = [0u8; 4];
    if let Err(fault) = take_kind(counted, files, &mut kind) {
        return Err(fault);
    }
    if BigEndian::read_u32(&kind) != SECTION_HEADER {
        return Err(NgFault::Bad {
            reason: NgReason::Magic,
            place: 0,
        });
    }
    match take_header(0, counted, files) {
        Ok(order) => {
            section.open(order);
            Ok(())
        }
        Err(fault) => Err(fault),
    }
}

/// Takes the type of the first block.
fn take_kind<F: Files>(counted: &mut Counted, files: &mut F, kind: &mut [u8]) -> Got<()>
    requires room { length kind.old ≡ 4 }
    requires few { length counted.old.back ≤ 4 }
    ensures none { IfOk result (λ _. counted.new.back ≡ []) }
    ensures room { length kind.new ≡ 4 }
    ensures taken { IfOk result (λ _. counted.new.taken ≡ counted.old.taken + 4) }
    ensures reads { ScansAgain F.Files files.old files.new (field 4 whole) Cut counted.old counted.new (λ _. kind.new)
        result }
{
    take_again(NgReason::Cut, counted, files, kind)
}
