//! A capture, read packet by packet.
ghost use Rattle.std.specs.Prelude.{◌≡◌, ◌≤◌, ◌++◌, None, IsTrue, length};
ghost use Rattle.fs_pcap.specs.Head.{longest_record};
ghost use Rattle.cmd_enforce.specs.Capture.{BeginsAs, BeginsSo, GivesPacket, Grows, Times, captured_by, captured_in, is_section};
ghost use Rattle.cmd_enforce.specs.Capture.{link_by, link_in, own_link};

use crate::answer::{block_answer, block_fault, record_answer, record_fault};
use crate::caught::Caught;
use crate::fault::{Answer, CaptureFault};
use crate::reader::Reader;
use byteorder::{BigEndian, ByteOrder};
use cmd_stages::CAPTURE_SLOT;
use fs_base::{Counted, Files, Link, fill};
use fs_pcap::Capture as Pcap;
use fs_pcapng::{Ng, SECTION_HEADER};
use std::marker::Model;

/// A capture of either format that is read from a slot.
#[derive(Drop)]
pub struct Capture {
    reader: Reader,
}

impl Model for Capture {
    ghost use Rattle.cmd_enforce.specs.Capture.{CaptureState};

    ghost Value = { CaptureState };

    ghost use Rattle.cmd_enforce.specs.Reader.{state_of};

    ghost view = { λ capture. state_of capture.reader };
}

impl Capture {
    /// Begins to read, up to the limit. A capture whose first four octets are `0a 0d 0d 0a` is of the pcapng format,
    /// every other of the libpcap format; these octets are put back, and read again by what reads the format. Octets of
    /// its front may have been put back before.
    ///
    /// # Errors
    ///
    /// The first field of the header, or of the first block, that stands whole and is wrong; `Cut` where the capture
    /// ends within it; `Limit` where the limit is reached in it; `Read` where the files failed.
    pub fn begin<F: Files>(mut counted: Counted, files: &mut F) -> Answer<Capture>
        requires start { counted.taken ≡ 0 }
        ensures state { BeginsSo F.Files files.old files.new counted result }
        ensures begins { IsTrue F.tells
            → BeginsAs (link_in counted.limit (counted.back ++ F.left files.old counted.slot))
            (captured_in counted.limit (counted.back ++ F.left files.old counted.slot))
            (F.left files.new counted.slot) result }
    {
        let mut front = [0u8; 4];
        let Ok(count) = fill(&mut counted, files, &mut front) else {
            return Err(CaptureFault::Read);
        };
        let front = &front[..count];
        counted.put_back(front);
        open(is_section(front), counted, files)
    }

    /// The link type of a capture of the libpcap format.
    pub(crate) fn link(&self) -> Option<Link>
        ensures { result ≡ own_link self.now.context }
    {
        match &self.reader {
            Reader::Records(capture) => Some(capture.link_type()),
            Reader::Blocks(_) => None,
        }
    }

    /// Whether `next` answers without a wait: no read of the capture's slot waits, or the next packet stands whole in
    /// what the slot gives at once. No clause says when: it decides only when lines leave.
    #[inline(always)]
    pub fn is_at_hand<F: Files>(&self, files: &F) -> bool {
        !files.waits(CAPTURE_SLOT) || self.is_whole(files)
    }

    /// Whether the next packet stands whole in what the slot gives at once.
    #[inline(never)]
    fn is_whole<F: Files>(&self, files: &F) -> bool {
        match &self.reader {
            Reader::Records(capture) => capture.is_at_hand(files),
            Reader::Blocks(capture) => capture.is_at_hand(files),
        }
    }

    /// Reads the next packet. Its octets stand at the front of `into`. `None`: the capture ended behind its last
    /// record or block. After that, and after any fault, each call answers the same again and reads nothing.
    ///
    /// # Errors
    ///
    /// The first field that stands whole and is wrong, as soon as it is read; `Cut` where the capture ends within a
    /// record or block; `Limit` where the limit is reached and no field before it is wrong; `Read` where the files
    /// failed.
    #[inline(always)]
    pub fn next<F: Files>(&mut self, files: &mut F, into: &mut [u8]) -> Answer<Option<Caught>>
        requires { longest_record ≤ length into.old }
        ensures gives { GivesPacket F.Files files.old files.new self.old self.new into.new result }
        ensures grows { self.old.end ≡ None → Grows self.old.place self.new.place self.new.limit result }
        ensures times { self.old.end ≡ None → Times self.old.moment self.new.moment result }
        ensures link { own_link self.new.context ≡ own_link self.old.context }
    {
        match &mut self.reader {
            Reader::Records(capture) => {
                let found = capture.next(files, into);
                record_answer(capture.link_type(), found)
            }
            Reader::Blocks(capture) => {
                let found = capture.next(files, into);
                block_answer(capture.link(), found)
            }
        }
    }
}

/// Whether the first octets of a capture, up to four, are the type of a section header.
fn is_section(front: &[u8]) -> bool
    ensures { result ≡ is_section front.now }
{
    front.len() == 4 && BigEndian::read_u32(front) == SECTION_HEADER
}

/// Begins to read a capture of the pcapng format or of the libpcap format. Octets of its front were put back.
fn open<F: Files>(section: bool, counted: Counted, files: &mut F) -> Answer<Capture>
    requires start { counted.taken ≡ 0 }
    ensures state { BeginsSo F.Files files.old files.new counted result }
    ensures begins { IsTrue F.tells
        → BeginsAs (link_by section counted.limit (counted.back ++ F.left files.old counted.slot))
        (captured_by section counted.limit (counted.back ++ F.left files.old counted.slot))
        (F.left files.new counted.slot) result }
{
    if section {
        match Ng::begin(counted, files) {
            Ok(capture) => Ok(Capture {
                reader: Reader::Blocks(capture),
            }),
            Err(fault) => Err(block_fault(fault)),
        }
    } else {
        match Pcap::begin(counted, files) {
            Ok(capture) => Ok(Capture {
                reader: Reader::Records(capture),
            }),
            Err(fault) => Err(record_fault(fault)),
        }
    }
}
