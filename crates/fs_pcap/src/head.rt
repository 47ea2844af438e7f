//! The head of a record, each field judged as soon as it stands whole.
ghost use Rattle.std.specs.Prelude.{◌≡◌, length};

use crate::capture::Caught;
use crate::fault::CaptureReason;
use crate::order::{Endian, Unit};
use fs_input::{Head, Heads};

/// The octets of a record's head.
pub(crate) const HEAD_SIZE: usize = 16;

/// The octets of the longest record of a capture.
pub const LONGEST_RECORD: usize = 262144;

/// What the reading of a head depends on: what the capture's magic tells, and the moment of the record before.
#[derive(Clone, Copy, Debug, PartialEq, Eq, Drop)]
pub(crate) struct Context {
    pub(crate) order: Endian,
    pub(crate) unit: Unit,
    pub(crate) moment: u64,
}

impl Heads for Context {
    ghost use Rattle.std.{specs.Prelude.{◌≤◌, ◌<◌}, proofs.Common.{rules}};
    ghost use Rattle.fs_pcap.specs.{Capture.{Captured, records}, Head.{longest_record}};

    type Said = Caught;

    type Reason = CaptureReason;

    ghost Item = { Captured };

    ghost format = { records };

    ghost most = { longest_record };

    ghost Known = { λ now said. now.moment ≤ said.moment };

    fn head_size(&self) -> usize {
        HEAD_SIZE
    }

    fn read_head(&self, octets: &[u8]) -> Head<Caught, CaptureReason> {
        if octets.len() < 12 {
            return Head::Partial;
        }
        let size = self.order.read_u32(&octets[8..]) as usize;
        if size > LONGEST_RECORD {
            return Head::Wrong {
                reason: CaptureReason::RecordTooLong,
                offset: 8,
            };
        }
        if octets.len() < HEAD_SIZE {
            return Head::Partial;
        }
        Head::Whole {
            said: self.read_said(size, octets),
            size,
        }
    }

    fn cut(&self) -> CaptureReason {
        CaptureReason::Cut
    }

    ghost some = { λ now. Prim.search rules };
}

impl Context {
    ghost use Rattle.std.specs.Prelude.{◌≤◌, drop};
    ghost use Rattle.fs_pcap.specs.{Head.{said_in}, Order.{number}};

    /// Reads a whole head, of which the captured length was read.
    fn read_said(&self, taken: usize, octets: &[u8]) -> Caught
        requires held { 16 ≤ length octets.now }
        requires size { taken ≡ number self.now.order 4 (drop 8 octets.now) }
        ensures { result ≡ said_in self.now octets.now }
    {
        let seconds = self.order.read_u32(octets);
        let fraction = self.order.read_u32(&octets[4..]);
        let time = self.unit.time(seconds, fraction);
        Caught {
            seconds,
            fraction,
            taken,
            original: self.order.read_u32(&octets[12..]),
            time,
            moment: self.moment.max(time),
        }
    }
}
