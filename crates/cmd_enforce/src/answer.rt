//! The answers of both formats, as those of one capture.
ghost use Rattle.std.specs.Prelude.{◌≡◌};
ghost use Rattle.cmd_enforce.specs.{Answer.{block_answer, fault_as, record_answer}, declared.fault.CaptureReason.TheVariants.{Pcap, Pcapng}};

use crate::caught::Caught;
use crate::fault::{Answer, CaptureFault, CaptureReason};
use fs_base::Link;
use fs_pcap::{CaptureFault as PcapFault, Caught as Record};
use fs_pcapng::{NgCaught, NgFault};

/// The fault of a capture of the libpcap format.
pub(crate) fn record_fault(fault: PcapFault) -> CaptureFault
    ensures { result ≡ fault_as Pcap fault }
{
    match fault {
        PcapFault::Read => CaptureFault::Read,
        PcapFault::Limit => CaptureFault::Limit,
        PcapFault::Bad { reason, place } => CaptureFault::Bad {
            reason: CaptureReason::Pcap(reason),
            place,
        },
    }
}

/// The fault of a capture of the pcapng format.
pub(crate) fn block_fault(fault: NgFault) -> CaptureFault
    ensures { result ≡ fault_as Pcapng fault }
{
    match fault {
        NgFault::Read => CaptureFault::Read,
        NgFault::Limit => CaptureFault::Limit,
        NgFault::Bad { reason, place } => CaptureFault::Bad {
            reason: CaptureReason::Pcapng(reason),
            place,
        },
    }
}

/// What a capture of the libpcap format and of this link type answers.
pub(crate) fn record_answer(
    link: Link,
    found: Result<Option<Record>, PcapFault>,
) -> Answer<Option<Caught>>
    ensures { result ≡ record_answer link found }
{
    match found {
        Ok(Some(record)) => Ok(Some(Caught {
            link: Some(link),
            time: record.time,
            moment: record.moment,
            taken: record.taken,
        })),
        Ok(None) => Ok(None),
        Err(fault) => Err(record_fault(fault)),
    }
}

/// What a capture of the pcapng format answers, where the last packet's interface is of this link type.
pub(crate) fn block_answer(
    link: Option<Link>,
    found: Result<Option<NgCaught>, NgFault>,
) -> Answer<Option<Caught>>
    ensures { result ≡ block_answer link found }
{
    match found {
        Ok(Some(packet)) => Ok(Some(Caught {
            link,
            time: packet.time,
            moment: packet.moment,
            taken: packet.taken,
        })),
        Ok(None) => Ok(None),
        Err(fault) => Err(block_fault(fault)),
    }
}
