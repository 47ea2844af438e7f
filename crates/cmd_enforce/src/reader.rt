//! What reads a capture.

use fs_pcap::Capture as Pcap;
use fs_pcapng::Ng;

/// What reads a capture, by its format.
#[derive(Drop)]
pub(crate) enum Reader {
    /// Records, of the libpcap format.
    Records(Pcap),
    /// Blocks, of the pcapng format.
    Blocks(Ng),
}
